//! The seat's own call, as far as its tries look at it.

use bucket_machine::Hashed;

/// The number of an update, and its key, whose hash is made once a call.
#[derive(Clone, Copy)]
pub struct Own {
    pub number: u32,
    pub key: Hashed,
}
