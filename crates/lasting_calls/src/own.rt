//! A seat's own update, as it is kept at hand.

use bucket_machine::Hashed;
use plain_map::Call;

/// The update that a seat makes, and the row that it writes.
#[derive(Clone, Copy)]
pub struct Own {
    /// Which of the seat's updates it is, from 1 on.
    pub number: u64,
    pub call: Call,
    /// Its key, whose hash is made once a call.
    pub key: Hashed,
    /// The bucket of that key.
    pub bucket: u64,
    /// The first free row of the seat.
    pub row: u64,
    /// The generation that this row gets.
    pub generation: u64,
}
