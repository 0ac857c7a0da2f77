//! A seat's own update, as it is kept at hand.

use plain_map::Call;

/// The update that a seat makes.
#[derive(Clone, Copy)]
pub struct Own {
    pub call: Call,
    /// The bucket of its key.
    pub bucket: u64,
    /// The number of its announcement, if it comes to one.
    pub number: u64,
}
