//! What a try reads: made once a seat, since a function clears its own locals at each call.

use bucket_states::Op;
use plain_map::MOST_SEATS;
use step_counts::{BUCKET_HEAD_WORDS, ITEM_WORDS, MOST_ITEMS, SEAT_WORDS};

/// The most words of a row at hand.
pub const MOST_WORDS: usize = BUCKET_HEAD_WORDS
    + ITEM_WORDS * MOST_ITEMS as usize
    + SEAT_WORDS * MOST_SEATS;

/// The words of a row, and the ops that are announced.
#[derive(Clone, Copy)]
pub struct Room {
    pub words: [u64; MOST_WORDS],
    pub ops: [Option<Op>; MOST_SEATS],
}

impl Room {
    /// Room for the tries of a call.
    pub fn new() -> Room {
        Room {
            words: [0; MOST_WORDS],
            ops: [None; MOST_SEATS],
        }
    }
}
