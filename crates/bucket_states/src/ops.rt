//! A call that a seat has announced.

use plain_map::Call;

/// A call that a seat has announced, so that any seat may carry it out.
#[derive(Clone, Copy, PartialEq, Eq)]
pub struct Op {
    /// The seat that asks, below the number of seats; it is also the op's place among those of all seats.
    pub seat: u32,
    /// Which one of the seat's calls it is, from 1; below `NUMBER_LIMIT`.
    pub number: u64,
    pub call: Call,
}
