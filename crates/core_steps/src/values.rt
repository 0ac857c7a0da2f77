//! What the core tells of an event, and what it leaves.

use closed_words::ClosedLeaf;
use plain_map::{Full, Pair, Pending, Record};
use word_rows::ClosedRows;

/// What an event did.
#[derive(Clone, Copy, PartialEq, Eq)]
pub enum Stepped {
    /// The seat's call goes on.
    Going,
    /// It was the last step of the call.
    Ended(Record),
    /// The call that came with the event was refused, and took no step.
    Refused(Full),
}

/// What the core leaves where it is stopped.
#[derive(Drop)]
pub struct CoreEnd {
    pub rows: ClosedRows,
    /// The records of each seat.
    pub logs: Vec<Vec<Record>>,
    /// The calls that had begun, in the order of the seats.
    pub begun: Vec<Pending>,
    /// In the order of their keys.
    pub pairs: Vec<Pair>,
    /// In the order of their prefixes as bit strings.
    pub leaves: Vec<ClosedLeaf>,
    /// The depth of the directory.
    pub depth: u64,
}
