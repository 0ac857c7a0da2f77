//! A schedule, and what a play comes to.

use plain_map::{CallId, Pair, Pending};
use trace_share::Outcome;

/// So many slots of a seat, or as many as it needs to the end of its calls.
#[derive(Clone, Copy, PartialEq, Eq)]
pub struct Segment {
    pub seat: u32,
    pub slots: Option<u32>,
}

/// What a play comes to.
#[derive(Drop)]
pub struct Played {
    /// The calls that ended, answered or refused, each with its seat, in the order of their packets.
    pub outcomes: Vec<(u32, Outcome)>,
    /// The calls under way where their seats were stopped, in the order of the seats.
    pub pending: Vec<Pending>,
    /// The answered calls, and those under way that took effect, in their one order.
    pub order: Vec<CallId>,
    /// The pairs that are held, in the order of their keys.
    pub pairs: Vec<Pair>,
    /// How many leaves the directory has.
    pub leaves: usize,
    /// The depth of the directory.
    pub depth: u64,
    /// How many calls were not begun.
    pub unbegun: u64,
}
