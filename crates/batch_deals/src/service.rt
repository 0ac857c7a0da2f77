//! How calls are served.

use hash_bits::Hashing;
use step_counts::{SeatRows, Settings};
use trace_share::Share;

/// How the calls of each batch are served.
#[derive(Clone, Copy, PartialEq, Eq)]
pub struct Service {
    /// Of each table, but for its greatest depth where `rows` is `None`: then this is the greatest that one has.
    pub settings: Settings,
    pub hashing: Hashing,
    /// Which seat makes which call.
    pub share: Share,
    /// What each seat has of each table; `None` where a batch's table has what its calls can need.
    pub rows: Option<SeatRows>,
}
