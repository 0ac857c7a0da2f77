//! A block of the report, before it is told.

use plain_map::Pair;
use report_text::FlowCounts;

/// A block of the report, before it is told.
#[derive(Drop)]
pub struct Block {
    /// How many packets there were so far.
    pub at: u64,
    /// The sessions that are left, in the order of their keys.
    pub pairs: Vec<Pair>,
    pub counts: FlowCounts,
}
