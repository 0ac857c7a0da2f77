//! What is asked of a run that goes through flows.

use mode_parts::Calling;

/// What is asked of a run that goes through flows.
#[derive(Clone, Copy)]
pub struct Asked {
    /// How many callers there are, 1 to 8.
    pub seats: u32,
    /// How many sessions a class may have, 1 to 16.
    pub items: u32,
    /// How many bits of its hash tell a flow's class, 0 to 12.
    pub depth: u32,
    /// Of the hash.
    pub seed: u64,
    /// How packets are framed, and which calls they make.
    pub calling: Calling,
    /// After how many packets a block is written again and again, where it is; from 1.
    pub every: Option<u64>,
}
