//! What the line of a call tells.

use plain_map::{Call, Full, Reply, Seen};

/// How a call ended.
#[derive(Clone, Copy, PartialEq, Eq)]
pub enum Ended {
    /// It was answered, in so many atomic steps.
    Answered {
        reply: Reply,
        steps: u64,
        seen: Seen,
    },
    /// It was refused, since its seat had too little room left.
    Refused(Full),
}

/// The line of a call that ended.
#[derive(Clone, Copy, PartialEq, Eq)]
pub struct CallLine {
    pub packet: u32,
    pub seat: u32,
    pub call: Call,
    pub ended: Ended,
}

/// The line of a call that had begun and was not answered.
#[derive(Clone, Copy, PartialEq, Eq)]
pub struct PendingLine {
    pub packet: u32,
    pub seat: u32,
    pub call: Call,
    pub seen: Seen,
}
