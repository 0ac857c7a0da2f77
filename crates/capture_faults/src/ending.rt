//! How an input comes to its end.

use crate::any_fault::AnyFault;

/// How the input came to its end.
#[derive(Clone, Copy, PartialEq, Eq)]
pub enum Ending {
    /// The capture was read to its end, with this many bytes that are no whole record.
    Done { rest: u32 },
    /// A read failed.
    ReadFault,
    /// More packets stand there than this many, which is how many are read.
    Limit { limit: u64 },
    /// The capture is faulty. Here it is one of the faults of its format.
    Fault(AnyFault),
}
