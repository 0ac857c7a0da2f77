//! What may be said of a text.

/// Whether a report is right, or what is wrong with it first.
#[derive(Clone, Copy, PartialEq, Eq)]
pub enum Verdict {
    /// The report is right.
    Yes,
    /// The text is no report. This is the first line, from 1, with which no report begins; a line that is missing, or
    /// has no line feed, counts as one.
    BadLine { line: u32 },
    /// The least packet that does not stand in the order as often as it must.
    Whole { packet: u32 },
    /// The first call of the order that does not stand after all that it must.
    After { packet: u32 },
    /// The first call of the order whose reply is not the plain map's.
    Legal { packet: u32 },
    /// The sessions are not those that the order leaves.
    Sessions,
    /// The first line of an update with more steps than the bound.
    Steps { packet: u32 },
}
