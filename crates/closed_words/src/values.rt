//! What is read from words that may say anything.

/// A bucket of the directory, by its place: what its row says.
#[derive(Clone, Copy, PartialEq, Eq)]
pub struct ClosedLeaf {
    pub prefix: u64,
    /// In bits.
    pub depth: u64,
}
