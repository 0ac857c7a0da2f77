//! What an update is about: why it finds a bucket, and in which round.

/// What the bucket of a key is found for.
#[derive(Clone, Copy, PartialEq, Eq)]
pub enum Aim {
    /// To look the key up.
    ForLookup,
    /// For the first round of an update.
    ForFirstRound,
    /// For the second round. The first one had found the bucket by this directory row, which is kept for the proofs
    /// alone.
    ForSecondRound(u64),
    /// For the last look of an update.
    ForLastLook,
}

/// A round of an update.
#[derive(Clone, Copy, PartialEq, Eq)]
pub struct Round {
    /// Which one, 1 or 2.
    pub turn: u64,
    /// The directory row by which the first round found its bucket. It is kept for the proofs alone.
    pub first: u64,
    /// The directory row by which this round found its bucket. It is kept for the proofs alone.
    pub root: u64,
    /// That bucket.
    pub bucket: u64,
}
