//! A try whose row is loaded.

/// Which try it is, the bucket word that it loaded, and the words of that row at hand.
#[derive(Clone, Copy)]
pub struct Attempt<'a> {
    /// 1 or 2. It is kept for the proofs alone.
    pub turn: u64,
    pub word: u64,
    pub words: &'a [u64],
}
