//! Words that are read by their numbers.

use word_rows::ClosedRows;

/// The words of a table that no caller works on any more.
pub trait Words {
    ghost use Rattle.std.specs.Prelude.{◌≡◌, ◌<◌, ℕ, List, length, slice_index};

    // All of them, by their numbers.
    ghost words: { Self → List ℕ };

    /// How many they are.
    fn count(&self) -> usize
        ensures { result ≡ length (words self.now) };

    /// The word with this number.
    fn word(&self, at: usize) -> u64
        requires { at < length (words self.now) }
        ensures { result ≡ slice_index (words self.now) at };
}

impl Words for Vec<u64> {
    ghost words = { λ all. all.items };

    fn count(&self) -> usize {
        self.len()
    }

    fn word(&self, at: usize) -> u64 {
        self[at]
    }
}

impl Words for ClosedRows {
    ghost words = { λ rows. rows.words.items };

    fn count(&self) -> usize {
        self.words.len()
    }

    fn word(&self, at: usize) -> u64 {
        self.words[at]
    }
}
