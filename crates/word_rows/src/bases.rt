//! The number of the row that a row was made from, as a word.

ghost use Rattle.std.specs.Prelude.{◌≡◌};
ghost use Rattle.word_rows.specs.BaseWords.{IsBase, base_of_word, word_of_base};

/// The word of a base: one more than its number, or 0.
pub(crate) fn base_word(base: Option<u64>) -> u64
    requires { IsBase base }
    ensures { result ≡ word_of_base base }
{
    base.map_or(0, |row| row + 1)
}

/// The base that a word spells.
pub(crate) fn base_of(word: u64) -> Option<u64>
    ensures value { result ≡ base_of_word word }
    ensures base { IsBase result }
    ensures spelled { word_of_base result ≡ word }
{
    word.checked_sub(1)
}
