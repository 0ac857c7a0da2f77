//! How many bytes a table takes, told before it is opened.

ghost use Rattle.std.specs.Prelude.{◌≡◌};
ghost use Rattle.hash_bits.specs.declared.hashing.Hashing.{Hashing};
ghost use Rattle.exchange_opening.specs.Openings.{plan_of};
ghost use Rattle.exchange_opening.specs.Memory.{bytes_kept, bytes_passing};

use crate::options::{MOST_ITEMS, MOST_SEATS};
use crate::words::{ENTRY_WORDS, words_for};
use exchange_calls::TableSizes;
use step_counts::ITEM_WORDS;

// The bytes of a word.
const WORD_BYTES: u64 = 8;

// The words of what a seat has at hand: the items and the entries of a row, and the entries of the next one.
const HAND_WORDS: u64 = MOST_ITEMS as u64 * ITEM_WORDS as u64
    + 2 * (MOST_SEATS as u64 * ENTRY_WORDS as u64);

/// The bytes that a table takes.
#[derive(Clone, Copy, Debug, PartialEq, Eq)]
pub struct Memory {
    /// As long as it is open: its words, and of each seat what it has at hand and the lists of its rows.
    pub kept: u64,
    /// Beside these while it is opened: its words once more, until they are copied.
    pub passing: u64,
}

/// The bytes that a table of these sizes takes.
pub fn memory_for(sizes: TableSizes) -> Memory
    ensures kept { (hashing : Hashing) → result.kept ≡ bytes_kept (plan_of sizes hashing) }
    ensures passing { (hashing : Hashing) → result.passing ≡ bytes_passing (plan_of sizes hashing) }
{
    let words = words_for(sizes) as u64;
    let own = HAND_WORDS + 2 * sizes.spare as u64;
    Memory {
        kept: WORD_BYTES * (words + sizes.seats as u64 * own),
        passing: WORD_BYTES * words,
    }
}
