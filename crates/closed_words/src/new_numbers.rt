//! The updates that are new in a row.

ghost use Rattle.std.specs.Prelude.{◌≡◌};
ghost use Rattle.word_rows.specs.LayoutView.{shape_of};
ghost use Rattle.table_model.specs.Order.{new_number};

use crate::{Starts, Words, applied_at, row_base};

/// The update of the seat that is new in a row, beside the row that it was made from.
pub fn new_number<W: Words>(starts: &Starts, words: &W, seat: u32, row: u64) -> Option<u64>
    ensures { result ≡ new_number (shape_of starts.now.layout) (W.words words.now) seat row }
{
    let base = row_base(starts, words, row)?;
    let number = applied_at(starts, words, row, seat);
    if applied_at(starts, words, base, seat) < number {
        Some(number)
    } else {
        None
    }
}
