//! Which rows were published by an exchange of a bucket word, and the first row of a bucket.

ghost use Rattle.std.specs.Prelude.{◌≡◌};
ghost use Rattle.word_rows.specs.LayoutView.{shape_of};
ghost use Rattle.table_model.specs.Reading.{first_row, is_exchanged};

use crate::{Starts, Words, row_base, row_depth, row_of};

/// Whether a bucket row was published by an exchange of a bucket word.
pub fn is_exchanged<W: Words>(starts: &Starts, words: &W, row: u64) -> bool
    ensures { result ≡ is_exchanged (shape_of starts.now.layout) (W.words words.now) row }
{
    match row_base(starts, words, row) {
        Some(base) => row_depth(starts, words, base) == row_depth(starts, words, row),
        None => false,
    }
}

/// The first row of a bucket: of its row in use and all that it comes from, the first that was not exchanged.
pub fn first_row<W: Words>(starts: &Starts, words: &W, bucket: u64) -> Option<u64>
    ensures { result ≡ first_row (shape_of starts.now.layout) (W.words words.now) bucket }
{
    let mut next = Some(row_of(starts, words, bucket));
    for _ in 0..starts.bucket_row_count() {
        let Some(row) = next else {
            return None;
        };
        if !is_exchanged(starts, words, row) {
            return Some(row);
        }
        next = row_base(starts, words, row);
    }
    None
}
