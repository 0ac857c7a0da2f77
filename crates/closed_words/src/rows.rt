//! Single numbers from the words of a table's rows.
//!
//! All are total: a word past the end reads 0, and a row that is partly past the end is read so too.

ghost use Rattle.std.specs.Prelude.{◌≡◌, ◌^◌, ◌<◌, length, min, slice_index};
ghost use Rattle.step_counts.specs.StepCounts.{bucket_row_words};
ghost use Rattle.word_rows.specs.LayoutView.{shape_of};
ghost use Rattle.table_model.specs.Reading.{
  applied_at,
  bucket_at,
  bucket_row,
  bucket_spelling,
  directory_at,
  directory_row,
  root_of,
  row_of,
};
ghost use Rattle.table_model.specs.Closed.{closed_depth};

use crate::{Starts, Words};
use step_counts::{BUCKET_HEAD_WORDS, DIRECTORY_HEAD_WORDS, ITEM_WORDS, SEAT_WORDS};

// The word with this number.
fn word_at<W: Words>(words: &W, at: u128) -> u64
    ensures { result ≡ slice_index (W.words words.now) at }
{
    if at < words.count() as u128 {
        words.word(at as usize)
    } else {
        0
    }
}

/// A word of a bucket row.
pub(crate) fn row_word<W: Words>(starts: &Starts, words: &W, row: u64, i: u64) -> u64
    requires { i < bucket_row_words (shape_of starts.now.layout).settings }
    ensures { result ≡ slice_index (bucket_spelling (shape_of starts.now.layout) (W.words words.now) row) i }
{
    word_at(words, starts.bucket_row(row) + u128::from(i))
}

/// The prefix that a bucket row says.
pub fn row_prefix<W: Words>(starts: &Starts, words: &W, row: u64) -> u64
    ensures { result ≡ (bucket_at (shape_of starts.now.layout) (W.words words.now) row).prefix }
{
    row_word(starts, words, row, 0)
}

/// The depth that a bucket row says.
pub fn row_depth<W: Words>(starts: &Starts, words: &W, row: u64) -> u64
    ensures { result ≡ (bucket_row (shape_of starts.now.layout) (W.words words.now) row).depth }
{
    row_word(starts, words, row, 1)
}

/// The row that a bucket row was made from.
pub fn row_base<W: Words>(starts: &Starts, words: &W, row: u64) -> Option<u64>
    ensures { result ≡ (bucket_row (shape_of starts.now.layout) (W.words words.now) row).base }
{
    row_word(starts, words, row, 2).checked_sub(1)
}

/// The number applied last of a seat in a bucket row, 0 from the last seat on.
pub fn applied_at<W: Words>(starts: &Starts, words: &W, row: u64, seat: u32) -> u64
    ensures { result ≡ applied_at (shape_of starts.now.layout) (W.words words.now) row seat }
{
    let settings = starts.layout.settings();
    if seat >= settings.seats {
        return 0;
    }
    let seats_start = BUCKET_HEAD_WORDS as u64 + ITEM_WORDS as u64 * u64::from(settings.items);
    row_word(
        starts,
        words,
        row,
        seats_start + u64::from(seat) * SEAT_WORDS as u64,
    )
}

/// The directory in use, and its row.
pub fn root_of<W: Words>(starts: &Starts, words: &W) -> u64
    ensures { result ≡ root_of (shape_of starts.now.layout) (W.words words.now) }
{
    word_at(words, starts.layout.root() as u128)
}

/// The row in use of a bucket.
pub fn row_of<W: Words>(starts: &Starts, words: &W, bucket: u64) -> u64
    ensures { result ≡ row_of (shape_of starts.now.layout) (W.words words.now) bucket }
{
    word_at(words, starts.bucket_word(bucket))
}

/// The depth that a directory row says.
pub fn directory_depth<W: Words>(starts: &Starts, words: &W, row: u64) -> u64
    ensures { result ≡ (directory_at (shape_of starts.now.layout) (W.words words.now) row).depth }
{
    word_at(words, starts.directory_row(row))
}

/// The row that a directory row was made from.
pub fn directory_base<W: Words>(starts: &Starts, words: &W, row: u64) -> Option<u64>
    ensures { result ≡ (directory_row (shape_of starts.now.layout) (W.words words.now) row).base }
{
    word_at(words, starts.directory_row(row) + 1).checked_sub(1)
}

/// The depth of the directory in use.
pub fn closed_depth<W: Words>(starts: &Starts, words: &W) -> u64
    ensures { result ≡ closed_depth (shape_of starts.now.layout) (W.words words.now) }
{
    directory_depth(starts, words, root_of(starts, words))
}

/// How many entries a directory row has: so many as its depth says, as far as there are words.
pub fn entry_count<W: Words>(starts: &Starts, words: &W, row: u64) -> u64
    ensures { result ≡ length (directory_at (shape_of starts.now.layout) (W.words words.now) row).entries }
{
    let start = starts.directory_row(row) + DIRECTORY_HEAD_WORDS as u128;
    let count = words.count() as u128;
    if start < count {
        at_most(
            (count - start) as u64,
            word_at(words, starts.directory_row(row)),
        )
    } else {
        0
    }
}

// So many, and at most 2^depth.
fn at_most(many: u64, depth: u64) -> u64
    ensures { result ≡ min (2 ^ depth) many }
{
    if depth < 64 && 1u64 << depth < many {
        1u64 << depth
    } else {
        many
    }
}

/// An entry of a directory row.
pub fn entry<W: Words>(starts: &Starts, words: &W, row: u64, i: u64) -> u64
    requires { i < length (directory_at (shape_of starts.now.layout) (W.words words.now) row).entries }
    ensures { result ≡ slice_index (directory_at (shape_of starts.now.layout) (W.words words.now) row).entries i }
{
    word_at(
        words,
        starts.directory_row(row) + (DIRECTORY_HEAD_WORDS as u128 + u128::from(i)),
    )
}
