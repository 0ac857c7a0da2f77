//! The places of an opening, cleared, so that the words are all 0 again.

ghost use Rattle.std.specs.Prelude.{◌≡◌, ◌+◌, ◌^◌, ◌≤◌, length, replicate, slice_set};
ghost use Rattle.step_counts.specs.StepCounts.{bucket_row_words as row_words};
ghost use Rattle.word_rows.specs.LayoutView.{shape_of};
ghost use Rattle.word_rows.specs.Places.{IsAddress, place, word_count};
ghost use Rattle.word_rows.specs.declared.addresses.Address.TheVariants.{BucketRowWord, BucketWord, DirectoryWord};
ghost use Rattle.dir_states.specs.Openings.{first_directory, first_leaves};
ghost use Rattle.opening_words.specs.Written.{FitIn, words_with, written};

use dir_states::{DirState, Opening};
use step_counts::{DIRECTORY_HEAD_WORDS, bucket_row_words};
use word_rows::{Layout, place_laws};

// Clears so many words from a place on.
fn clear_row(words: &mut [u64], start: usize, count: usize)
    requires inside { start + count ≤ length words.old }
    ensures words { words.new ≡ written words.old start (replicate count 0) }
    ensures len { length words.new ≡ length words.old }
{
    for i in 0..count {
        words[start + i] = 0;
    }
}

// Clears the word and the row of the leaf with this number.
fn clear_leaf(layout: &Layout, number: u64, words: &mut [u64])
    requires word { IsAddress (shape_of layout.now) (BucketWord number) }
    requires inside { IsAddress (shape_of layout.now) (BucketRowWord number 0) }
    requires long { length words.old ≡ word_count (shape_of layout.now) }
    ensures words { words.new ≡ written
        (slice_set words.old (place (shape_of layout.now) (BucketWord number)) 0)
        (place (shape_of layout.now) (BucketRowWord number 0))
        (replicate (row_words (shape_of layout.now).settings) 0) }
    ensures len { length words.new ≡ length words.old }
{
    place_laws();
    words[layout.bucket_word(number) as usize] = 0;
    clear_row(
        words,
        layout.bucket_row_word(number, 0) as usize,
        bucket_row_words(layout.settings()) as usize,
    );
}

// Clears the first directory row.
fn clear_directory(layout: &Layout, directory: &DirState, words: &mut [u64])
    requires inside { IsAddress (shape_of layout.now) (DirectoryWord 0 0) }
    requires depth { directory.now.depth ≤ (shape_of layout.now).settings.depth }
    requires entries { length directory.now.entries.items ≡ 2 ^ directory.now.depth }
    requires long { length words.old ≡ word_count (shape_of layout.now) }
    ensures words { words.new ≡ written words.old (place (shape_of layout.now) (DirectoryWord 0 0))
        (replicate (2 + length directory.now.entries.items) 0) }
    ensures len { length words.new ≡ length words.old }
{
    place_laws();
    let start = layout.directory_word(0, 0) as usize;
    clear_row(words, start, DIRECTORY_HEAD_WORDS + directory.entries.len());
}

/// Clears the words of an opening.
pub(crate) fn clear_all(layout: &Layout, made: &Opening, words: &mut [u64])
    requires fit { FitIn (shape_of layout.now) (first_leaves made.now) (first_directory made.now) }
    requires words { words.old ≡ words_with (shape_of layout.now) (first_leaves made.now) (first_directory made.now) }
    requires count { length words.old ≡ word_count (shape_of layout.now) }
    ensures zeros { words.new ≡ replicate (word_count (shape_of layout.now)) 0 }
    ensures len { length words.new ≡ word_count (shape_of layout.now) }
{
    let leaves = made.leaves();
    for number in 0..leaves.len() {
        clear_leaf(layout, number as u64, words);
    }
    clear_directory(layout, made.state(), words);
}
