//! The words of an opening's leaves and of its directory, written each at its place.

ghost use Rattle.std.specs.Prelude.{◌≡◌, ◌+◌, ◌^◌, ◌≤◌, None, length, replicate, slice_set};
ghost use Rattle.plain_map.specs.Rows.{HasBucketRoom};
ghost use Rattle.word_rows.specs.LayoutView.{shape_of};
ghost use Rattle.word_rows.specs.Places.{IsAddress, place, word_count};
ghost use Rattle.word_rows.specs.declared.addresses.Address.TheVariants.{BucketRowWord, BucketWord, DirectoryWord};
ghost use Rattle.word_rows.specs.BucketWords.{IsBucket, words_of_bucket};
ghost use Rattle.bucket_states.specs.States.{row_of_state, state_of};
ghost use Rattle.table_model.specs.Stores.{directory_words};
ghost use Rattle.dir_states.specs.Openings.{first_directory, first_leaves};
ghost use Rattle.dir_states.specs.Views.{as_directory};
ghost use Rattle.opening_words.specs.Written.{FitIn, words_with, written};

use dir_states::{DirState, NewLeaf, Opening};
use plain_map::BucketRow;
use step_counts::{
    BUCKET_HEAD_WORDS, DIRECTORY_HEAD_WORDS, ITEM_WORDS, MOST_ITEMS, MOST_SEATS, SEAT_WORDS,
    bucket_row_words,
};
use word_rows::{Layout, place_laws};

// The most words of a bucket row.
const MOST_WORDS: usize = BUCKET_HEAD_WORDS
    + ITEM_WORDS * MOST_ITEMS as usize
    + SEAT_WORDS * MOST_SEATS as usize;

// Writes a row from this place on.
fn put_row(words: &mut [u64], start: usize, row: &[u64])
    requires inside { start + length row.now ≤ length words.old }
    ensures words { words.new ≡ written words.old start row.now }
    ensures len { length words.new ≡ length words.old }
{
    for i in 0..row.len() {
        words[start + i] = row[i];
    }
}

// Writes a leaf: its word and its row, which have this number.
fn put_leaf(layout: &Layout, row: &mut BucketRow, number: u64, leaf: &NewLeaf, words: &mut [u64])
    requires word { IsAddress (shape_of layout.now) (BucketWord number) }
    requires inside { IsAddress (shape_of layout.now) (BucketRowWord number 0) }
    requires long { length words.old ≡ word_count (shape_of layout.now) }
    requires spelled { IsBucket (shape_of layout.now).settings (row_of_state None (state_of leaf.now.bucket)) }
    requires row { HasBucketRoom (shape_of layout.now).settings.seats (shape_of layout.now).settings.items row.old }
    ensures words { words.new ≡ written
        (slice_set words.old (place (shape_of layout.now) (BucketWord number)) number)
        (place (shape_of layout.now) (BucketRowWord number 0))
        (words_of_bucket (shape_of layout.now).settings (row_of_state None (state_of leaf.now.bucket))) }
    ensures len { length words.new ≡ length words.old }
    ensures row { HasBucketRoom (shape_of layout.now).settings.seats (shape_of layout.now).settings.items row.new }
{
    place_laws();
    words[layout.bucket_word(number) as usize] = number;
    leaf.bucket.to_row(None, row);
    let mut buffer = [0; MOST_WORDS];
    let spelled = &mut buffer[..bucket_row_words(layout.settings()) as usize];
    layout.write_bucket(row, spelled);
    put_row(words, layout.bucket_row_word(number, 0) as usize, spelled);
}

// Writes the directory as the first directory row.
fn put_directory(layout: &Layout, directory: &DirState, words: &mut [u64])
    requires inside { IsAddress (shape_of layout.now) (DirectoryWord 0 0) }
    requires depth { directory.now.depth ≤ (shape_of layout.now).settings.depth }
    requires entries { length directory.now.entries.items ≡ 2 ^ directory.now.depth }
    requires long { length words.old ≡ word_count (shape_of layout.now) }
    ensures words { words.new ≡ written words.old (place (shape_of layout.now) (DirectoryWord 0 0))
        (directory_words None (as_directory directory.now)) }
    ensures len { length words.new ≡ length words.old }
{
    place_laws();
    let start = layout.directory_word(0, 0) as usize;
    words[start] = directory.depth as u64;
    words[start + 1] = 0;
    put_row(words, start + DIRECTORY_HEAD_WORDS, &directory.entries);
}

/// Writes an opening into words that are all 0. It takes no memory.
pub(crate) fn put_all(layout: &Layout, made: &Opening, row: &mut BucketRow, words: &mut [u64])
    requires fit { FitIn (shape_of layout.now) (first_leaves made.now) (first_directory made.now) }
    requires row { HasBucketRoom (shape_of layout.now).settings.seats (shape_of layout.now).settings.items row.old }
    requires blank { words.old ≡ replicate (word_count (shape_of layout.now)) 0 }
    ensures words { words.new ≡ words_with (shape_of layout.now) (first_leaves made.now) (first_directory made.now) }
    ensures len { length words.new ≡ word_count (shape_of layout.now) }
    ensures row { HasBucketRoom (shape_of layout.now).settings.seats (shape_of layout.now).settings.items row.new }
{
    let leaves = made.leaves();
    for i in 0..leaves.len() {
        put_leaf(layout, row, i as u64, &leaves[i], words);
    }
    put_directory(layout, made.state(), words);
}
