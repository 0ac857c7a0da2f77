//! What a closed table holds: its leaves and its pairs.
//!
//! The only error of each is want of memory.

ghost use Rattle.std.specs.Prelude.{◌≡◌, ◌<◌, ◌++◌, IfOk, OnOk, map, slice_index};
ghost use Rattle.step_counts.specs.declared.TheConstants.{ITEM_WORDS};
ghost use Rattle.word_rows.specs.Blocks.{block};
ghost use Rattle.word_rows.specs.BucketWords.{item_part};
ghost use Rattle.word_rows.specs.KeyWords.{pair_of_words};
ghost use Rattle.word_rows.specs.LayoutView.{shape_of};
ghost use Rattle.table_model.specs.Reading.{bucket_at, bucket_spelling};
ghost use Rattle.table_model.specs.Closed.{closed_buckets, closed_leaves, closed_pairs, leaf_at};
ghost use Rattle.closed_words.specs.Views.{as_leaf};

use crate::lists::each_once_first;
use crate::rows::row_word;
use crate::{ClosedLeaf, Starts, Words, entries, root_of, row_depth, row_of, row_prefix};
use plain_map::{Key, Pair};
use std::alloc::{AllocError, Global};
use step_counts::{BUCKET_HEAD_WORDS, COUNT_PLACE, ITEM_WORDS};

/// The buckets that the directory in use names, in the order of its places.
pub fn closed_buckets<W: Words>(
    alloc: Global,
    starts: &Starts,
    words: &W,
) -> Result<Vec<u64>, AllocError>
    ensures { IfOk result (λ buckets. buckets.items ≡ closed_buckets (shape_of starts.now.layout) (W.words words.now)) }
{
    let named = entries(alloc, starts, words, root_of(starts, words))?;
    each_once_first(alloc, &named)
}

/// The leaves, in the order of the directory's places.
pub fn closed_leaves<W: Words>(
    alloc: Global,
    starts: &Starts,
    words: &W,
) -> Result<Vec<ClosedLeaf>, AllocError>
    ensures { IfOk result (λ leaves. map as_leaf leaves.items ≡ closed_leaves (shape_of starts.now.layout)
        (W.words words.now)) }
{
    let buckets = closed_buckets(alloc, starts, words)?;
    let mut leaves = Vec::new(alloc);
    for bucket in &buckets {
        leaves.push(leaf_at(starts, words, *bucket))?;
    }
    Ok(leaves)
}

// What the row in use of a bucket says of its place.
fn leaf_at<W: Words>(starts: &Starts, words: &W, bucket: u64) -> ClosedLeaf
    ensures { as_leaf result ≡ leaf_at (shape_of starts.now.layout) (W.words words.now) bucket }
{
    let row = row_of(starts, words, bucket);
    ClosedLeaf {
        prefix: row_prefix(starts, words, row),
        depth: row_depth(starts, words, row),
    }
}

/// The pairs, bucket by bucket, in the order of the leaves.
pub fn closed_pairs<W: Words>(
    alloc: Global,
    starts: &Starts,
    words: &W,
) -> Result<Vec<Pair>, AllocError>
    ensures { IfOk result (λ pairs. pairs.items ≡ closed_pairs (shape_of starts.now.layout) (W.words words.now)) }
{
    let buckets = closed_buckets(alloc, starts, words)?;
    let mut pairs = Vec::new(alloc);
    for bucket in &buckets {
        push_items(starts, words, row_of(starts, words, *bucket), &mut pairs)?;
    }
    Ok(pairs)
}

// Appends the items of a bucket row, so many as its count says. Behind the room for items they are zeros.
fn push_items<W: Words>(
    starts: &Starts,
    words: &W,
    row: u64,
    pairs: &mut Vec<Pair>,
) -> Result<(), AllocError>
    ensures { OnOk result (pairs.new.items ≡ pairs.old.items ++ (bucket_at (shape_of starts.now.layout)
        (W.words words.now) row).items) }
{
    for i in 0..row_word(starts, words, row, COUNT_PLACE as u64) {
        pairs.push(item_at(starts, words, row, i))?;
    }
    Ok(())
}

// The item at the i-th place.
fn item_at<W: Words>(starts: &Starts, words: &W, row: u64, i: u64) -> Pair
    ensures { result ≡ pair_of_words (block ITEM_WORDS i (item_part (shape_of starts.now.layout).settings
        (bucket_spelling (shape_of starts.now.layout) (W.words words.now) row))) }
{
    Pair {
        key: Key {
            k0: item_word(starts, words, row, i, 0),
            k1: item_word(starts, words, row, i, 1),
            k2: item_word(starts, words, row, i, 2),
            k3: item_word(starts, words, row, i, 3),
            k4: item_word(starts, words, row, i, 4),
        },
        value: item_word(starts, words, row, i, 5),
        bytes: item_word(starts, words, row, i, 6),
    }
}

// A word of the i-th place for an item.
fn item_word<W: Words>(starts: &Starts, words: &W, row: u64, i: u64, j: u64) -> u64
    requires { j < ITEM_WORDS }
    ensures { result ≡ slice_index (block ITEM_WORDS i (item_part (shape_of starts.now.layout).settings
        (bucket_spelling (shape_of starts.now.layout) (W.words words.now) row))) j }
{
    if i >= u64::from(starts.layout.settings().items) {
        return 0;
    }
    row_word(
        starts,
        words,
        row,
        BUCKET_HEAD_WORDS as u64 + (i * ITEM_WORDS as u64 + j),
    )
}
