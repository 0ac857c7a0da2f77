//! The rows of a table by its directory rows: each bucket stands where it was named first.
//!
//! The only error of each is want of memory.

ghost use Rattle.std.specs.Prelude.{◌≡◌, ℕ, ◌++◌, [], IfOk, OnOk, List, map};
ghost use Rattle.word_rows.specs.LayoutView.{shape_of};
ghost use Rattle.closed_words.specs.Marks.{AreMet};
ghost use Rattle.history_order.specs.Filling.{bases_in, entries_of, leaves_from, new_beside};

use closed_words::{Starts, Words, entry, entry_count, meet, row_base, was_met};
use std::alloc::{AllocError, Global};

/// For each of the directory rows the buckets that it names and no row before it, in the order of the last places.
pub(crate) fn leaves<W: Words>(
    alloc: Global,
    starts: &Starts,
    words: &W,
    rows: &[u64],
) -> Result<Vec<Vec<u64>>, AllocError>
    ensures { IfOk result (λ leaves. map (λ buckets. buckets.items) leaves.items
        ≡ leaves_from (shape_of starts.now.layout) (W.words words.now) [] rows.now) }
{
    let mut met = Vec::new(alloc);
    let mut leaves = Vec::new(alloc);
    for row in rows {
        leaves.push(new_leaves(alloc, starts, words, *row, &mut met)?)?;
    }
    Ok(leaves)
}

// The buckets of a directory row that are not met yet. They are met then.
fn new_leaves<W: Words>(
    alloc: Global,
    starts: &Starts,
    words: &W,
    row: u64,
    met: &mut Vec<bool>,
) -> Result<Vec<u64>, AllocError>
    ensures leaves { (known : List ℕ) → AreMet met.old.items known → IfOk result (λ leaves. leaves.items
        ≡ new_beside (shape_of starts.now.layout) (W.words words.now) known row) }
    ensures met { (known : List ℕ) → AreMet met.old.items known → OnOk result (AreMet met.new.items
        (known ++ entries_of (shape_of starts.now.layout) (W.words words.now) row)) }
{
    let count = entry_count(starts, words, row);
    let mut leaves = Vec::new(alloc);
    for i in 0..count {
        let bucket = entry(starts, words, row, count - 1 - i);
        if !was_met(met, bucket) {
            meet(met, bucket)?;
            leaves.push(bucket)?;
        }
    }
    leaves.reverse();
    Ok(leaves)
}

/// The rows that the rows were made from.
pub(crate) fn bases<W: Words>(
    alloc: Global,
    starts: &Starts,
    words: &W,
    rows: &[u64],
) -> Result<Vec<u64>, AllocError>
    ensures { IfOk result (λ bases. bases.items ≡ bases_in (shape_of starts.now.layout) (W.words words.now) rows.now) }
{
    let mut bases = Vec::new(alloc);
    for row in rows {
        if let Some(base) = row_base(starts, words, *row) {
            bases.push(base)?;
        }
    }
    Ok(bases)
}
