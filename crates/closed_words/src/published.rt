//! The rows that were ever published.
//!
//! The only error of each is want of memory.

ghost use Rattle.std.specs.Prelude.{◌≡◌, IfOk, Some};
ghost use Rattle.word_rows.specs.LayoutView.{shape_of};
ghost use Rattle.table_model.specs.Reading.{
  bucket_line,
  bucket_rows,
  directory_at,
  directory_line,
  directory_rows,
  leaves_beside,
  leaves_new_in,
  named_buckets,
};

use crate::lists::{each_once, without};
use crate::{Starts, Words, directory_base, entry, entry_count, root_of, row_base, row_of};
use std::alloc::{AllocError, Global};

/// A bucket row and all that it comes from, the latest first.
pub fn bucket_line<W: Words>(
    alloc: Global,
    starts: &Starts,
    words: &W,
    row: Option<u64>,
) -> Result<Vec<u64>, AllocError>
    ensures { IfOk result (λ line. line.items ≡ bucket_line (shape_of starts.now.layout) (W.words words.now) row) }
{
    let mut line = Vec::new(alloc);
    let mut next = row;
    for _ in 0..starts.bucket_row_count() {
        let Some(row) = next else {
            return Ok(line);
        };
        line.push(row)?;
        next = row_base(starts, words, row);
    }
    Ok(line)
}

/// A directory row and all that it comes from, the latest first.
pub fn directory_line<W: Words>(
    alloc: Global,
    starts: &Starts,
    words: &W,
    row: Option<u64>,
) -> Result<Vec<u64>, AllocError>
    ensures { IfOk result (λ line. line.items ≡ directory_line (shape_of starts.now.layout) (W.words words.now) row) }
{
    let mut line = Vec::new(alloc);
    let mut next = row;
    for _ in 0..starts.directory_row_count() {
        let Some(row) = next else {
            return Ok(line);
        };
        line.push(row)?;
        next = directory_base(starts, words, row);
    }
    Ok(line)
}

/// The published directory rows: the root's row and all that it comes from, the latest first.
pub fn directory_rows<W: Words>(
    alloc: Global,
    starts: &Starts,
    words: &W,
) -> Result<Vec<u64>, AllocError>
    ensures { IfOk result (λ rows. rows.items ≡ directory_rows (shape_of starts.now.layout) (W.words words.now)) }
{
    directory_line(alloc, starts, words, Some(root_of(starts, words)))
}

/// The entries of a directory row.
pub fn entries<W: Words>(
    alloc: Global,
    starts: &Starts,
    words: &W,
    row: u64,
) -> Result<Vec<u64>, AllocError>
    ensures { IfOk result (λ all. all.items ≡ (directory_at (shape_of starts.now.layout)
        (W.words words.now) row).entries) }
{
    let mut all = Vec::new(alloc);
    for i in 0..entry_count(starts, words, row) {
        all.push(entry(starts, words, row, i))?;
    }
    Ok(all)
}

/// The buckets that a published directory row names.
pub fn named_buckets<W: Words>(
    alloc: Global,
    starts: &Starts,
    words: &W,
) -> Result<Vec<u64>, AllocError>
    ensures { IfOk result (λ buckets. buckets.items ≡ named_buckets (shape_of starts.now.layout) (W.words words.now)) }
{
    let rows = directory_rows(alloc, starts, words)?;
    let mut named = Vec::new(alloc);
    for row in &rows {
        let all = entries(alloc, starts, words, *row)?;
        named.extend_from_slice(&all)?;
    }
    each_once(alloc, &named)
}

/// The published bucket rows: of each of these buckets the row in use and all that it comes from.
pub fn bucket_rows<W: Words>(
    alloc: Global,
    starts: &Starts,
    words: &W,
) -> Result<Vec<u64>, AllocError>
    ensures { IfOk result (λ rows. rows.items ≡ bucket_rows (shape_of starts.now.layout) (W.words words.now)) }
{
    let buckets = named_buckets(alloc, starts, words)?;
    let mut rows = Vec::new(alloc);
    for bucket in &buckets {
        let line = bucket_line(alloc, starts, words, Some(row_of(starts, words, *bucket)))?;
        rows.extend_from_slice(&line)?;
    }
    each_once(alloc, &rows)
}

/// The new leaves of a directory row: the buckets that it names and that the row that it was made from does not name.
pub fn leaves_new_in<W: Words>(
    alloc: Global,
    starts: &Starts,
    words: &W,
    row: u64,
) -> Result<Vec<u64>, AllocError>
    ensures { IfOk result (λ leaves. leaves.items ≡ leaves_new_in (shape_of starts.now.layout)
        (W.words words.now) row) }
{
    match directory_base(starts, words, row) {
        Some(base) => leaves_beside(alloc, starts, words, row, base),
        None => Ok(Vec::new(alloc)),
    }
}

// The buckets that a directory row names and that this other row does not name.
fn leaves_beside<W: Words>(
    alloc: Global,
    starts: &Starts,
    words: &W,
    row: u64,
    base: u64,
) -> Result<Vec<u64>, AllocError>
    ensures { IfOk result (λ leaves. leaves.items
        ≡ leaves_beside (shape_of starts.now.layout) (W.words words.now) row (Some base)) }
{
    let here = entries(alloc, starts, words, row)?;
    let there = entries(alloc, starts, words, base)?;
    let named = each_once(alloc, &here)?;
    without(alloc, &named, &there)
}
