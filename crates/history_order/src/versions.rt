//! The versions, and what is written with the rows of their buckets.
//!
//! The only error of each is want of memory.

ghost use Rattle.std.specs.Prelude.{◌≡◌, ℕ, ◌++◌, [], IfOk, OnOk, List, Some, flat_map, length, map, option_to_list, slice_get, slice_index_or};
ghost use Rattle.plain_map.specs.declared.records.Record.{Record};
ghost use Rattle.word_rows.specs.LayoutView.{shape_of};
ghost use Rattle.table_model.specs.Reading.{first_row};
ghost use Rattle.history_order.specs.Columns.{IsMade};
ghost use Rattle.history_order.specs.Filling.{exchanged_in, exchanged_of, firsts_in};
ghost use Rattle.history_order.specs.Fills.{AreWritten};

use crate::columns::callers_in;
use crate::leaves::bases;
use crate::tables::{Columns, Version};
use closed_words::{Starts, Words, is_exchanged, row_base, row_of};
use std::alloc::{AllocError, Global};

/// The versions: these directory rows, each with the buckets that it named first. The rows of these buckets that were
/// published by an exchange of a bucket word are written.
pub(crate) fn versions<W: Words>(
    alloc: Global,
    starts: &Starts,
    words: &W,
    rows: &[u64],
    leaves: &[Vec<u64>],
    columns: &mut Columns,
) -> Result<Vec<Version>, AllocError>
    requires { length leaves.now ≡ length rows.now }
    ensures many { IfOk result (λ versions. length versions.items ≡ length rows.now) }
    ensures made { IfOk result (λ versions. (at : ℕ) (version : Version) → slice_get versions.items at ≡ Some version →
        IsMade (shape_of starts.now.layout) (W.words words.now) (slice_index_or rows.now at 0)
        (slice_index_or (map (λ buckets. buckets.items) leaves.now) at []) version) }
    ensures rows { OnOk result (columns.new.rows.items ≡ columns.old.rows.items
        ++ exchanged_in (shape_of starts.now.layout) (W.words words.now) (map (λ buckets. buckets.items) leaves.now)) }
    ensures columns { (logs : List (List Record)) →
        AreWritten (shape_of starts.now.layout) (W.words words.now) logs columns.old →
        OnOk result (AreWritten (shape_of starts.now.layout) (W.words words.now) logs columns.new) }
{
    let mut versions = Vec::new(alloc);
    for at in 0..rows.len() {
        let firsts = write_buckets(alloc, starts, words, &leaves[at], columns)?;
        versions.push(version(alloc, starts, words, rows[at], firsts)?)?;
    }
    Ok(versions)
}

// One of them, with the first rows of its new leaves.
fn version<W: Words>(
    alloc: Global,
    starts: &Starts,
    words: &W,
    row: u64,
    firsts: Vec<u64>,
) -> Result<Version, AllocError>
    ensures { (buckets : List ℕ) → firsts.items ≡ firsts_in (shape_of starts.now.layout) (W.words words.now) buckets →
        IfOk result (IsMade (shape_of starts.now.layout) (W.words words.now) row buckets) }
{
    let bases = bases(alloc, starts, words, &firsts)?;
    Ok(Version {
        row,
        callers: callers_in(starts, words, &firsts),
        firsts,
        bases,
    })
}

// Writes those of these buckets. The first rows of the buckets.
fn write_buckets<W: Words>(
    alloc: Global,
    starts: &Starts,
    words: &W,
    buckets: &[u64],
    columns: &mut Columns,
) -> Result<Vec<u64>, AllocError>
    ensures firsts { IfOk result (λ firsts. firsts.items
        ≡ firsts_in (shape_of starts.now.layout) (W.words words.now) buckets.now) }
    ensures rows { OnOk result (columns.new.rows.items ≡ columns.old.rows.items
        ++ flat_map (exchanged_of (shape_of starts.now.layout) (W.words words.now)) buckets.now) }
    ensures columns { (logs : List (List Record)) →
        AreWritten (shape_of starts.now.layout) (W.words words.now) logs columns.old →
        OnOk result (AreWritten (shape_of starts.now.layout) (W.words words.now) logs columns.new) }
{
    let mut firsts = Vec::new(alloc);
    for bucket in buckets {
        let first = write_bucket(starts, words, *bucket, columns)?;
        push_some(&mut firsts, first)?;
    }
    Ok(firsts)
}

// The list with the number, if there is one.
fn push_some(list: &mut Vec<u64>, number: Option<u64>) -> Result<(), AllocError>
    ensures { OnOk result (list.new.items ≡ list.old.items ++ option_to_list number) }
{
    match number {
        Some(number) => list.push(number)?,
        None => {}
    }
    Ok(())
}

// Writes those of a bucket, from its row in use back to its first row, which it returns.
fn write_bucket<W: Words>(
    starts: &Starts,
    words: &W,
    bucket: u64,
    columns: &mut Columns,
) -> Result<Option<u64>, AllocError>
    ensures first { IfOk result (λ first. first ≡ first_row (shape_of starts.now.layout) (W.words words.now) bucket) }
    ensures rows { OnOk result (columns.new.rows.items ≡ columns.old.rows.items
        ++ exchanged_of (shape_of starts.now.layout) (W.words words.now) bucket) }
    ensures columns { (logs : List (List Record)) →
        AreWritten (shape_of starts.now.layout) (W.words words.now) logs columns.old →
        OnOk result (AreWritten (shape_of starts.now.layout) (W.words words.now) logs columns.new) }
{
    let mut next = Some(row_of(starts, words, bucket));
    for _ in 0..starts.bucket_row_count() {
        let Some(row) = next else {
            return Ok(None);
        };
        let base = row_base(starts, words, row);
        if !is_exchanged(starts, words, row) {
            return Ok(Some(row));
        }
        columns.write(starts, words, row, base)?;
        next = base;
    }
    Ok(None)
}
