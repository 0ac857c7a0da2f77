//! The tables, from the words, in the memory of those that were.
//!
//! The only error of each is want of memory.

ghost use Rattle.std.specs.Prelude.{◌≡◌, [], IfOk, List, map, reverse, slice_get};
ghost use Rattle.std.specs.Option.{option_map_or};
ghost use Rattle.plain_map.specs.declared.records.Pending.{Pending};
ghost use Rattle.word_rows.specs.LayoutView.{shape_of};
ghost use Rattle.table_model.specs.Reading.{directory_rows};
ghost use Rattle.table_model.specs.Closing.{read_in};
ghost use Rattle.history_order.specs.Filling.{leaves_from};
ghost use Rattle.history_order.specs.Fills.{IsBegun, IsFound, exchanged_rows};
ghost use Rattle.history_order.specs.Tables.{HasBases};
ghost use Rattle.history_order.specs.Told.{AsTold};
ghost use Rattle.history_order.specs.Filled.{Begun, Filled};

use crate::columns::{free, looks, placed};
use crate::leaves::leaves;
use crate::tables::{Columns, Found, Progress, Tables, Version};
use crate::unit_lists::units;
use crate::versions::versions;
use closed_words::{Starts, Words, directory_rows};
use plain_map::Record;
use std::alloc::{AllocError, Global};

/// The tables, with these records of each seat.
pub(crate) fn fill<W: Words>(
    alloc: Global,
    kept: Tables,
    starts: &Starts,
    words: &W,
    logs: &[Vec<&Record>],
) -> Result<Tables, AllocError>
    ensures found { IfOk result (λ tables. (begun : List Pending) → AsTold (shape_of starts.now.layout)
        (W.words words.now) (read_in logs.now) begun
        (λ told. Filled (W.words words.now) (read_in logs.now) begun told tables.found)) }
    ensures bases { IfOk result (λ tables. HasBases (shape_of starts.now.layout) (W.words words.now) tables.found) }
    ensures begun { IfOk result (λ tables. (begun : List Pending) → AsTold (shape_of starts.now.layout)
        (W.words words.now) (read_in logs.now) begun
        (λ told. Begun (W.words words.now) (read_in logs.now) begun told tables.progress)) }
{
    let mut rows = directory_rows(alloc, starts, words)?;
    rows.reverse();
    let leaves = leaves(alloc, starts, words, &rows)?;
    let (found, exchanged) = find(alloc, kept.found, starts, words, logs, &rows, &leaves)?;
    let progress = begin(
        alloc,
        kept.progress,
        starts,
        words,
        logs,
        &found,
        &exchanged,
    )?;
    Ok(Tables { found, progress })
}

// What the words tell, with these directory rows from the opening on and their buckets, and the exchanged rows.
fn find<W: Words>(
    alloc: Global,
    kept: Found,
    starts: &Starts,
    words: &W,
    logs: &[Vec<&Record>],
    rows: &[u64],
    leaves: &[Vec<u64>],
) -> Result<(Found, Vec<u64>), AllocError>
    requires rows { rows.now ≡ reverse (directory_rows (shape_of starts.now.layout) (W.words words.now)) }
    requires leaves { map (λ buckets. buckets.items) leaves.now
        ≡ leaves_from (shape_of starts.now.layout) (W.words words.now) [] rows.now }
    ensures found { IfOk result (λ both. IsFound (shape_of starts.now.layout) (W.words words.now) (read_in logs.now)
        both.0) }
    ensures exchanged { IfOk result (λ both. both.1.items ≡ exchanged_rows (shape_of starts.now.layout)
        (W.words words.now) (read_in logs.now)) }
{
    let mut columns = Columns::new(alloc, kept, starts, logs)?;
    let versions = versions(alloc, starts, words, rows, leaves, &mut columns)?;
    units(starts, words, &versions, logs, &mut columns.units);
    let found = Found {
        bases: columns.bases,
        next: columns.next,
        callers: columns.callers,
        units: columns.units,
        versions,
    };
    Ok((found, columns.rows))
}

// How the turns begin: the opening's rows are placed, and no call is.
fn begin<W: Words>(
    alloc: Global,
    kept: Progress,
    starts: &Starts,
    words: &W,
    logs: &[Vec<&Record>],
    found: &Found,
    exchanged: &[u64],
) -> Result<Progress, AllocError>
    requires found { IsFound (shape_of starts.now.layout) (W.words words.now) (read_in logs.now) found.now }
    requires exchanged { exchanged.now ≡ exchanged_rows (shape_of starts.now.layout) (W.words words.now)
        (read_in logs.now) }
    ensures { IfOk result (IsBegun (shape_of starts.now.layout) (W.words words.now) (read_in logs.now)) }
{
    let placed = placed(kept.placed, starts, opening(&found.versions))?;
    let looks = looks(kept.looks, starts, logs)?;
    let aside = free(kept.aside, starts, words, &found.callers, exchanged)?;
    Ok(Progress {
        placed,
        looks,
        latest: 1,
        aside,
    })
}

// The first rows of the opening.
fn opening(versions: &[Version]) -> &[u64]
    ensures { result.now ≡ option_map_or (λ version. version.firsts.items) (slice_get versions.now 0) [] }
{
    match versions.first() {
        Some(version) => &version.firsts,
        None => &[],
    }
}
