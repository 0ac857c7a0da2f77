//! The columns of the tables, by bucket row or by a call's number, each in memory that was kept.
//!
//! The only error of each is want of memory.

ghost use Rattle.std.specs.Prelude.{◌≡◌, ℕ, ◌+◌, ◌<◌, [], ◌∷◌, IfOk, OnOk, Some, not, filter, flat_map, false, length, slice_index_or, true};
ghost use Rattle.plain_map.specs.declared.full.FullKind.TheVariants.{BucketRows};
ghost use Rattle.list_laws.proofs.Lists.{In};
ghost use Rattle.word_rows.specs.Shape.{count_of};
ghost use Rattle.word_rows.specs.LayoutView.{shape_of};
ghost use Rattle.table_model.specs.Order.{new_in_rows};
ghost use Rattle.plain_map.specs.Calls.{is_update};
ghost use Rattle.table_model.specs.Closing.{records_there};
ghost use Rattle.history_order.specs.Columns.{
  after_all,
  is_caller,
  is_free,
  looks_in,
  place_of,
  written,
};

use closed_words::{Starts, Words, new_number};
use plain_map::{Call, MOST_SEATS, Record};
use std::alloc::AllocError;

// So many equal entries, in the memory of a column that was.
pub(crate) fn column<T: Copy>(kept: Vec<T>, many: u64, value: T) -> Result<Vec<T>, AllocError>
    ensures len { IfOk result (λ column. length column.items ≡ many) }
    ensures reads { IfOk result (λ column. (place : ℕ) → slice_index_or column.items place value ≡ value) }
    ensures within { IfOk result (λ column. (place : ℕ) (d : T) → place < many →
        slice_index_or column.items place d ≡ value) }
{
    let mut column = kept;
    column.clear();
    column.resize(many as usize, value)?;
    Ok(column)
}

// Writes at this place, if there is one.
pub(crate) fn put<T: Copy>(column: &mut [T], at: Option<u64>, value: T)
    ensures len { length column.new ≡ length column.old }
    ensures reads { (place : ℕ) (d : T) → slice_index_or column.new place d
        ≡ written place (length column.old) at value (slice_index_or column.old place d) }
{
    let Some(at) = at else {
        return;
    };
    if (at as usize) < column.len() {
        column[at as usize] = value;
    }
}

// The place of the call with a number, which counts from 1.
pub(crate) fn place_of(number: Option<u64>) -> Option<u64>
    ensures { result ≡ place_of number }
{
    match number {
        Some(number) => number.checked_sub(1),
        None => None,
    }
}

/// The update of the seat that is new in these rows: the first of them that has one.
pub(crate) fn new_in<W: Words>(starts: &Starts, words: &W, rows: &[u64], seat: u32) -> Option<u64>
    ensures { result ≡ new_in_rows (shape_of starts.now.layout) (W.words words.now) rows.now seat }
{
    for row in rows {
        if let Some(number) = new_number(starts, words, seat, *row) {
            return Some(number);
        }
    }
    None
}

/// By seat, whether one of its updates is new in these rows.
pub(crate) fn callers_in<W: Words>(starts: &Starts, words: &W, rows: &[u64]) -> [bool; MOST_SEATS]
    ensures { (seat : ℕ) → slice_index_or result seat false
        ≡ is_caller (shape_of starts.now.layout) (W.words words.now) rows.now seat }
{
    let mut callers = [false; MOST_SEATS];
    for seat in 0..starts.layout.settings().seats {
        callers[seat as usize] = new_in(starts, words, rows, seat).is_some();
    }
    callers
}

/// By bucket row, whether it is one of these.
pub(crate) fn placed(
    kept: Vec<bool>,
    starts: &Starts,
    rows: &[u64],
) -> Result<Vec<bool>, AllocError>
    ensures rows { IfOk result (λ placed. length placed.items ≡ count_of (shape_of starts.now.layout) BucketRows) }
    ensures placed { IfOk result (λ placed. (place : ℕ) → slice_index_or placed.items place false
        ≡ after_all (λ row. Some row) (λ row. true) place
        (count_of (shape_of starts.now.layout) BucketRows) rows.now false) }
{
    let mut placed = column(kept, starts.bucket_row_count(), false)?;
    for row in rows {
        put(&mut placed, Some(*row), true);
    }
    Ok(placed)
}

/// By bucket row: its lookups among these records.
pub(crate) fn looks(
    kept: Vec<u64>,
    starts: &Starts,
    logs: &[Vec<&Record>],
) -> Result<Vec<u64>, AllocError>
    ensures rows { IfOk result (λ looks. length looks.items ≡ count_of (shape_of starts.now.layout) BucketRows) }
    ensures looks { IfOk result (λ looks. (place : ℕ) → place < count_of (shape_of starts.now.layout) BucketRows →
        slice_index_or looks.items place 0 ≡ looks_in (flat_map (λ log. records_there log.items) logs.now) place) }
{
    let mut looks = column(kept, starts.bucket_row_count(), 0)?;
    for log in logs {
        add_looks(&mut looks, log)?;
    }
    Ok(looks)
}

// With those of one seat.
fn add_looks(looks: &mut Vec<u64>, log: &[&Record]) -> Result<(), AllocError>
    ensures len { length looks.new.items ≡ length looks.old.items }
    ensures looks { OnOk result ((place : ℕ) → place < length looks.old.items →
        slice_index_or looks.new.items place 0
        ≡ slice_index_or looks.old.items place 0 + looks_in (records_there log.now) place) }
{
    for record in log {
        if is_lookup(record) && (record.place as usize) < looks.len() {
            let at = record.place as usize;
            let Some(more) = looks[at].checked_add(1) else {
                return Err(AllocError);
            };
            looks[at] = more;
        }
    }
    Ok(())
}

// Whether the call is a lookup.
pub(crate) fn is_lookup(answered: &Record) -> bool
    ensures { result ≡ not (is_update answered.now.call) }
{
    match answered.call {
        Call::Insert(_, _)
        | Call::Remove(_)
        | Call::Tally(_, _)
        | Call::Count(_, _, _)
        | Call::Put(_, _) => false,
        Call::Lookup(_) => true,
    }
}

/// Those of the rows in which no update is new, of which the column of callers tells.
pub(crate) fn free<W: Words>(
    kept: Vec<u64>,
    starts: &Starts,
    words: &W,
    callers: &[[bool; MOST_SEATS]],
    exchanged: &[u64],
) -> Result<Vec<u64>, AllocError>
    requires { (row seat : ℕ) → In row exchanged.now → row < length callers.now →
        slice_index_or (slice_index_or callers.now row []) seat false
        ≡ is_caller (shape_of starts.now.layout) (W.words words.now) (row ∷ []) seat }
    ensures { IfOk result (λ free. free.items
        ≡ filter (λ row. is_free (shape_of starts.now.layout) (W.words words.now) (row ∷ [])) exchanged.now) }
{
    let mut free = kept;
    free.clear();
    for row in exchanged {
        if is_row_free(starts, words, callers, *row) {
            free.push(*row)?;
        }
    }
    Ok(free)
}

// Whether no update is new in the row.
fn is_row_free<W: Words>(
    starts: &Starts,
    words: &W,
    callers: &[[bool; MOST_SEATS]],
    row: u64,
) -> bool
    requires { (seat : ℕ) → row < length callers.now → slice_index_or (slice_index_or callers.now row []) seat false
        ≡ is_caller (shape_of starts.now.layout) (W.words words.now) (row ∷ []) seat }
    ensures { result ≡ is_free (shape_of starts.now.layout) (W.words words.now) (row ∷ []) }
{
    if row as usize >= callers.len() {
        return is_free(starts, words, &[row]);
    }
    for seat in 0..starts.layout.settings().seats {
        if callers[row as usize][seat as usize] {
            return false;
        }
    }
    true
}

// Whether no update is new in these rows.
fn is_free<W: Words>(starts: &Starts, words: &W, rows: &[u64]) -> bool
    ensures { result ≡ is_free (shape_of starts.now.layout) (W.words words.now) rows.now }
{
    for seat in 0..starts.layout.settings().seats {
        if new_in(starts, words, rows, seat).is_some() {
            return false;
        }
    }
    true
}
