//! The columns of the exchanged bucket rows, written row by row.

ghost use Rattle.std.specs.Prelude.{◌≡◌, ◌≢◌, ℕ, ◌<◌, ◌∷◌, ◌++◌, [], IfOk, OnOk, List, false, length, map, slice_index_or};
ghost use Rattle.plain_map.specs.declared.records.Record.{Record};
ghost use Rattle.word_rows.specs.LayoutView.{shape_of};
ghost use Rattle.table_model.specs.Order.{new_number};
ghost use Rattle.table_model.specs.Closing.{read_in};
ghost use Rattle.history_order.specs.Columns.{IsUnitPut, base_in, is_caller, row_place};
ghost use Rattle.history_order.specs.Fills.{AreUnits, AreWritten};
ghost use Rattle.history_order.specs.declared.tables.Unit.TheVariants.{Row};

use crate::columns::{column, place_of, put};
use crate::tables::{Columns, Found, Unit};
use crate::unit_lists::log_of;
use closed_words::{Starts, Words, applied_at};
use plain_map::{MOST_SEATS, Record};
use std::alloc::{AllocError, Global};

impl Columns {
    /// With no row, in the memory of those that were. The only error is want of memory.
    pub(crate) fn new(
        alloc: Global,
        kept: Found,
        starts: &Starts,
        logs: &[Vec<&Record>],
    ) -> Result<Columns, AllocError>
        ensures rows { IfOk result (λ columns. columns.rows.items ≡ []) }
        ensures columns { (words : List ℕ) → IfOk result (AreWritten (shape_of starts.now.layout) words
            (read_in logs.now)) }
    {
        let many = starts.bucket_row_count();
        let bases = column(kept.bases, many, None)?;
        let next = column(kept.next, many, None)?;
        let callers = column(kept.callers, many, [false; MOST_SEATS])?;
        let units = lists(alloc, kept.units, starts, logs)?;
        Ok(Columns {
            rows: Vec::new(alloc),
            bases,
            next,
            callers,
            units,
        })
    }

    /// Writes a row that was made from this base. The only error is want of memory.
    #[inline(always)]
    pub(crate) fn write<W: Words>(
        &mut self,
        starts: &Starts,
        words: &W,
        row: u64,
        base: Option<u64>,
    ) -> Result<(), AllocError>
        requires { base ≡ base_in (shape_of starts.now.layout) (W.words words.now) row }
        ensures rows { OnOk result (self.new.rows.items ≡ self.old.rows.items ++ row ∷ []) }
        ensures columns { (logs : List (List Record)) →
            AreWritten (shape_of starts.now.layout) (W.words words.now) logs self.old →
            OnOk result (AreWritten (shape_of starts.now.layout) (W.words words.now) logs self.new) }
    {
        self.rows.push(row)?;
        let callers = write_units(starts, words, row, base, &mut self.units);
        put(&mut self.callers, Some(row), callers);
        put(&mut self.next, base, Some(row));
        put(&mut self.bases, Some(row), base);
        Ok(())
    }
}

// The units by seat and number, none yet.
fn lists(
    alloc: Global,
    mut kept: Vec<Vec<Option<Unit>>>,
    starts: &Starts,
    logs: &[Vec<&Record>],
) -> Result<Vec<Vec<Option<Unit>>>, AllocError>
    ensures { (words : List ℕ) → IfOk result (λ lists. AreUnits (shape_of starts.now.layout) words
        (read_in logs.now) [] (map (λ list. list.items) lists.items)) }
{
    let mut lists = Vec::new(alloc);
    for seat in 0..starts.layout.settings().seats {
        let room = take_room(alloc, &mut kept);
        lists.push(column(room, log_of(logs, seat).len() as u64 + 1, None)?)?;
    }
    Ok(lists)
}

// Takes the last out, if there is one.
fn take_room(alloc: Global, kept: &mut Vec<Vec<Option<Unit>>>) -> Vec<Option<Unit>> {
    match kept.pop() {
        Some(room) => room,
        None => Vec::new(alloc),
    }
}

// Writes the units of a row that was made from this base. By seat, whether the seat's update is new in it.
#[inline(always)]
fn write_units<W: Words>(
    starts: &Starts,
    words: &W,
    row: u64,
    base: Option<u64>,
    units: &mut [Vec<Option<Unit>>],
) -> [bool; MOST_SEATS]
    requires { base ≡ base_in (shape_of starts.now.layout) (W.words words.now) row }
    ensures callers { (seat : ℕ) → slice_index_or result seat false
        ≡ is_caller (shape_of starts.now.layout) (W.words words.now) (row ∷ []) seat }
    ensures many { length units.new ≡ length units.old }
    ensures units { (seat : ℕ) → seat < (shape_of starts.now.layout).settings.seats →
        IsUnitPut (row_place (shape_of starts.now.layout) (W.words words.now) seat row) (Row row)
        (slice_index_or (map (λ list. list.items) units.old) seat [])
        (slice_index_or (map (λ list. list.items) units.new) seat []) }
{
    let mut callers = [false; MOST_SEATS];
    for seat in 0..starts.layout.settings().seats {
        let number = new_beside(starts, words, row, base, seat);
        callers[seat as usize] = number.is_some();
        put_unit(units, seat as usize, place_of(number), Unit::Row(row));
    }
    callers
}

// The update of the seat that is new in a row that was made from this base.
#[inline(always)]
fn new_beside<W: Words>(
    starts: &Starts,
    words: &W,
    row: u64,
    base: Option<u64>,
    seat: u32,
) -> Option<u64>
    requires { base ≡ base_in (shape_of starts.now.layout) (W.words words.now) row }
    ensures { result ≡ new_number (shape_of starts.now.layout) (W.words words.now) seat row }
{
    let base = base?;
    let number = applied_at(starts, words, row, seat);
    if applied_at(starts, words, base, seat) < number {
        Some(number)
    } else {
        None
    }
}

// Writes the unit of the seat's call at this place, if there is one.
#[inline(always)]
fn put_unit(units: &mut [Vec<Option<Unit>>], seat: usize, place: Option<u64>, unit: Unit)
    ensures many { length units.new ≡ length units.old }
    ensures others { (other : ℕ) → other ≢ seat → slice_index_or (map (λ list. list.items) units.new) other []
        ≡ slice_index_or (map (λ list. list.items) units.old) other [] }
    ensures put { IsUnitPut place unit (slice_index_or (map (λ list. list.items) units.old) seat [])
        (slice_index_or (map (λ list. list.items) units.new) seat []) }
{
    if seat >= units.len() {
        return;
    }
    put(&mut units[seat], place, Some(unit));
}
