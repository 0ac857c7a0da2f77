//! Which units may be placed.

ghost use Rattle.std.specs.Prelude.{◌≡◌, ℕ, ◌<◌, ◌==◌, None, true, false, slice_index_or};
ghost use Rattle.std.specs.List.{list_all};
ghost use Rattle.std.specs.Option.{option_map_or};
ghost use Rattle.table_model.specs.Closing.{read_in};
ghost use Rattle.history_order.specs.Calls.{call_at, seen_in};
ghost use Rattle.word_rows.specs.LayoutView.{shape_of};
ghost use Rattle.plain_map.specs.declared.records.TheConstants.{MOST_SEATS};
ghost use Rattle.table_model.specs.Reading.{bucket_row};
ghost use Rattle.history_order.specs.Tables.{
  HasBases,
  are_next_in,
  has_base_in,
  has_call_in,
  has_come,
  has_marked_base,
  is_due,
  is_free,
  is_marked,
  is_marked_done,
  is_next_in,
  is_none_or_next,
  is_ready_in,
  is_unit,
  is_version_due,
  unit_in,
};

use crate::calls::{Closed, place_at, seen_at};
use crate::tables::{Found, Progress, Unit};
use closed_words::{Words, row_base};
use plain_map::{MOST_SEATS, Seen};

// Whether the two are one unit.
#[inline(always)]
fn is_unit(a: Unit, b: Unit) -> bool
    ensures { result ≡ is_unit a b }
{
    match (a, b) {
        (Unit::Lookup, Unit::Lookup) => true,
        (Unit::Row(a), Unit::Row(b)) => a == b,
        (Unit::Version(a), Unit::Version(b)) => a == b,
        _ => false,
    }
}

/// The unit of the seat's call at this place.
#[inline(always)]
pub(crate) fn unit_in(found: &Found, seat: usize, at: usize) -> Option<Unit>
    ensures { result ≡ unit_in found.now seat at }
{
    if seat < found.units.len() && at < found.units[seat].len() {
        found.units[seat][at]
    } else {
        None
    }
}

/// By seat, whether the unit of this seat's next call has a call of it.
#[inline(always)]
pub(crate) fn callers_of(found: &Found, unit: Unit, seat: usize) -> [bool; MOST_SEATS]
    ensures { (other : ℕ) → other < MOST_SEATS →
        slice_index_or result other false ≡ has_call_in found.now unit seat other }
{
    match unit {
        Unit::Lookup => only(seat),
        Unit::Row(row) => match found.callers.get(row as usize) {
            Some(callers) => *callers,
            None => [false; MOST_SEATS],
        },
        Unit::Version(d) => match found.versions.get(d) {
            Some(version) => version.callers,
            None => [false; MOST_SEATS],
        },
    }
}

// This seat alone.
#[inline(always)]
fn only(seat: usize) -> [bool; MOST_SEATS]
    ensures { (other : ℕ) → other < MOST_SEATS → slice_index_or result other false ≡ (seat == other) }
{
    let mut callers = [false; MOST_SEATS];
    if seat < MOST_SEATS {
        callers[seat] = true;
    }
    callers
}

/// Whether all calls of the unit are of this seat, whose next one is among them.
#[inline(always)]
pub(crate) fn is_alone(found: &Found, unit: Unit, seat: usize) -> bool
    ensures { result ≡ true → (other : ℕ) → other < MOST_SEATS →
        has_call_in found.now unit seat other ≡ (seat == other) }
{
    match unit {
        Unit::Lookup => true,
        _ => are_only(&callers_of(found, unit, seat), seat),
    }
}

// Whether this seat is set, and no other.
#[inline(always)]
fn are_only(callers: &[bool; MOST_SEATS], seat: usize) -> bool
    ensures { result ≡ true → (other : ℕ) → other < MOST_SEATS →
        slice_index_or callers.now other false ≡ (seat == other) }
{
    *callers == only(seat)
}

/// Whether the unit has no calls.
#[inline(always)]
pub(crate) fn is_free(found: &Found, unit: Unit) -> bool
    ensures { result ≡ is_free found.now unit }
{
    let callers = callers_of(found, unit, 0);
    for seat in 0..MOST_SEATS {
        if callers[seat] {
            return false;
        }
    }
    true
}

// Whether the bucket row is placed.
#[inline(always)]
fn is_marked(placed: &[bool], row: u64) -> bool
    ensures { result ≡ is_marked placed.now row }
{
    (row as usize) < placed.len() && placed[row as usize]
}

/// Whether the bucket row and all its lookups are placed.
#[inline(always)]
pub(crate) fn is_marked_done(placed: &[bool], looks: &[u64], row: u64) -> bool
    ensures { result ≡ is_marked_done placed.now looks.now row }
{
    is_marked(placed, row) && ((row as usize) >= looks.len() || looks[row as usize] == 0)
}

// Whether all these rows and all their lookups are placed.
fn are_marked_done(placed: &[bool], looks: &[u64], rows: &[u64]) -> bool
    ensures { result ≡ list_all (is_marked_done placed.now looks.now) rows.now }
{
    for row in rows {
        if !is_marked_done(placed, looks, *row) {
            return false;
        }
    }
    true
}

// What the column of bases says of a row.
#[inline(always)]
fn known_base(bases: &[Option<u64>], row: u64) -> Option<u64>
    ensures { result ≡ slice_index_or bases.now row None }
{
    if (row as usize) < bases.len() {
        bases[row as usize]
    } else {
        None
    }
}

// The row that a bucket row was made from. The words lie far apart, so they are asked only where the column is silent.
#[inline(always)]
fn base_of<W: Words>(closed: &Closed<W>, found: &Found, row: u64) -> Option<u64>
    requires { HasBases (shape_of closed.now.starts.now.layout) (W.words closed.now.words.now) found.now }
    ensures { result ≡ (bucket_row (shape_of closed.now.starts.now.layout) (W.words closed.now.words.now) row).base }
{
    match known_base(&found.bases, row) {
        Some(base) => Some(base),
        None => row_base(closed.starts, closed.words, row),
    }
}

// Whether what the unit was made from is placed.
#[inline(always)]
fn has_marked_base<W: Words>(
    closed: &Closed<W>,
    found: &Found,
    progress: &Progress,
    unit: Unit,
) -> bool
    requires { HasBases (shape_of closed.now.starts.now.layout) (W.words closed.now.words.now) found.now }
    ensures { result ≡ has_marked_base (shape_of closed.now.starts.now.layout) (W.words closed.now.words.now)
        found.now progress.now unit }
{
    match unit {
        Unit::Lookup => false,
        Unit::Row(row) => match base_of(closed, found, row) {
            Some(base) => is_marked_done(&progress.placed, &progress.looks, base),
            None => true,
        },
        Unit::Version(d) => {
            d == progress.latest
                && d < found.versions.len()
                && are_marked_done(&progress.placed, &progress.looks, &found.versions[d].bases)
        }
    }
}

/// Whether the bucket row is not placed, and what it was made from is.
#[inline(always)]
pub(crate) fn is_due<W: Words>(
    closed: &Closed<W>,
    found: &Found,
    progress: &Progress,
    row: u64,
) -> bool
    requires { HasBases (shape_of closed.now.starts.now.layout) (W.words closed.now.words.now) found.now }
    ensures { result ≡ is_due (shape_of closed.now.starts.now.layout) (W.words closed.now.words.now)
        found.now progress.now row }
{
    !is_marked(&progress.placed, row) && has_marked_base(closed, found, progress, Unit::Row(row))
}

/// Whether the next version has no calls, and what it was made from is placed.
#[inline(always)]
pub(crate) fn is_version_due<W: Words>(
    closed: &Closed<W>,
    found: &Found,
    progress: &Progress,
) -> bool
    requires { HasBases (shape_of closed.now.starts.now.layout) (W.words closed.now.words.now) found.now }
    ensures { result ≡ is_version_due (shape_of closed.now.starts.now.layout) (W.words closed.now.words.now)
        found.now progress.now }
{
    let unit = Unit::Version(progress.latest);
    has_marked_base(closed, found, progress, unit) && is_free(found, unit)
}

// Whether all calls that were seen are placed.
#[inline(always)]
fn has_come(count: &[u32; MOST_SEATS], seen: &Seen) -> bool
    ensures { result ≡ has_come count.now seen.now.counts }
{
    for seat in 0..MOST_SEATS {
        if seen.counts[seat] > count[seat] {
            return false;
        }
    }
    true
}

// Whether the seat's call at this place is one of the unit.
#[inline(always)]
fn is_of_unit(found: &Found, unit: Unit, seat: usize, at: usize) -> bool
    ensures { result ≡ option_map_or (is_unit unit) (unit_in found.now seat at) false }
{
    match unit_in(found, seat, at) {
        Some(other) => is_unit(unit, other),
        None => false,
    }
}

// Whether all that the caller of the seat's call at this place had seen is placed.
#[inline(always)]
fn saw_placed<W: Words>(
    closed: &Closed<W>,
    count: &[u32; MOST_SEATS],
    seat: usize,
    at: usize,
) -> bool
    ensures { result ≡ option_map_or (λ call. has_come count.now (seen_in call).counts)
        (call_at (read_in closed.now.logs.now) closed.now.begun.now seat at) false }
{
    match seen_at(closed.logs, closed.begun, seat, at) {
        Some(seen) => has_come(count, &seen),
        None => false,
    }
}

// Whether the other seat's next call is one of the unit, and may come next.
#[inline(always)]
fn is_next_in<W: Words>(
    closed: &Closed<W>,
    found: &Found,
    count: &[u32; MOST_SEATS],
    unit: Unit,
    other: usize,
) -> bool
    requires { other < MOST_SEATS }
    ensures { result ≡ is_next_in (read_in closed.now.logs.now) closed.now.begun.now found.now count.now unit
        other }
{
    is_of_unit(found, unit, other, count[other] as usize)
        && saw_placed(closed, count, other, count[other] as usize)
}

// Whether the unit has no call of the other seat, or that call may come next.
#[inline(always)]
fn is_none_or_next<W: Words>(
    closed: &Closed<W>,
    found: &Found,
    count: &[u32; MOST_SEATS],
    callers: &[bool; MOST_SEATS],
    seat: usize,
    unit: Unit,
    other: usize,
) -> bool
    requires other { other < MOST_SEATS }
    requires callers { slice_index_or callers.now other false ≡ has_call_in found.now unit seat other }
    ensures { result ≡ is_none_or_next (read_in closed.now.logs.now) closed.now.begun.now found.now count.now
        seat unit other }
{
    !callers[other] || is_next_in(closed, found, count, unit, other)
}

// Whether so it is with each call of the unit. Most have one alone.
#[inline(always)]
fn are_next_in<W: Words>(
    closed: &Closed<W>,
    found: &Found,
    count: &[u32; MOST_SEATS],
    seat: usize,
    unit: Unit,
) -> bool
    requires { seat < MOST_SEATS }
    ensures { result ≡ are_next_in (read_in closed.now.logs.now) closed.now.begun.now found.now count.now seat
        unit }
{
    if is_alone(found, unit, seat) {
        return is_next_in(closed, found, count, unit, seat);
    }
    let callers = callers_of(found, unit, seat);
    for other in 0..MOST_SEATS {
        if !is_none_or_next(closed, found, count, &callers, seat, unit, other) {
            return false;
        }
    }
    true
}

// Whether what the unit of the seat's next call was made from is placed.
#[inline(always)]
fn has_base_in<W: Words>(
    closed: &Closed<W>,
    found: &Found,
    progress: &Progress,
    count: &[u32; MOST_SEATS],
    seat: usize,
    unit: Unit,
) -> bool
    requires seat { seat < MOST_SEATS }
    requires bases { HasBases (shape_of closed.now.starts.now.layout) (W.words closed.now.words.now) found.now }
    ensures { result ≡ has_base_in (shape_of closed.now.starts.now.layout) (W.words closed.now.words.now)
        (read_in closed.now.logs.now) found.now progress.now count.now seat unit }
{
    match unit {
        Unit::Lookup => match place_at(closed.logs, seat, count[seat] as usize) {
            Some(row) => is_marked(&progress.placed, row),
            None => false,
        },
        _ => has_marked_base(closed, found, progress, unit),
    }
}

/// Whether the unit of the seat's next call may be placed.
#[inline(always)]
pub(crate) fn is_ready_in<W: Words>(
    closed: &Closed<W>,
    found: &Found,
    progress: &Progress,
    count: &[u32; MOST_SEATS],
    seat: usize,
) -> bool
    requires seat { seat < MOST_SEATS }
    requires bases { HasBases (shape_of closed.now.starts.now.layout) (W.words closed.now.words.now) found.now }
    ensures { result ≡ is_ready_in (shape_of closed.now.starts.now.layout) (W.words closed.now.words.now)
        (read_in closed.now.logs.now) closed.now.begun.now found.now progress.now count.now seat }
{
    match unit_in(found, seat, count[seat] as usize) {
        Some(unit) => {
            has_base_in(closed, found, progress, count, seat, unit)
                && are_next_in(closed, found, count, seat, unit)
        }
        None => false,
    }
}
