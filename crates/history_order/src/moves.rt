//! What a turn changes.
//!
//! The only error of each is want of memory.

ghost use Rattle.std.specs.Prelude.{◌≡◌, ℕ, ◌+◌, ◌-◌, ◌<◌, ◌++◌, [], if◌then◌else◌, true, false, IfOk, flat_map, length, slice_index, slice_index_or, slice_set};
ghost use Rattle.std.specs.List.{range_with_len};
ghost use Rattle.list_laws.proofs.Lists.{In};
ghost use Rattle.plain_map.specs.declared.records.TheConstants.{MOST_SEATS};
ghost use Rattle.table_model.specs.Closing.{read_in};
ghost use Rattle.history_order.specs.Tables.{
  CanBePlaced,
  IsPlaced,
  LookIsPlaced,
  RowIsPlaced,
  VersionIsPlaced,
  all_told,
  count_with,
  firsts_of,
  free_next,
  has_call_in,
  is_marked_done,
  told_with,
};

use crate::calls::{Closed, id_at, place_at};
use crate::ready::{callers_of, is_alone, is_free, is_marked_done};
use crate::tables::{Found, Progress, Unit};
use closed_words::Words;
use plain_map::{CallId, MOST_SEATS};
use std::alloc::AllocError;

// Where the row is done, the row without calls that was made from it may be placed.
#[inline(always)]
fn set_aside(
    found: &Found,
    placed: &[bool],
    looks: &[u64],
    aside: &mut Vec<u64>,
    row: u64,
) -> Result<(), AllocError>
    ensures { IfOk result (λ _. aside.new.items
        ≡ aside.old.items ++ (if is_marked_done placed.now looks.now row then free_next found.now row else [])) }
{
    if is_marked_done(placed, looks, row) && (row as usize) < found.next.len() {
        if let Some(next) = found.next[row as usize] {
            if is_free(found, Unit::Row(next)) {
                aside.push(next)?;
            }
        }
    }
    Ok(())
}

/// The bucket row is placed.
#[inline(always)]
pub(crate) fn place_row(found: &Found, progress: &mut Progress, row: u64) -> Result<(), AllocError>
    requires { row < length progress.old.placed.items }
    ensures { IfOk result (λ _. RowIsPlaced found.now row progress.old progress.new) }
{
    progress.placed[row as usize] = true;
    set_aside(
        found,
        &progress.placed,
        &progress.looks,
        &mut progress.aside,
        row,
    )
}

/// A lookup of this row is placed.
#[inline(always)]
fn place_look(found: &Found, progress: &mut Progress, row: u64) -> Result<(), AllocError>
    requires { row < length progress.old.looks.items }
    ensures { IfOk result (λ _. LookIsPlaced found.now row progress.old progress.new) }
{
    let left = progress.looks[row as usize];
    progress.looks[row as usize] = left.saturating_sub(1);
    set_aside(
        found,
        &progress.placed,
        &progress.looks,
        &mut progress.aside,
        row,
    )
}

/// The next version is placed, with its first rows.
pub(crate) fn place_version(found: &Found, progress: &mut Progress) -> Result<(), AllocError>
    requires there { progress.old.latest < length found.now.versions.items }
    requires firsts { (row : ℕ) → In row (firsts_of found.now progress.old.latest) →
        row < length progress.old.placed.items }
    ensures { IfOk result (λ _. VersionIsPlaced found.now progress.old progress.new) }
{
    let version = progress.latest;
    for row in &found.versions[version].firsts {
        place_row(found, progress, *row)?;
    }
    progress.latest = version + 1;
    Ok(())
}

/// The unit of the seat's call at this place is placed.
#[inline(always)]
pub(crate) fn place<W: Words>(
    closed: &Closed<W>,
    found: &Found,
    progress: &mut Progress,
    seat: usize,
    at: usize,
    unit: Unit,
) -> Result<(), AllocError>
    requires { CanBePlaced (read_in closed.now.logs.now) found.now seat at unit progress.old }
    ensures { IfOk result (λ _. IsPlaced (read_in closed.now.logs.now) found.now seat at unit progress.old
        progress.new) }
{
    match unit {
        Unit::Lookup => match place_at(closed.logs, seat, at) {
            Some(row) => place_look(found, progress, row),
            None => Ok(()),
        },
        Unit::Row(row) => place_row(found, progress, row),
        Unit::Version(_) => place_version(found, progress),
    }
}

// The call of the other seat that comes with the unit is told.
#[inline(always)]
fn tell_one<W: Words>(
    closed: &Closed<W>,
    found: &Found,
    count: &mut [u32; MOST_SEATS],
    comes: bool,
    seat: usize,
    unit: Unit,
    other: usize,
    out: &mut Vec<CallId>,
) -> Result<(), AllocError>
    requires other { other < MOST_SEATS }
    requires comes { comes ≡ has_call_in found.now unit seat other }
    ensures out { IfOk result (λ _. out.new.items ≡ out.old.items ++ told_with (read_in closed.now.logs.now)
        closed.now.begun.now found.now seat unit other (slice_index count.old other)) }
    ensures count { IfOk result (λ _. count.new ≡ slice_set count.old other (count_with (read_in closed.now.logs.now)
        closed.now.begun.now found.now seat unit other (slice_index count.old other))) }
{
    if !comes {
        return Ok(());
    }
    match id_at(closed.logs, closed.begun, other, count[other] as usize) {
        Some(id) => {
            out.push(id)?;
            count[other] = id.number;
            Ok(())
        }
        None => Ok(()),
    }
}

/// The calls of the unit of the seat's next call are told, in the order of the seats. Most come alone.
#[inline(always)]
pub(crate) fn tell<W: Words>(
    closed: &Closed<W>,
    found: &Found,
    count: &mut [u32; MOST_SEATS],
    seat: usize,
    unit: Unit,
    out: &mut Vec<CallId>,
) -> Result<(), AllocError>
    requires { seat < MOST_SEATS }
    ensures out { IfOk result (λ _. out.new.items ≡ out.old.items ++ all_told (read_in closed.now.logs.now)
        closed.now.begun.now found.now count.old seat unit 0 MOST_SEATS) }
    ensures count { IfOk result (λ _. (other : ℕ) → other < MOST_SEATS → slice_index count.new other ≡
        count_with (read_in closed.now.logs.now) closed.now.begun.now found.now seat unit other
        (slice_index count.old other)) }
{
    if is_alone(found, unit, seat) {
        return tell_one(closed, found, count, true, seat, unit, seat, out);
    }
    let callers = callers_of(found, unit, seat);
    for other in 0..MOST_SEATS {
        tell_one(closed, found, count, callers[other], seat, unit, other, out)?;
    }
    Ok(())
}
