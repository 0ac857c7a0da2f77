//! The turns, one after the other.
//!
//! The only error of each is want of memory.

ghost use Rattle.std.specs.Prelude.{◌≡◌, ◌≤◌, ◌++◌, IfOk, find};
ghost use Rattle.std.specs.List.{range_with_len};
ghost use Rattle.word_rows.specs.LayoutView.{shape_of};
ghost use Rattle.plain_map.specs.declared.records.TheConstants.{MOST_SEATS};
ghost use Rattle.plain_map.specs.History.{ids_of};
ghost use Rattle.table_model.specs.Order.{order_of};
ghost use Rattle.table_model.specs.Closing.{closing_with, read_in};
ghost use Rattle.history_order.specs.Begins.{Begins};
ghost use Rattle.history_order.specs.Tables.{HasBases, is_ready_in};

use crate::calls::Closed;
use crate::moves::{place, place_row, place_version, tell};
use crate::ready::{is_due, is_ready_in, is_version_due, unit_in};
use crate::tables::{Found, Progress};
use closed_words::{Starts, Words};
use plain_map::{CallId, MOST_SEATS};
use std::alloc::AllocError;

// How many seats there are.
fn seat_count(starts: &Starts) -> usize
    ensures value { result ≡ (shape_of starts.now.layout).settings.seats }
    ensures few { result ≤ MOST_SEATS }
{
    starts.layout.settings().seats as usize
}

// The first seat whose next call may be placed.
fn next_seat<W: Words>(
    closed: &Closed<W>,
    found: &Found,
    progress: &Progress,
    count: &[u32; MOST_SEATS],
) -> Option<usize>
    requires { HasBases (shape_of closed.now.starts.now.layout) (W.words closed.now.words.now) found.now }
    ensures { result ≡ find (is_ready_in (shape_of closed.now.starts.now.layout) (W.words closed.now.words.now)
        (read_in closed.now.logs.now) closed.now.begun.now found.now progress.now count.now)
        (range_with_len 0 (shape_of closed.now.starts.now.layout).settings.seats) }
{
    let seats = seat_count(closed.starts);
    for seat in 0..seats {
        if is_ready_in(closed, found, progress, count, seat) {
            return Some(seat);
        }
    }
    None
}

/// Turn after turn, until nothing is left: first the bucket rows without calls that may be placed, then the next
/// version if it has no calls, else the first seat's unit that may be placed.
pub(crate) fn turns<W: Words>(
    closed: &Closed<W>,
    found: &Found,
    progress: &mut Progress,
    out: &mut Vec<CallId>,
) -> Result<(), AllocError>
    requires begins { Begins (shape_of closed.now.starts.now.layout) (W.words closed.now.words.now)
        (read_in closed.now.logs.now) closed.now.begun.now found.now progress.old }
    requires bases { HasBases (shape_of closed.now.starts.now.layout) (W.words closed.now.words.now) found.now }
    ensures { IfOk result (λ _. out.new.items ≡ out.old.items ++ ids_of (order_of
        (shape_of closed.now.starts.now.layout) (closing_with (W.words closed.now.words.now)
        (read_in closed.now.logs.now) closed.now.begun.now))) }
{
    let mut count = [0; MOST_SEATS];
    loop {
        if let Some(row) = progress.aside.pop() {
            if is_due(closed, found, progress, row) {
                place_row(found, progress, row)?;
            }
            continue;
        }
        if is_version_due(closed, found, progress) {
            place_version(found, progress)?;
            continue;
        }
        let Some(seat) = next_seat(closed, found, progress, &count) else {
            return Ok(());
        };
        let at = count[seat] as usize;
        let Some(unit) = unit_in(found, seat, at) else {
            return Ok(());
        };
        tell(closed, found, &mut count, seat, unit, out)?;
        place(closed, found, progress, seat, at, unit)?;
    }
}
