//! The first call of the order that does not stand after all that it must.

ghost use Rattle.std.specs.Prelude.{◌≡◌, List, ℕ, None, ◌+◌, ◌<◌, ◌≤◌, ◌^◌, ◌-◌, max, MatchBool, MatchOption, length, slice_index, slice_set};
ghost use Rattle.plain_map.specs.declared.records.Record.{Record as ARecord};
ghost use Rattle.plain_map.specs.History.{After, Placed};
ghost use Rattle.report_told.specs.Told.{Told};
ghost use Rattle.report_told.specs.Points.{IsWhole, placed_told};
ghost use Rattle.report_told.specs.Verdicts.{IsFirstEarly};
ghost use Rattle.report_check.specs.Facts.{Facts, IsCallOf};
ghost use Rattle.report_check.specs.Judged.{MayStand, Stood, TriedAt};

use crate::places::{call_of, pending_of};
use plain_map::{MOST_SEATS, Pending, Record, Seen};

/// The packet of the first call of the order that does not stand after its seat's earlier calls and after all that its
/// caller had seen.
pub(crate) fn first_early(calls: &[Record], pending: &[Pending], order: &[u32]) -> Option<u32>
    ensures { (told : Told) → Facts told calls.now pending.now order.now → IsWhole told →
        MatchOption result (After (placed_told told)) (IsFirstEarly told) }
{
    let mut standing = [0; MOST_SEATS];
    for packet in order {
        if !put(&mut standing, calls, pending, *packet) {
            return Some(*packet);
        }
    }
    None
}

// Puts the call of a packet behind those that stand, where it may stand there.
fn put(standing: &mut [u32; MOST_SEATS], calls: &[Record], pending: &[Pending], packet: u32) -> bool
    ensures { (told : Told) (order : List ℕ) (front : List Placed) → Facts told calls.now pending.now order →
        TriedAt told packet front standing.old standing.new result }
{
    match call_of(calls, packet) {
        Some(call) => try_to_stand(standing, call.seat, call.number, &call.seen),
        None => put_pending(standing, pending, packet),
    }
}

// The same of a pending call.
fn put_pending(standing: &mut [u32; MOST_SEATS], pending: &[Pending], packet: u32) -> bool
    ensures { (told : Told) (calls : List ARecord) (order : List ℕ) (front : List Placed) →
        Facts told calls pending.now order → IsCallOf (λ r. r.packet) calls packet None →
        TriedAt told packet front standing.old standing.new result }
{
    match pending_of(pending, packet) {
        Some(call) => try_to_stand(standing, call.seat, call.number, &call.seen),
        None => false,
    }
}

// The call with this number of its seat stands next, where it may.
fn try_to_stand(standing: &mut [u32; MOST_SEATS], seat: u32, number: u32, seen: &Seen) -> bool
    ensures { seat < 8 → Stood standing.old standing.new seat number seen.now.counts result }
{
    if !may_stand(standing, seat, number, seen) {
        return false;
    }
    stand(standing, seat, number);
    true
}

// Whether a call with this number of its seat may stand next: it is at most the next of its seat, and its caller had
// seen no more calls than stand.
fn may_stand(standing: &[u32; MOST_SEATS], seat: u32, number: u32, seen: &Seen) -> bool
    ensures { seat < 8 → MatchBool result (MayStand standing.now seat number seen.now.counts)
        (MayStand standing.now seat number seen.now.counts → ⊥) }
{
    let Some(own) = standing.get(seat as usize) else {
        return false;
    };
    if number > *own && number - *own > 1 {
        return false;
    }
    for other in 0..MOST_SEATS {
        if seen.counts[other] > standing[other] {
            return false;
        }
    }
    true
}

// The call with this number of its seat stands now.
fn stand(standing: &mut [u32; MOST_SEATS], seat: u32, number: u32)
    ensures { seat < 8 → standing.new ≡ slice_set standing.old seat (max (slice_index standing.old seat) number) }
{
    let place = seat as usize;
    if place < MOST_SEATS {
        standing[place] = standing[place].max(number);
    }
}
