//! A whole update, from its first try to its reply.
//!
//! **Words**: those of the first try; where it is lost the seat's own op and announcement, those of two tries more, and
//! where these are lost too those of a hold and of the row that is held; then the announcement again.
//! **Keeps**: the announcement is over after the reply was read, and before the next op of the seat is stored.
//! **Steps**: at most three tries, an announcement with its end, and a held look.

ghost use Rattle.std.specs.Prelude.{◌≡◌, ◌+◌, ◌≤◌, ◌<◌, ◌^◌, None, length, nat_lt, true};
ghost use Rattle.plain_map.specs.Calls.{key_in};
ghost use Rattle.plain_map.specs.PlainObject.{class_of};
ghost use Rattle.plain_map.specs.Updates.{IsUpdate};
ghost use Rattle.exchange_model.specs.Steps.{Goes, Idle, LoadWord, Over, RaisePending};
ghost use Rattle.exchange_model.specs.Goes.{Called, ended};
ghost use Rattle.exchange_model.specs.Worlds.{CanBegin};
ghost use Rattle.exchange_calls.specs.Desks.{IsOf};
ghost use Rattle.exchange_calls.specs.Going.{on};
ghost use Rattle.exchange_calls.specs.Hands.{making};
ghost use Rattle.exchange_calls.specs.OwnRowsView.{free_of};
ghost use Rattle.exchange_calls.specs.Seats.{IsOwn, IsSeatOf, begun, ending_of, keeping, updated};
ghost use Rattle.exchange_calls.specs.Tries.{AreRowsOf};

use crate::announcing::{announce, end};
use crate::attempts::{Tried, try_announced, try_fast};
use crate::desk::Desk;
use crate::held::see_held;
use crate::own::Own;
use crate::own_rows::OwnRows;
use crate::scans::scan;
use crate::seat_state::SeatState;
use crate::steps::Steps;
use plain_map::{Call, Reply};

/// What an update is told.
#[derive(Clone, Copy)]
pub enum Updated {
    /// It is made, with this reply.
    Replied(Reply),
    /// Its bucket has the last generation, and takes no update more.
    Spent,
    /// No row of the seat was free.
    Refused,
}

// The announced tries, and the held look: the reply, or none where the bucket is spent.
#[inline(always)]
fn see_through<S: Steps>(
    steps: &mut S,
    desk: &Desk,
    own: &Own,
    seat: &mut SeatState,
) -> Option<Reply>
    requires phase { (S.now steps.old).now.stand ≡ Goes own.now.call (LoadWord 2) }
    requires own { IsOwn (S.now steps.old) desk.now own.now }
    requires seat { IsSeatOf (S.now steps.old) seat.old }
    requires some { 1 ≤ length (S.now steps.old).now.free }
    requires late { seat.old.time < 2 ^ 62 }
    ensures goes { S.now steps.new ≡
        on (keeping (S.now steps.old) seat.new) (Goes own.now.call (Over (ending_of result))) }
    ensures posted { seat.new.posted ≡ seat.old.posted }
{
    match try_announced(steps, desk, own, 2, &mut seat.hand, &mut seat.rows) {
        Tried::Done(reply) => return Some(reply),
        Tried::Spent => return None,
        Tried::Lost => {}
    }
    match try_announced(steps, desk, own, 3, &mut seat.hand, &mut seat.rows) {
        Tried::Done(reply) => return Some(reply),
        Tried::Spent => return None,
        Tried::Lost => {}
    }
    // Whoever put a row for the second lost try had seen the announcement.
    Some(see_held(steps, desk, own, &mut seat.time))
}

// The update after its first try was lost: the reply, or none where the bucket is spent.
#[inline(always)]
fn make_announced<S: Steps>(
    steps: &mut S,
    desk: &Desk,
    own: &Own,
    seat: &mut SeatState,
) -> Option<Reply>
    requires phase { (S.now steps.old).now.stand ≡ Goes own.now.call RaisePending }
    requires own { IsOwn (S.now steps.old) desk.now own.now }
    requires seat { IsSeatOf (S.now steps.old) seat.old }
    requires some { 1 ≤ length (S.now steps.old).now.free }
    requires late { seat.old.time < 2 ^ 62 }
    ensures { S.now steps.new ≡
        making (keeping (S.now steps.old) seat.new) own.now.call (ended (ending_of result)) }
{
    announce(steps, desk, own);
    let reply = see_through(steps, desk, own, seat);
    end(steps, desk, own);
    seat.posted += 1;
    reply
}

// An update that has a free row: the reply, or none where the bucket is spent.
#[inline(always)]
fn make<S: Steps>(steps: &mut S, desk: &Desk, own: &Own, seat: &mut SeatState) -> Option<Reply>
    requires phase { (S.now steps.old).now.stand ≡ Goes own.now.call (LoadWord 1) }
    requires own { IsOwn (S.now steps.old) desk.now own.now }
    requires seat { IsSeatOf (S.now steps.old) seat.old }
    requires some { 1 ≤ length (S.now steps.old).now.free }
    requires late { seat.old.time < 2 ^ 62 }
    ensures { S.now steps.new ≡
        making (keeping (S.now steps.old) seat.new) own.now.call (ended (ending_of result)) }
{
    match try_fast(steps, desk, own, &mut seat.hand, &mut seat.rows) {
        Tried::Done(reply) => Some(reply),
        Tried::Spent => None,
        Tried::Lost => make_announced(steps, desk, own, seat),
    }
}

// What is at hand of an update.
#[inline(always)]
fn own_of(desk: &Desk, posted: u64, call: &Call) -> Own
    ensures call { result.call ≡ call.now }
    ensures bucket { result.bucket ≡ class_of desk.now.rules (key_in call.now) }
    ensures short { result.bucket < 2 ^ 20 }
    ensures number { result.number ≡ posted }
{
    Own {
        call: *call,
        bucket: desk.bucket_of(call.key()),
        number: posted,
    }
}

// The update begins, with a scan where no row is free. Whether one is free then.
#[inline(always)]
fn begin<S: Steps>(steps: &mut S, desk: &Desk, rows: &mut OwnRows, call: &Call) -> bool
    requires idle { (S.now steps.old).now.stand ≡ Idle }
    requires holds { (S.now steps.old).holds ≡ true }
    requires desk { IsOf (S.now steps.old) desk.now }
    requires rows { AreRowsOf (S.now steps.old) rows.old }
    requires rest { (S.now steps.old).now.scan ≡ None }
    requires can { CanBegin (S.now steps.old).plan (S.now steps.old).seat (S.now steps.old).now call.now }
    requires update { IsUpdate call.now }
    requires may { S.may steps.old (Called call.now) 0 }
    ensures goes { S.now steps.new ≡ begun (S.now steps.old) rows.new call.now }
    ensures free { result ≡ nat_lt 0 (length (free_of rows.new)) }
{
    steps.begin(call);
    if rows.first().is_some() {
        return true;
    }
    scan(steps, desk, rows);
    rows.first().is_some()
}

/// Makes an update, and tells its reply; or that its bucket is spent, or that no row was free, where it is not made.
///
/// **Steps:** a scan where no row is free, at most three tries, an announcement, its end, and a held look.
#[inline(always)]
pub fn update<S: Steps>(steps: &mut S, desk: &Desk, seat: &mut SeatState, call: &Call) -> Updated
    requires idle { (S.now steps.old).now.stand ≡ Idle }
    requires holds { (S.now steps.old).holds ≡ true }
    requires desk { IsOf (S.now steps.old) desk.now }
    requires seat { IsSeatOf (S.now steps.old) seat.old }
    requires can { CanBegin (S.now steps.old).plan (S.now steps.old).seat (S.now steps.old).now call.now }
    requires update { IsUpdate call.now }
    requires may { S.may steps.old (Called call.now) 0 }
    ensures told { S.now steps.new ≡ updated (S.now steps.old) seat.new result }
    ensures seat { IsSeatOf (S.now steps.new) seat.new }
{
    if !begin(steps, desk, &mut seat.rows, call) {
        return Updated::Refused;
    }
    let own = own_of(desk, seat.posted, call);
    match make(steps, desk, &own, seat) {
        Some(reply) => Updated::Replied(reply),
        None => Updated::Spent,
    }
}
