//! A seat's whole update: a piece of a sweep, and what carries it out.

ghost use Rattle.std.specs.Prelude.{◌≡◌, ◌≢◌, ℕ, ◌∷◌, List, ◌+◌, ◌<◌, ◌≤◌, ◌^◌, ◌↔◌, Ok, Err, Option, true};
ghost use Rattle.plain_map.specs.declared.calls.Reply.{Reply};
ghost use Rattle.plain_map.specs.Calls.{key_in};
ghost use Rattle.plain_map.specs.PlainObject.{class_of};
ghost use Rattle.bucket_machine.specs.HashedKeys.{IsHashed};
ghost use Rattle.plain_map.specs.Updates.{IsUpdate};
ghost use Rattle.own_rows.specs.Rows.{AreSame, HasRows, IsSound, Rows};
ghost use Rattle.lasting_model.specs.Plans.{MOST_UPDATES};
ghost use Rattle.lasting_model.specs.Goes.{Called};
ghost use Rattle.lasting_model.specs.Steps.{Idle};
ghost use Rattle.lasting_model.specs.Worlds.{next_update};
ghost use Rattle.lasting_calls.specs.Desks.{IsOf};
ghost use Rattle.lasting_calls.specs.Seats.{AreRowsOf, HasEnded, IsAtRest, IsSeatOf, row_put, taken_up, told_by_update, untold};
ghost use Rattle.lasting_calls.specs.Sweeps.{HasSwept};
ghost use Rattle.lasting_calls.specs.declared.calls.Spent.{Spent};
ghost use Rattle.lasting_calls.specs.declared.calls.Spent.TheVariants.{Updates, Asked};

use crate::desk::Desk;
use crate::own::Own;
use crate::seat_state::SeatState;
use crate::steps::Steps;
use crate::sweeping::sweep;
use crate::updates::carry_out;
use bucket_machine::Hashed;
use own_rows::OwnRows;
use plain_map::{Call, Reply};

/// So many updates a seat may make.
pub const MOST_UPDATES: u64 = 1 << 48;

/// So often a seat may have asked for a hold before an update.
pub const MOST_ASKED: u64 = 1 << 62;

/// What is used up, so that no update can begin.
#[derive(Clone, Copy, Debug, PartialEq, Eq)]
pub enum Spent {
    /// The numbers of the seat's updates.
    Updates,
    /// The numbers of its askings for a hold.
    Asked,
}

// Where no sweep is under way one begins.
#[inline(always)]
fn take_up(rows: &mut OwnRows)
    requires sound { IsSound rows.old }
    ensures sound { IsSound rows.new }
    ensures same { AreSame rows.old rows.new }
    ensures rows { (r : Rows) → HasRows rows.old r → HasRows rows.new (taken_up r.todo r) }
{
    if rows.home().is_none() {
        rows.begin_sweep();
    }
}

// The update begins: a piece of a sweep, if there is anything to sweep.
#[inline(always)]
fn begin<S: Steps>(steps: &mut S, desk: &Desk, rows: &mut OwnRows, call: &Call)
    requires idle { (S.now steps.old).now.stand ≡ Idle }
    requires holds { (S.now steps.old).holds ≡ true }
    requires desk { IsOf (S.now steps.old) desk.now }
    requires rows { AreRowsOf (S.now steps.old) rows.old }
    requires rest { IsAtRest (S.now steps.old).now.sweep }
    requires few { (S.now steps.old).now.answered < MOST_UPDATES }
    requires update { IsUpdate call.now }
    requires may { S.may steps.old (Called call.now) 0 }
    ensures { HasSwept (untold (S.now steps.old)) (S.now steps.new) (next_update (S.now steps.old).now call.now)
        rows.new }
{
    call.key().has_words();
    steps.begin(call);
    take_up(rows);
    if rows.home().is_none() {
        return;
    }
    sweep(steps, desk, rows);
}

// What is at hand of the update: its key with its hash, its bucket, and the row that it writes.
#[inline(always)]
fn own_of(desk: &Desk, answered: u64, call: &Call, row: u32, published: u64) -> Own
    requires answered { answered < MOST_UPDATES }
    requires published { published < 2 ^ 48 }
    ensures number { result.number ≡ answered + 1 }
    ensures call { result.call ≡ call.now }
    ensures hashed { IsHashed desk.now.rules.hashing result.key }
    ensures bucket { result.bucket ≡ class_of desk.now.rules (key_in call.now) }
    ensures few { result.bucket < 2 ^ desk.now.settings.depth }
    ensures row { result.row ≡ row }
    ensures generation { result.generation ≡ published + 1 }
{
    let key = call.key();
    Own {
        number: answered + 1,
        call: *call,
        key: Hashed::new(&desk.rules.hashing, key),
        bucket: desk.bucket_of(key),
        row: row as u64,
        generation: published + 1,
    }
}

// Notes that the first free row stands in the word of this bucket, if it was put there.
#[inline(always)]
fn note(rows: &mut OwnRows, put: bool, bucket: u32, generation: u64)
    requires sound { IsSound rows.old }
    ensures sound { IsSound rows.new }
    ensures same { AreSame rows.old rows.new }
    ensures rows { (r : Rows) (row : ℕ) (free : List ℕ) (g : ℕ → ℕ) → HasRows rows.old r → r.free ≡ row ∷ free →
        g row ≡ generation → ((k : ℕ) → k ≢ row → g k ≡ r.generation k) →
        HasRows rows.new (row_put put r row free bucket g) }
{
    if put {
        rows.publish(bucket, generation);
    }
}

// A whole update.
#[inline(always)]
fn make<S: Steps>(steps: &mut S, desk: &Desk, seat: &mut SeatState, call: &Call) -> Option<Reply>
    requires idle { (S.now steps.old).now.stand ≡ Idle }
    requires holds { (S.now steps.old).holds ≡ true }
    requires desk { IsOf (S.now steps.old) desk.now }
    requires seat { IsSeatOf (S.now steps.old) seat.old }
    requires few { seat.old.answered < MOST_UPDATES }
    requires late { seat.old.time < 2 ^ 62 }
    requires update { IsUpdate call.now }
    requires may { S.may steps.old (Called call.now) 0 }
    ensures seat { IsSeatOf (S.now steps.new) seat.new }
    ensures ended { HasEnded (S.now steps.old) (S.now steps.new) (told_by_update result) }
{
    begin(steps, desk, &mut seat.rows, call);
    let Some((row, published)) = seat.rows.next_row() else {
        return None;
    };
    steps.counts();
    let own = own_of(desk, seat.answered, call, row, published);
    let room = &mut seat.room;
    let (reply, put) = carry_out(
        steps,
        desk,
        &own,
        &mut room.words,
        &mut room.ops,
        &mut seat.time,
    );
    note(&mut seat.rows, put, own.bucket as u32, own.generation);
    seat.answered += 1;
    Some(reply)
}

/// Makes an update. `None` tells that no row was free, which happens in no run of a table that was opened with rows
/// enough.
///
/// **Steps:** at most `update_bound`.
///
/// **Errors:** what is used up. No step was taken then.
#[inline(always)]
pub fn update<S: Steps>(
    steps: &mut S,
    desk: &Desk,
    seat: &mut SeatState,
    call: &Call,
) -> Result<Option<Reply>, Spent>
    requires idle { (S.now steps.old).now.stand ≡ Idle }
    requires holds { (S.now steps.old).holds ≡ true }
    requires desk { IsOf (S.now steps.old) desk.now }
    requires seat { IsSeatOf (S.now steps.old) seat.old }
    requires update { IsUpdate call.now }
    requires may { S.may steps.old (Called call.now) 0 }
    ensures seat { IsSeatOf (S.now steps.new) seat.new }
    ensures ended { (reply : Option Reply) → result ≡ Ok reply →
        HasEnded (S.now steps.old) (S.now steps.new) (told_by_update reply) }
    ensures waits { (spent : Spent) → result ≡ Err spent → S.now steps.new ≡ S.now steps.old }
    ensures updates { (result ≡ Err Updates) ↔ (MOST_UPDATES ≤ seat.old.answered) }
    ensures asked { (result ≡ Err Asked) ↔ ((seat.old.answered < MOST_UPDATES) × (2 ^ 62 ≤ seat.old.time)) }
{
    if seat.answered >= MOST_UPDATES {
        return Err(Spent::Updates);
    }
    if seat.time >= MOST_ASKED {
        return Err(Spent::Asked);
    }
    Ok(make(steps, desk, seat, call))
}
