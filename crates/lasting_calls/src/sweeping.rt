//! The piece of a sweep with which an update begins.
//!
//! **Words**: up to three bucket words are loaded. When all own rows are gone through, each other seat's hold word is
//! loaded; where it asks, also its want word and that bucket's word, and the hold word is exchanged.
//! **Keeps**: all bucket words come before the hold words. Whoever may still read a row that is gone had asked before
//! that. So its hold word names the row, or asks still and is given another one.
//! **Steps**: at most `piece_steps`.

ghost use Rattle.std.specs.Prelude.{◌≡◌, ◌≢◌, ℕ, ◌∷◌, List, ◌+◌, ◌%◌, ◌^◌, ◌<◌};
ghost use Rattle.own_rows.specs.Rows.{AreSame, HasRows, IsSound, Rows};
ghost use Rattle.lasting_model.specs.Plans.{ample};
ghost use Rattle.lasting_model.specs.Goes.{by_giving};
ghost use Rattle.lasting_calls.specs.Desks.{IsOf};
ghost use Rattle.lasting_calls.specs.Seats.{AreRowsOf};
ghost use Rattle.lasting_calls.specs.Sweeps.{AtHold, AtSeat, HasLookedHome, HasSwept, IsAsked, IsAtHome, IsAtSeat, IsSweeping, home_put, swept_to};

use crate::desk::{Desk, ROW_LIMIT};
use crate::steps::Steps;
use own_rows::OwnRows;

// So many own rows an update looks at.
const PIECE: u32 = 3;

// The row that was looked at stays named where it stands in the word of its bucket.
#[inline(always)]
fn put_home(rows: &mut OwnRows, stands: bool)
    requires sound { IsSound rows.old }
    ensures sound { IsSound rows.new }
    ensures same { AreSame rows.old rows.new }
    ensures rows { (r : Rows) (row : ℕ × ℕ) (todo : List (ℕ × ℕ)) → HasRows rows.old r → r.todo ≡ row ∷ todo →
        HasRows rows.new (home_put stands r row todo) }
{
    if stands {
        rows.keep_home();
    } else {
        rows.lose_home();
    }
}

// Whether all own rows are gone through after the next one, which stays named where the word of its bucket has it.
#[inline(always)]
fn look_home<S: Steps>(steps: &mut S, desk: &Desk, rows: &mut OwnRows) -> bool
    requires at { IsAtHome (S.now steps.old) rows.old }
    requires desk { IsOf (S.now steps.old) desk.now }
    ensures same { AreSame rows.old rows.new }
    ensures looked { (a : IsAtHome (S.now steps.old) rows.old) →
        HasLookedHome result a.first (S.now steps.new) a.update a.left rows.new }
{
    let Some((row, bucket)) = rows.home() else {
        unreachable!()
    };
    let place = desk.bucket(bucket as u64);
    let word = steps.load(place);
    put_home(rows, word % ROW_LIMIT == row as u64);
    rows.home().is_none()
}

// Gives a seat that asks a row of the bucket that it wants, and tells what its hold word was.
#[inline(always)]
fn give<S: Steps>(steps: &mut S, desk: &Desk, seat: u32, asking: u64) -> u64
    requires asks { IsAsked (S.now steps.old) seat asking }
    requires odd { asking % 2 ≡ 1 }
    requires desk { IsOf (S.now steps.old) desk.now }
    requires seat { seat < desk.now.settings.seats }
    ensures { (a : IsAsked (S.now steps.old) seat asking) → S.now steps.new ≡
        swept_to a.first a.update a.left (by_giving (ample a.first.plan) a.first.seat seat a.gone result) }
{
    let wanted = desk.want(seat);
    let bucket = steps.load(wanted);
    steps.stands();
    let place = desk.bucket(bucket);
    let word = steps.load(place);
    let hold = desk.hold(seat);
    steps.exchange(hold, asking, 2 * (word % ROW_LIMIT + 1))
}

// The hold word of a seat, which holds a row, or has nothing more to do with the rows that are gone.
#[inline(always)]
fn settle<S: Steps>(steps: &mut S, desk: &Desk, seat: u32) -> u64
    requires at { AtHold (S.now steps.old) seat }
    requires desk { IsOf (S.now steps.old) desk.now }
    requires seat { seat < desk.now.settings.seats }
    ensures { (a : AtHold (S.now steps.old) seat) → S.now steps.new ≡
        swept_to a.first a.update a.left (by_giving (ample a.first.plan) a.first.seat seat a.gone result) }
{
    let place = desk.hold(seat);
    let word = steps.load(place);
    if word % 2 == 1 {
        give(steps, desk, seat, word)
    } else {
        word
    }
}

// Looks at another seat. A row that it holds stays named.
#[inline(always)]
fn look_seat<S: Steps>(steps: &mut S, desk: &Desk, rows: &mut OwnRows, seat: u32)
    requires at { IsAtSeat (S.now steps.old) seat rows.old }
    requires desk { IsOf (S.now steps.old) desk.now }
    requires seat { seat < desk.now.settings.seats }
    requires other { seat ≢ desk.now.seat }
    ensures same { AreSame rows.old rows.new }
    ensures looked { (a : IsAtSeat (S.now steps.old) seat rows.old) →
        AtSeat a.first (S.now steps.new) a.update (seat + 1) rows.new }
{
    let word = settle(steps, desk, seat);
    if word % 2 == 1 {
        return;
    }
    if word == 0 {
        return;
    }
    rows.keep_held(word / 2 - 1);
}

// All own rows are gone through: looks at the other seats, and frees what is gone.
#[inline(always)]
fn look_seats<S: Steps>(steps: &mut S, desk: &Desk, rows: &mut OwnRows)
    requires at { IsAtSeat (S.now steps.old) 0 rows.old }
    requires desk { IsOf (S.now steps.old) desk.now }
    requires few { rows.old.sweeps < 2 ^ 63 }
    ensures { (a : IsAtSeat (S.now steps.old) 0 rows.old) →
        HasSwept a.first (S.now steps.new) a.update rows.new }
{
    for seat in 0..desk.settings.seats {
        if seat == desk.seat {
            continue;
        }
        look_seat(steps, desk, rows, seat);
    }
    rows.free_gone();
}

/// Looks at three own rows, and where these are the last ones at all other seats.
#[inline(always)]
pub fn sweep<S: Steps>(steps: &mut S, desk: &Desk, rows: &mut OwnRows)
    requires phase { IsSweeping (S.now steps.old) }
    requires desk { IsOf (S.now steps.old) desk.now }
    requires rows { AreRowsOf (S.now steps.old) rows.old }
    requires few { rows.old.sweeps < 2 ^ 63 }
    ensures { (s : IsSweeping (S.now steps.old)) →
        HasSwept (S.now steps.old) (S.now steps.new) s.update rows.new }
{
    for i in 0..PIECE {
        // The proof counts by it.
        let _turn = i;
        if look_home(steps, desk, rows) {
            look_seats(steps, desk, rows);
            return;
        }
    }
}
