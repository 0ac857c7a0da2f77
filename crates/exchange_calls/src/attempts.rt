//! A whole try: without an announcement, or with one.
//!
//! **Keeps**: an update that changes nothing of the row that was loaded is answered by it, as long as nobody else knows
//! of it. One that is announced may have been applied by others: then the row has its entry.
//! **Steps**: a look, and where the update is not answered by it what is pending, the new row and the exchange.

ghost use Rattle.std.specs.Prelude.{◌≡◌, ◌<◌, ◌≤◌, ◌^◌, length, true};
ghost use Rattle.plain_map.specs.Updates.{IsUpdate};
ghost use Rattle.exchange_model.specs.Steps.{Goes, LoadWord, bucket_of_call};
ghost use Rattle.exchange_model.specs.Goes.{is_announced};
ghost use Rattle.exchange_calls.specs.Desks.{IsOf};
ghost use Rattle.exchange_calls.specs.Attempts.{HasTried, IsSeen};
ghost use Rattle.exchange_calls.specs.Tries.{AreRowsOf};

use crate::changes::{place_of, quiet_reply};
use crate::desk::Desk;
use crate::hand::Hand;
use crate::marks::{mark_in, mark_word};
use crate::ops::gather;
use crate::own::Own;
use crate::own_rows::OwnRows;
use crate::steps::Steps;
use crate::tries::{look, put_row};
use plain_map::Reply;
use word_rows::reply_of;

/// How a try went.
#[derive(Clone, Copy)]
pub enum Tried {
    /// The update is made, with this reply.
    Done(Reply),
    /// The bucket's last generation stands.
    Spent,
    /// The bucket word has changed since it was loaded.
    Lost,
}

/// What a try has seen: which one it is, the bucket word, and the place of its key in the row.
#[derive(Clone, Copy)]
pub struct Seen {
    pub turn: u64,
    pub word: u64,
    pub at: Option<usize>,
}

// The update is still to be made.
#[inline(always)]
fn finish<S: Steps>(
    steps: &mut S,
    desk: &Desk,
    own: &Own,
    announced: bool,
    seen: &Seen,
    hand: &mut Hand,
    rows: &mut OwnRows,
) -> Tried
    requires seen { IsSeen (S.now steps.old) own.now.call announced seen.now hand.old }
    requires desk { IsOf (S.now steps.old) desk.now }
    requires bucket { own.now.bucket ≡ bucket_of_call (S.now steps.old).plan own.now.call }
    requires short { own.now.bucket < 2 ^ 20 }
    requires number { own.now.number ≡ (S.now steps.old).now.posted }
    requires few { own.now.number < 2 ^ 43 }
    requires update { IsUpdate own.now.call }
    requires seat { desk.now.holder < desk.now.sizes.seats }
    requires rows { AreRowsOf (S.now steps.old) rows.old }
    requires some { 1 ≤ length (S.now steps.old).now.free }
    ensures { (s : IsSeen (S.now steps.old) own.now.call announced seen.now hand.old) →
        HasTried s.first (S.now steps.new) own.now.call seen.now.turn rows.new result }
{
    if desk.is_last(seen.word) {
        return Tried::Spent;
    }
    let reply = gather(steps, desk, own, announced, seen.at, hand);
    match put_row(steps, desk, own, seen.word, reply, hand, rows) {
        Some(reply) => Tried::Done(reply),
        None => Tried::Lost,
    }
}

/// The try without an announcement.
#[inline(always)]
pub fn try_fast<S: Steps>(
    steps: &mut S,
    desk: &Desk,
    own: &Own,
    hand: &mut Hand,
    rows: &mut OwnRows,
) -> Tried
    requires phase { (S.now steps.old).now.stand ≡ Goes own.now.call (LoadWord 1) }
    requires desk { IsOf (S.now steps.old) desk.now }
    requires bucket { own.now.bucket ≡ bucket_of_call (S.now steps.old).plan own.now.call }
    requires short { own.now.bucket < 2 ^ 20 }
    requires number { own.now.number ≡ (S.now steps.old).now.posted }
    requires few { own.now.number < 2 ^ 43 }
    requires update { IsUpdate own.now.call }
    requires seat { desk.now.holder < desk.now.sizes.seats }
    requires rows { AreRowsOf (S.now steps.old) rows.old }
    requires some { 1 ≤ length (S.now steps.old).now.free }
    ensures { HasTried (S.now steps.old) (S.now steps.new) own.now.call 1 rows.new result }
{
    let Some(word) = look(steps, desk, own, 1, hand) else {
        return Tried::Lost;
    };
    let at = place_of(&hand.items, own.call.key());
    let quiet = quiet_reply(&hand.items, &desk.rules, &own.call, at);
    if let Some(reply) = quiet {
        return Tried::Done(reply);
    }
    let seen = Seen { turn: 1, word, at };
    finish(steps, desk, own, false, &seen, hand, rows)
}

/// A try of an update that is announced.
#[inline(always)]
pub fn try_announced<S: Steps>(
    steps: &mut S,
    desk: &Desk,
    own: &Own,
    turn: u64,
    hand: &mut Hand,
    rows: &mut OwnRows,
) -> Tried
    requires phase { (S.now steps.old).now.stand ≡ Goes own.now.call (LoadWord turn) }
    requires turn { is_announced turn ≡ true }
    requires desk { IsOf (S.now steps.old) desk.now }
    requires bucket { own.now.bucket ≡ bucket_of_call (S.now steps.old).plan own.now.call }
    requires short { own.now.bucket < 2 ^ 20 }
    requires number { own.now.number ≡ (S.now steps.old).now.posted }
    requires few { own.now.number < 2 ^ 43 }
    requires update { IsUpdate own.now.call }
    requires seat { desk.now.holder < desk.now.sizes.seats }
    requires rows { AreRowsOf (S.now steps.old) rows.old }
    requires some { 1 ≤ length (S.now steps.old).now.free }
    ensures { HasTried (S.now steps.old) (S.now steps.new) own.now.call turn rows.new result }
{
    let Some(word) = look(steps, desk, own, turn, hand) else {
        return Tried::Lost;
    };
    let entry = mark_word(desk.holder, own.number);
    let own_mark = mark_in(&hand.marks, entry);
    if let Some(mark) = own_mark {
        let Some(reply) = reply_of(mark.reply) else {
            unreachable!()
        };
        return Tried::Done(reply);
    }
    let at = place_of(&hand.items, own.call.key());
    let seen = Seen { turn, word, at };
    finish(steps, desk, own, true, &seen, hand, rows)
}
