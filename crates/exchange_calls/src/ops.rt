//! The leg of a try that finds what all seats announce.
//!
//! **Words**: the announcement of each other seat, and its op where that is due here. All are loaded, none is stored.
//! **Keeps**: a try takes this leg after it has loaded the word that it will exchange. So if the exchange happens, it
//! has every op that was announced for this bucket before that word was loaded.
//! **Steps**: one for each other seat, and one for each word of an op that is due.

ghost use Rattle.std.specs.Prelude.{◌≡◌, ◌≢◌, All, MatchOption, None, length, ◌+◌, ◌%◌, ◌/◌, ◌<◌, ◌^◌, ◌==◌, ◌&&◌, if◌then◌else◌};
ghost use Rattle.plain_map.specs.Calls.{key_in};
ghost use Rattle.plain_map.specs.Updates.{IsSmallPair, IsUpdate};
ghost use Rattle.bucket_states.specs.Items.{value_at};
ghost use Rattle.bucket_states.specs.Places.{IsPlaceOf};
ghost use Rattle.exchange_model.specs.Codes.{call_in};
ghost use Rattle.exchange_model.specs.Steps.{bucket_of_call};
ghost use Rattle.exchange_calls.specs.Desks.{IsOf};
ghost use Rattle.exchange_calls.specs.Found.{Finding, HasApplied, HasFound, HasFoundAll, HasLoadedOp, IsFinding, IsFindingAll, IsFindingOne, IsLoadingOp, IsPending, IsTaking};

use crate::changes::{change, place_of};
use crate::desk::{CLASSES, Desk, SLOT_WORDS};
use crate::hand::Hand;
use crate::marks::{Mark, mark_in, mark_word};
use crate::own::Own;
use crate::runs::load_run;
use crate::steps::Steps;
use plain_map::{Call, KEY_WORDS, Reply, VALUE_LIMIT};
use word_rows::{COUNT, INSERT, PUT, TALLY, read_key, reply_word};

// The call that these words spell. If they are of several ops the exchange of this try is lost, so any call will do.
#[inline(always)]
fn read_call(words: &[u64; SLOT_WORDS]) -> Call
    ensures call { result ≡ call_in words.now }
    ensures update { IsUpdate result }
{
    let key = read_key(&words[1..1 + KEY_WORDS]);
    let value = words[1 + KEY_WORDS] % VALUE_LIMIT;
    let amount = words[0] / 8;
    match words[0] % 8 {
        INSERT => Call::Insert(key, value),
        TALLY => Call::Tally(key, value),
        COUNT => Call::Count(key, value, amount),
        PUT => Call::Put(key, value),
        _ => Call::Remove(key),
    }
}

// Whether an announcement is pending, and for this bucket.
#[inline(always)]
fn is_here(announced: u64, bucket: u64) -> bool
    ensures { result ≡ ((announced / 2 ^ 20 % 2 == 1) && (announced % 2 ^ 20 == bucket)) }
{
    announced / CLASSES % 2 == 1 && announced % CLASSES == bucket
}

// Loads the op of a seat.
#[inline(always)]
fn load_op<S: Steps>(steps: &mut S, desk: &Desk, own: &Own, seat: u32) -> Call
    requires loading { IsLoadingOp (S.now steps.old) own.now.call seat }
    requires desk { IsOf (S.now steps.old) desk.now }
    requires seat { seat < desk.now.sizes.seats }
    ensures goes { (l : IsLoadingOp (S.now steps.old) own.now.call seat) →
        HasLoadedOp (S.now steps.old) (S.now steps.new) own.now.call seat l result }
    ensures update { IsUpdate result }
{
    let _own = own.number;
    let mut words = [0; SLOT_WORDS];
    let start = desk.op(seat);
    load_run(steps, start, &mut words);
    read_call(&words)
}

// Loads the op of a seat, which is due, and applies it to the items at hand.
#[inline(always)]
fn take_op<S: Steps>(steps: &mut S, desk: &Desk, own: &Own, seat: u32, word: u64, hand: &mut Hand)
    requires taking { IsTaking (S.now steps.old) own.now.call seat word hand.old }
    requires desk { IsOf (S.now steps.old) desk.now }
    requires seat { seat < desk.now.sizes.seats }
    requires other { seat ≢ desk.now.holder }
    ensures { (t : IsTaking (S.now steps.old) own.now.call seat word hand.old) →
        HasFound t.first (S.now steps.new) own.now.call t.attempt (seat + 1) hand.new t.reply }
{
    let call = load_op(steps, desk, own, seat);
    let at = place_of(&hand.items, call.key());
    let reply = change(&mut hand.items, &desk.rules, &call, at);
    hand.next.push_reserved(Mark {
        word,
        reply: reply_word(Some(reply)),
    });
}

// What another seat announces for the bucket stays in its row, or is applied.
#[inline(always)]
fn find_op<S: Steps>(steps: &mut S, desk: &Desk, own: &Own, seat: u32, hand: &mut Hand)
    requires finding { IsFinding (S.now steps.old) own.now.call seat hand.old }
    requires desk { IsOf (S.now steps.old) desk.now }
    requires bucket { own.now.bucket ≡ bucket_of_call (S.now steps.old).plan own.now.call }
    requires seat { seat < desk.now.sizes.seats }
    requires other { seat ≢ desk.now.holder }
    ensures { (i : IsFinding (S.now steps.old) own.now.call seat hand.old) →
        HasFound i.first (S.now steps.new) own.now.call i.attempt (seat + 1) hand.new i.reply }
{
    let at = desk.announced(seat);
    let announced = steps.load(at);
    if !is_here(announced, own.bucket) {
        return;
    }
    let word = mark_word(seat, announced / CLASSES / 2);
    match mark_in(&hand.marks, word) {
        Some(mark) => hand.next.push_reserved(mark),
        None => take_op(steps, desk, own, seat, word, hand),
    }
}

// Applies the own call, whose key stands at this place. Where it is announced it gets an entry.
#[inline(always)]
fn apply_own(desk: &Desk, own: &Own, announced: bool, at: Option<usize>, hand: &mut Hand) -> Reply
    requires place { MatchOption at (value_at (key_in own.now.call) hand.old.items.items ≡ None)
        (IsPlaceOf (key_in own.now.call) hand.old.items.items) }
    requires update { IsUpdate own.now.call }
    requires number { own.now.number < 2 ^ 43 }
    requires seat { desk.now.holder < 64 }
    requires small { All IsSmallPair hand.old.items.items }
    requires few { length hand.old.next.items < 64 }
    ensures { HasApplied desk.now.rules own.now.call announced desk.now.holder own.now.number hand.old hand.new
        result }
{
    let reply = change(&mut hand.items, &desk.rules, &own.call, at);
    if announced {
        hand.next.push_reserved(Mark {
            word: mark_word(desk.holder, own.number),
            reply: reply_word(Some(reply)),
        });
        return reply;
    }
    reply
}

// Looks at the next seat.
#[inline(always)]
fn find_one<S: Steps>(
    steps: &mut S,
    desk: &Desk,
    own: &Own,
    announced: bool,
    seat: u32,
    reply: Option<Reply>,
    hand: &mut Hand,
) -> Option<Reply>
    requires finding { IsFindingOne (S.now steps.old) own.now.call announced seat hand.old reply }
    requires desk { IsOf (S.now steps.old) desk.now }
    requires bucket { own.now.bucket ≡ bucket_of_call (S.now steps.old).plan own.now.call }
    requires number { own.now.number ≡ (S.now steps.old).now.posted }
    requires few { own.now.number < 2 ^ 43 }
    requires update { IsUpdate own.now.call }
    requires seat { seat < desk.now.sizes.seats }
    ensures { (i : IsFindingOne (S.now steps.old) own.now.call announced seat hand.old reply) →
        Finding i.first (S.now steps.new) own.now.call i.attempt announced (seat + 1) hand.new result }
{
    if seat == desk.holder {
        let at = place_of(&hand.items, own.call.key());
        return Some(apply_own(desk, own, announced, at, hand));
    }
    find_op(steps, desk, own, seat, hand);
    reply
}

/// Finds what all seats announce for this bucket, and applies it, with the own call where the seat's turn is. The reply
/// is that to the own call.
#[inline(always)]
pub fn find_all<S: Steps>(
    steps: &mut S,
    desk: &Desk,
    own: &Own,
    announced: bool,
    hand: &mut Hand,
) -> Option<Reply>
    requires finding { IsFindingAll (S.now steps.old) own.now.call announced hand.old }
    requires desk { IsOf (S.now steps.old) desk.now }
    requires bucket { own.now.bucket ≡ bucket_of_call (S.now steps.old).plan own.now.call }
    requires number { own.now.number ≡ (S.now steps.old).now.posted }
    requires few { own.now.number < 2 ^ 43 }
    requires update { IsUpdate own.now.call }
    requires seat { desk.now.holder < desk.now.sizes.seats }
    ensures { (i : IsFindingAll (S.now steps.old) own.now.call announced hand.old) →
        HasFoundAll i.first (S.now steps.new) own.now.call i.attempt hand.new result }
{
    let mut reply = None;
    for seat in 0..desk.sizes.seats {
        reply = find_one(steps, desk, own, announced, seat, reply, hand);
    }
    reply
}

// The share of the seat in what is pending.
#[inline(always)]
fn own_share(announced: bool) -> u64
    ensures { result ≡ (if announced then 1 else 0) }
{
    if announced { 1 } else { 0 }
}

/// The leg of a try after its row was loaded: what is pending, and then what is announced. The own key stands at this
/// place of the items.
#[inline(always)]
pub fn gather<S: Steps>(
    steps: &mut S,
    desk: &Desk,
    own: &Own,
    announced: bool,
    at: Option<usize>,
    hand: &mut Hand,
) -> Option<Reply>
    requires pending { IsPending (S.now steps.old) own.now.call announced hand.old }
    requires place { MatchOption at (value_at (key_in own.now.call) hand.old.items.items ≡ None)
        (IsPlaceOf (key_in own.now.call) hand.old.items.items) }
    requires desk { IsOf (S.now steps.old) desk.now }
    requires bucket { own.now.bucket ≡ bucket_of_call (S.now steps.old).plan own.now.call }
    requires number { own.now.number ≡ (S.now steps.old).now.posted }
    requires few { own.now.number < 2 ^ 43 }
    requires update { IsUpdate own.now.call }
    requires seat { desk.now.holder < desk.now.sizes.seats }
    ensures { (p : IsPending (S.now steps.old) own.now.call announced hand.old) →
        HasFoundAll (S.now steps.old) (S.now steps.new) own.now.call p.attempt hand.new result }
{
    hand.next.clear();
    let share = own_share(announced);
    let place = desk.pending();
    // Each share stands from before its announcement until that is over. So where no other one is counted, every
    // announcement that was seen by the row's writer is over, and none is due.
    let pending = steps.load(place);
    if pending == share {
        return Some(apply_own(desk, own, announced, at, hand));
    }
    find_all(steps, desk, own, announced, hand)
}
