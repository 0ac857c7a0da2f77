//! Whole calls on the table's words.

ghost use Rattle.std.specs.Prelude.{◌≡◌, ◌∷◌, ◌<◌, ◌≤◌, ◌^◌, ◌↔◌, [], Err, IfSome, None, Ok, Some, length, take, true, false};
ghost use Rattle.plain_map.specs.declared.calls.Call.TheVariants.{Lookup};
ghost use Rattle.plain_map.specs.declared.calls.Reply.{Reply as ReplyValue};
ghost use Rattle.plain_map.specs.Updates.{IsUpdate};
ghost use Rattle.exchange_model.specs.Goes.{Called, Copied, Pairs, Refused, Replied};
ghost use Rattle.exchange_model.specs.Words.{word_count};
ghost use Rattle.exchange_model.specs.Worlds.{CanBegin, LOOK_TRIES};
ghost use Rattle.exchange_calls.specs.Desks.{IsOf};
ghost use Rattle.exchange_calls.specs.Items.{ended};
ghost use Rattle.exchange_calls.specs.Seats.{IsSeatOf, told_by_update};
ghost use Rattle.exchange_table.specs.Parties.{going_of, has_hold};
ghost use Rattle.exchange_table.specs.Rule.{plain};
ghost use Rattle.exchange_table.specs.Calls.{HasAnswer, holding_of, untold};
ghost use Rattle.exchange_table.specs.Values.{IsResting, told_by_look, told_by_peek};

use crate::rule::Asked;
use crate::running::{Running, Token, Words};
use crate::stage::Stage;
use exchange_calls::{Desk, SeatState, Updated, copy, look_at, lookup, peek, update};
use plain_map::{Call, Key, Pair, Reply};
use std::marker::PhantomData;

/// A whole lookup of one who can hold.
#[inline(always)]
pub(crate) fn run_lookup<B: Asked>(
    words: &Words,
    token: Token,
    desk: &Desk,
    time: &mut u64,
    key: &Key,
) -> (Token, Reply)
    requires table { token.table_id ≡ words.now.table_id }
    requires size { words.now.table_id.words ≡ word_count (plain words.now.key) }
    requires rests { IsResting words.now.key token.me }
    requires since { B.since ≡ record { table_id = token.table_id; holding = holding_of words.now.key token.me } ∷ [] }
    requires asked { B.asked ≡ Called (Lookup key.now) }
    requires tries { B.tries ≡ LOOK_TRIES }
    requires desk { IsOf (going_of (holding_of words.now.key token.me)) desk.now }
    requires seat { has_hold (holding_of words.now.key token.me).who ≡ true }
    requires time { time.old ≡ (going_of (holding_of words.now.key token.me)).now.time }
    requires late { time.old < 2 ^ 62 }
    ensures table { result.0.table_id ≡ token.table_id }
    ensures rests { IsResting words.now.key result.0.me }
    ensures answer { HasAnswer B.asked (holding_of words.now.key token.me) (holding_of words.now.key result.0.me)
        (Replied result.1) }
    ensures going { going_of (holding_of words.now.key result.0.me)
        ≡ ended (untold (going_of (holding_of words.now.key token.me))) time.new (Replied result.1) }
{
    let mut running: Running<B> = Running {
        words,
        token,
        stage: Stage::Rests,
        marker: PhantomData,
    };
    let reply = lookup(&mut running, desk, time, key);
    (running.into_token(), reply)
}

/// A whole copy of a bucket by one who can hold.
#[inline(always)]
pub(crate) fn run_copy<B: Asked>(
    words: &Words,
    token: Token,
    desk: &Desk,
    time: &mut u64,
    bucket: u64,
    out: &mut [Pair],
) -> (Token, usize)
    requires table { token.table_id ≡ words.now.table_id }
    requires size { words.now.table_id.words ≡ word_count (plain words.now.key) }
    requires rests { IsResting words.now.key token.me }
    requires since { B.since ≡ record { table_id = token.table_id; holding = holding_of words.now.key token.me } ∷ [] }
    requires asked { B.asked ≡ Copied bucket }
    requires tries { B.tries ≡ LOOK_TRIES }
    requires desk { IsOf (going_of (holding_of words.now.key token.me)) desk.now }
    requires seat { has_hold (holding_of words.now.key token.me).who ≡ true }
    requires time { time.old ≡ (going_of (holding_of words.now.key token.me)).now.time }
    requires late { time.old < 2 ^ 62 }
    requires bucket { bucket < 2 ^ desk.now.sizes.depth }
    requires room { desk.now.sizes.items ≤ length out.old }
    ensures table { result.0.table_id ≡ token.table_id }
    ensures rests { IsResting words.now.key result.0.me }
    ensures answer { HasAnswer B.asked (holding_of words.now.key token.me) (holding_of words.now.key result.0.me)
        (Pairs (take result.1 out.new)) }
    ensures few { result.1 ≤ length out.new }
    ensures going { going_of (holding_of words.now.key result.0.me)
        ≡ ended (untold (going_of (holding_of words.now.key token.me))) time.new (Pairs (take result.1 out.new)) }
{
    let mut running: Running<B> = Running {
        words,
        token,
        stage: Stage::Rests,
        marker: PhantomData,
    };
    let count = copy(&mut running, desk, time, bucket, out);
    (running.into_token(), count)
}

/// A whole update of a seat.
#[inline(always)]
pub(crate) fn run_update<B: Asked>(
    words: &Words,
    token: Token,
    desk: &Desk,
    state: &mut SeatState,
    call: &Call,
) -> (Token, Updated)
    requires table { token.table_id ≡ words.now.table_id }
    requires size { words.now.table_id.words ≡ word_count (plain words.now.key) }
    requires rests { IsResting words.now.key token.me }
    requires since { B.since ≡ record { table_id = token.table_id; holding = holding_of words.now.key token.me } ∷ [] }
    requires asked { B.asked ≡ Called call.now }
    requires tries { B.tries ≡ 0 }
    requires desk { IsOf (going_of (holding_of words.now.key token.me)) desk.now }
    requires seat { has_hold (holding_of words.now.key token.me).who ≡ true }
    requires keeps { IsSeatOf (going_of (holding_of words.now.key token.me)) state.old }
    requires can { CanBegin (going_of (holding_of words.now.key token.me)).plan
        (going_of (holding_of words.now.key token.me)).seat (going_of (holding_of words.now.key token.me)).now
        call.now }
    requires update { IsUpdate call.now }
    ensures table { result.0.table_id ≡ token.table_id }
    ensures rests { IsResting words.now.key result.0.me }
    ensures keeps { IsSeatOf (going_of (holding_of words.now.key result.0.me)) state.new }
    ensures answer { HasAnswer B.asked (holding_of words.now.key token.me) (holding_of words.now.key result.0.me)
        (told_by_update result.1) }
    ensures taken { told_by_update result.1 ≡ Refused → ⊥ }
{
    let mut running: Running<B> = Running {
        words,
        token,
        stage: Stage::Rests,
        marker: PhantomData,
    };
    let made = update(&mut running, desk, state, call);
    (running.into_token(), made)
}

/// A whole lookup of a reader, with so many tries.
#[inline(always)]
pub(crate) fn run_peek<B: Asked>(
    words: &Words,
    token: Token,
    desk: &Desk,
    tries: u64,
    key: &Key,
) -> (Token, Option<Reply>)
    requires table { token.table_id ≡ words.now.table_id }
    requires size { words.now.table_id.words ≡ word_count (plain words.now.key) }
    requires rests { IsResting words.now.key token.me }
    requires since { B.since ≡ record { table_id = token.table_id; holding = holding_of words.now.key token.me } ∷ [] }
    requires asked { B.asked ≡ Called (Lookup key.now) }
    requires tries { B.tries ≡ tries }
    requires some_tries { 1 ≤ tries }
    requires desk { IsOf (going_of (holding_of words.now.key token.me)) desk.now }
    requires reader { has_hold (holding_of words.now.key token.me).who ≡ false }
    ensures table { result.0.table_id ≡ token.table_id }
    ensures rests { IsResting words.now.key result.0.me }
    ensures answer { HasAnswer B.asked (holding_of words.now.key token.me) (holding_of words.now.key result.0.me)
        (told_by_peek result.1) }
{
    let mut running: Running<B> = Running {
        words,
        token,
        stage: Stage::Rests,
        marker: PhantomData,
    };
    let reply = peek(&mut running, desk, tries, key);
    (running.into_token(), reply)
}

/// A whole copy of a bucket by a reader, with so many tries.
#[inline(always)]
pub(crate) fn run_look<B: Asked>(
    words: &Words,
    token: Token,
    desk: &Desk,
    tries: u64,
    bucket: u64,
    out: &mut [Pair],
) -> (Token, Option<usize>)
    requires table { token.table_id ≡ words.now.table_id }
    requires size { words.now.table_id.words ≡ word_count (plain words.now.key) }
    requires rests { IsResting words.now.key token.me }
    requires since { B.since ≡ record { table_id = token.table_id; holding = holding_of words.now.key token.me } ∷ [] }
    requires asked { B.asked ≡ Copied bucket }
    requires tries { B.tries ≡ tries }
    requires some_tries { 1 ≤ tries }
    requires desk { IsOf (going_of (holding_of words.now.key token.me)) desk.now }
    requires reader { has_hold (holding_of words.now.key token.me).who ≡ false }
    requires bucket { bucket < 2 ^ desk.now.sizes.depth }
    requires room { desk.now.sizes.items ≤ length out.old }
    ensures table { result.0.table_id ≡ token.table_id }
    ensures rests { IsResting words.now.key result.0.me }
    ensures answer { HasAnswer B.asked (holding_of words.now.key token.me) (holding_of words.now.key result.0.me)
        (told_by_look result.1 out.new) }
    ensures few { IfSome result.1 (λ count. count ≤ length out.new) }
{
    let mut running: Running<B> = Running {
        words,
        token,
        stage: Stage::Rests,
        marker: PhantomData,
    };
    let count = look_at(&mut running, desk, tries, bucket, out);
    (running.into_token(), count)
}
