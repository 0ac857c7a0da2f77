//! The leg of a try that finds what all seats announce.
//!
//! **Words**: the announcement of each other seat, and its op where that is due here. All are loaded, none is stored.
//! **Keeps**: a try takes this leg after it has loaded the word that it will exchange. So if the exchange happens, it
//! has every op that was announced for this bucket before that word was loaded.
//! **Steps**: one for each other seat, and one for each word of an op that is due.

ghost use Rattle.std.specs.Prelude.{◌≡◌, ◌+◌, ◌*◌, ◌<◌, ◌≤◌, ◌^◌, [], IfSome, Some, length};
ghost use Rattle.step_counts.specs.StepCounts.{bucket_row_words};
ghost use Rattle.plain_map.specs.Updates.{number_limit};
ghost use Rattle.bucket_states.specs.Values.{AreUpdates, IsUpdate};
ghost use Rattle.table_model.specs.Goes.{more};
ghost use Rattle.lasting_model.specs.Plans.{ample};
ghost use Rattle.lasting_model.specs.Codes.{call_in, update_in};
ghost use Rattle.lasting_model.specs.Steps.{Goes, LoadAnnounced, LoadOp, StoreRow, is_due};
ghost use Rattle.lasting_model.specs.Goes.{found_so_far};
ghost use Rattle.lasting_model.specs.Worlds.{stand_at};
ghost use Rattle.lasting_calls.specs.Going.{on};
ghost use Rattle.lasting_calls.specs.Desks.{IsOf};
ghost use Rattle.lasting_calls.specs.Updates.{IsOwn, IsSmallOp, making, state_at, trying, update_of};

use crate::attempt::Attempt;
use crate::desk::{CLASSES, Desk, SLOT_WORDS};
use crate::own::Own;
use crate::runs::load_run;
use crate::steps::Steps;
use bucket_states::Op;
use plain_map::{Call, KEY_WORDS, VALUE_LIMIT};
use step_counts::{BUCKET_HEAD_WORDS, ITEM_WORDS, SEAT_WORDS};
use word_rows::{COUNT, INSERT, PUT, TALLY, read_key};

// The call that these words spell. If they are of several ops the exchange of this try is lost, so any call will do.
#[inline(always)]
fn read_call(words: &[u64; SLOT_WORDS]) -> Call
    ensures call { result ≡ call_in words.now }
    ensures update { IsUpdate result }
{
    let key = read_key(&words[1..1 + KEY_WORDS]);
    let value = words[1 + KEY_WORDS] % VALUE_LIMIT;
    let amount = words[0] / 8;
    match words[0] % 8 {
        INSERT => Call::Insert(key, value),
        TALLY => Call::Tally(key, value),
        COUNT => Call::Count(key, value, amount),
        PUT => Call::Put(key, value),
        _ => Call::Remove(key),
    }
}

// Whether what a seat announces is for this bucket, and not in it yet.
#[inline(always)]
fn is_due(desk: &Desk, bucket: u64, words: &[u64], seat: usize, announced: u64) -> bool
    requires words { length words.now ≡ bucket_row_words desk.now.settings }
    requires seat { seat < desk.now.settings.seats }
    ensures { result ≡ is_due bucket (state_at desk.now.settings words.now) seat announced }
{
    let at = BUCKET_HEAD_WORDS + ITEM_WORDS * desk.settings.items as usize + SEAT_WORDS * seat;
    announced % CLASSES == bucket && words[at] < announced / CLASSES
}

// Loads the op of the next seat.
#[inline(always)]
fn load_op<S: Steps>(
    steps: &mut S,
    desk: &Desk,
    own: &Own,
    attempt: &Attempt,
    found: &[Option<Op>],
    announced: u64,
) -> Op
    requires phase { (S.now steps.old).now.stand ≡
        Goes (update_of own.now) (LoadOp (trying desk.now.settings attempt.now) found.now announced []) }
    requires desk { IsOf (S.now steps.old) desk.now }
    requires seats { length found.now < desk.now.settings.seats }
    requires few { update_in announced < number_limit }
    ensures goes { S.now steps.new ≡ making (S.now steps.old) (update_of own.now)
        (found_so_far (ample (S.now steps.old).plan) (S.now steps.old).seat (update_of own.now)
        (trying desk.now.settings attempt.now) (more found.now (Some result))) }
    ensures small { IsSmallOp result }
{
    let seat = found.len() as u32;
    let mut words = [0; SLOT_WORDS];
    let start = desk.op(seat);
    load_run(steps, start, &mut words);
    Op {
        seat,
        number: announced / CLASSES,
        call: read_call(&words),
    }
}

// Finds what the next seat announces for this bucket.
#[inline(always)]
fn find_op<S: Steps>(
    steps: &mut S,
    desk: &Desk,
    own: &Own,
    attempt: &Attempt,
    found: &[Option<Op>],
) -> Option<Op>
    requires phase { (S.now steps.old).now.stand ≡
        Goes (update_of own.now) (LoadAnnounced (trying desk.now.settings attempt.now) found.now) }
    requires desk { IsOf (S.now steps.old) desk.now }
    requires own { IsOwn (S.now steps.old) own.now }
    requires words { length attempt.now.words.now ≡ bucket_row_words desk.now.settings }
    requires seats { length found.now < desk.now.settings.seats }
    ensures goes { S.now steps.new ≡ making (S.now steps.old) (update_of own.now)
        (found_so_far (ample (S.now steps.old).plan) (S.now steps.old).seat (update_of own.now)
        (trying desk.now.settings attempt.now) (more found.now result)) }
    ensures small { IfSome result IsSmallOp }
{
    let at = desk.announced(found.len() as u32);
    let word = steps.load(at);
    if is_due(desk, own.bucket, attempt.words, found.len(), word) {
        Some(load_op(steps, desk, own, attempt, found, word))
    } else {
        None
    }
}

/// Finds what all seats announce for this bucket. The seat's own op is known.
#[inline(always)]
pub fn find_ops<S: Steps>(
    steps: &mut S,
    desk: &Desk,
    own: &Own,
    attempt: &Attempt,
    ops: &mut [Option<Op>],
)
    requires phase { (S.now steps.old).now.stand ≡ stand_at (update_of own.now)
        (found_so_far (ample (S.now steps.old).plan) (S.now steps.old).seat (update_of own.now)
        (trying desk.now.settings attempt.now) []) }
    requires desk { IsOf (S.now steps.old) desk.now }
    requires own { IsOwn (S.now steps.old) own.now }
    requires words { length attempt.now.words.now ≡ bucket_row_words desk.now.settings }
    requires seats { length ops.old ≡ desk.now.settings.seats }
    ensures goes { S.now steps.new ≡ on (S.now steps.old)
        (Goes (update_of own.now) (StoreRow (trying desk.now.settings attempt.now) ops.new 0)) }
    ensures updates { AreUpdates ops.new }
    ensures all { length ops.new ≡ desk.now.settings.seats }
    ensures len { length ops.new ≡ length ops.old }
{
    for i in 0..ops.len() {
        if i == desk.seat as usize {
            ops[i] = Some(Op {
                seat: desk.seat,
                number: own.number,
                call: own.call,
            });
            continue;
        }
        let op = find_op(steps, desk, own, attempt, &ops[..i]);
        ops[i] = op;
    }
}
