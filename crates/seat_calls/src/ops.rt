//! The leg of a try that finds what all seats announce.
//!
//! **Words**: each seat's announcement and the op row that it names. All are loaded, none is stored.
//! **Keeps**: a try takes this leg after it has loaded the word that it will exchange, a bucket word or the root. So if
//! the exchange happens, it has every op that was announced before that word was loaded. All helping rests on this
//! order of loads. In the proof: the fields `late` of `Found` and `DirFound` in `run_invariant/proofs/Invariant.antt`.
//! **Steps**: at most `1 + OP_WORDS` a seat.

ghost use Rattle.std.specs.Prelude.{◌≡◌, ◌+◌, ◌*◌, ◌<◌, ◌≤◌, ◌^◌, [], IfSome, Some, length};
ghost use Rattle.word_rows.specs.Places.{place};
ghost use Rattle.word_rows.specs.declared.addresses.Address.TheVariants.{OpWord};
ghost use Rattle.bucket_states.specs.Values.{AreUpdates, IsUpdate};
ghost use Rattle.table_model.specs.Setup.{seats_of};
ghost use Rattle.table_model.specs.Goes.{more, op_in_words};
ghost use Rattle.table_model.specs.Fits.{IsOpSoFar, Makes};
ghost use Rattle.seat_calls.specs.Going.{later};
ghost use Rattle.seat_calls.specs.Desks.{IsOf};
ghost use Rattle.seat_calls.specs.Found.{IsSmallOp};
ghost use Rattle.seat_calls.specs.Tries.{after_all_ops, after_ops, announcing, reading};

use crate::asking::Trying;
use crate::desk::Desk;
use crate::limits::FINDING_STEPS;
use crate::runs::load_run;
use crate::steps::Steps;
use bucket_states::Op;
use plain_map::MOST_SEATS;
use step_counts::OP_WORDS;
use word_rows::{read_op, row_laws};

// The op that these words spell.
#[inline(always)]
fn read_found(words: &[u64; OP_WORDS], seat: usize) -> Op
    requires spelled { IsOpSoFar words.now }
    requires seats { seat < MOST_SEATS }
    ensures is { result ≡ op_in_words seat words.now }
    ensures small { IsSmallOp result }
{
    row_laws();
    let Some(row) = read_op(words) else {
        unreachable!()
    };
    Op {
        seat: seat as u32,
        number: row.number,
        call: row.call,
    }
}

// Loads an op row.
#[inline(always)]
fn load_op<S: Steps, A: Trying>(
    steps: &mut S,
    start: u64,
    attempt: &A,
    found: &[Option<Op>],
    op: u64,
) -> Op
    requires phase { (S.now steps.old).phase ≡
        reading (A.round attempt.now) (A.attempt attempt.now (S.now steps.old).setup) found.now op [] }
    requires start { start ≡ place (S.now steps.old).setup.shape (OpWord op 0) }
    requires few { start < 2 ^ 63 }
    requires seats { length found.now < MOST_SEATS }
    ensures goes { S.now steps.new ≡ later (S.now steps.old) OP_WORDS
        (after_ops (S.now steps.old).setup (A.round attempt.now) (A.attempt attempt.now (S.now steps.old).setup)
        (more found.now (Some result))) }
    ensures makes { Makes (S.now steps.old).setup
        (after_ops (S.now steps.old).setup (A.round attempt.now) (A.attempt attempt.now (S.now steps.old).setup)
        (more found.now (Some result))) }
    ensures small { IsSmallOp result }
{
    let mut words = [0; OP_WORDS];
    load_run(steps, start, &mut words);
    read_found(&words, found.len())
}

// Finds what the next seat announces, and tells how many steps that took.
#[inline(always)]
fn find_op<S: Steps, A: Trying>(
    steps: &mut S,
    desk: &Desk,
    attempt: &A,
    found: &[Option<Op>],
) -> (Option<Op>, u64)
    requires phase { (S.now steps.old).phase ≡
        announcing (A.round attempt.now) (A.attempt attempt.now (S.now steps.old).setup) found.now }
    requires desk { IsOf (S.now steps.old) desk.now }
    ensures goes { S.now steps.new ≡ later (S.now steps.old) result.1
        (after_ops (S.now steps.old).setup (A.round attempt.now) (A.attempt attempt.now (S.now steps.old).setup)
        (more found.now result.0)) }
    ensures makes { Makes (S.now steps.old).setup
        (after_ops (S.now steps.old).setup (A.round attempt.now) (A.attempt attempt.now (S.now steps.old).setup)
        (more found.now result.0)) }
    ensures small { IfSome result.0 IsSmallOp }
    ensures few { result.1 ≤ 1 + OP_WORDS }
{
    steps.stands();
    let word = steps.load(desk.layout.announcement(found.len() as u32));
    if word == 0 {
        return (None, 1);
    }
    steps.stands();
    let start = desk.layout.op_word(word - 1, 0);
    let op = load_op(steps, start, attempt, found, word - 1);
    (Some(op), 1 + OP_WORDS as u64)
}

/// Finds what all seats announce, and tells how many steps that took.
#[inline(always)]
pub fn find_ops<S: Steps, A: Trying>(
    steps: &mut S,
    desk: &Desk,
    attempt: &A,
    ops: &mut [Option<Op>],
) -> u64
    requires phase { (S.now steps.old).phase ≡
        announcing (A.round attempt.now) (A.attempt attempt.now (S.now steps.old).setup) [] }
    requires desk { IsOf (S.now steps.old) desk.now }
    requires seats { length ops.old ≡ seats_of (S.now steps.old).setup }
    ensures goes { S.now steps.new ≡ later (S.now steps.old) result
        (after_all_ops (S.now steps.old).setup (A.round attempt.now)
        (A.attempt attempt.now (S.now steps.old).setup) ops.new) }
    ensures makes { Makes (S.now steps.old).setup
        (after_all_ops (S.now steps.old).setup (A.round attempt.now)
        (A.attempt attempt.now (S.now steps.old).setup) ops.new) }
    ensures updates { AreUpdates ops.new }
    ensures few { result ≤ FINDING_STEPS }
    ensures len { length ops.new ≡ length ops.old }
{
    let mut spent = 0;
    for i in 0..ops.len() {
        let (op, more) = find_op(steps, desk, attempt, &ops[..i]);
        ops[i] = op;
        spent += more;
    }
    spent
}
