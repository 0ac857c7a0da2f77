//! A bucket try.
//!
//! **Words**: loads the bucket word of the round and its row, the announcements and their op rows; stores a bucket row
//! of the seat's own; exchanges the bucket word.
//! **Keeps**: the row that is put is the row that was loaded, with every op that was found, this seat's own among them.
//! **Steps**: at most `TRY_STEPS`.
//! **Why it ends**: an exchange is lost only to another seat's row. If the first one is lost, the row that the second
//! try loads was put after this seat's announcement. If the second one is lost too, whoever won it had loaded that row,
//! and after it the announcements, this seat's among them. So from then on each row of the bucket has the op or is
//! frozen, and the third look finds this. In the proof: `Helped.helped` in `run_invariant/proofs/Shared.antt`, and
//! `third` in `run_laws/proofs/BucketStep.antt`; as promises `NeverStuck` and `LostBucketsShow`.

ghost use Rattle.std.specs.Prelude.{◌≡◌, ◌+◌, ◌<◌, ◌≤◌, ◌^◌, [], Some, length};
ghost use Rattle.step_counts.specs.StepCounts.{bucket_row_words};
ghost use Rattle.word_rows.specs.BucketWords.{SpellSomeBucket};
ghost use Rattle.table_model.specs.Setup.{settings_of};
ghost use Rattle.table_model.specs.Phases.{TryAnnouncement, TryWord};
ghost use Rattle.table_model.specs.Goes.{after_row, bucket_in_words};
ghost use Rattle.table_model.specs.Fits.{Makes};
ghost use Rattle.seat_calls.specs.Going.{later, went};
ghost use Rattle.seat_calls.specs.Desks.{IsOf};
ghost use Rattle.seat_calls.specs.Owns.{IsOwn};
ghost use Rattle.seat_calls.specs.Tries.{tried};
ghost use Rattle.seat_calls.specs.Outcomes.{IsEarly, outcome};

use crate::asking::Attempt;
use crate::desk::Desk;
use crate::limits::{CHANGE_STEPS, MOST_WORDS, TRY_STEPS};
use crate::ops::find_ops;
use crate::own::Own;
use crate::rows::{load_row, store_row};
use crate::steps::Steps;
use crate::words::{applied_in, change, reply_in};
use bucket_states::Op;
use plain_map::{MOST_SEATS, Reply};
use step_counts::SeatRows;
use table_model::Round;

/// How a try went.
#[derive(Clone, Copy)]
pub enum Tried {
    /// The call is applied in the bucket: the reply, and the row.
    Answered(Reply, u64),
    /// The bucket is frozen without the call.
    ToDirectory,
    /// The exchange was lost. The first row that the round loaded.
    Again(u64),
}

/// Loads the bucket word and the row of a try: the row, and the first row of the round.
#[inline(always)]
pub fn look_at<S: Steps>(
    steps: &mut S,
    desk: &Desk,
    round: &Round,
    turn: u64,
    first: Option<u64>,
    words: &mut [u64],
) -> (u64, u64)
    requires phase { (S.now steps.old).phase ≡ TryWord round.now turn first }
    requires desk { IsOf (S.now steps.old) desk.now }
    requires words { length words.old ≡ bucket_row_words (settings_of (S.now steps.old).setup) }
    ensures goes { S.now steps.new ≡
        later (S.now steps.old) (1 + bucket_row_words (settings_of (S.now steps.old).setup))
        (after_row (S.now steps.old).seat (S.now steps.old).flight round.now
        (tried turn result.1 result.0 (bucket_in_words (S.now steps.old).setup words.new))) }
    ensures spelled { SpellSomeBucket (settings_of (S.now steps.old).setup) words.new }
    ensures makes { Makes (S.now steps.old).setup
        (after_row (S.now steps.old).seat (S.now steps.old).flight round.now
        (tried turn result.1 result.0 (bucket_in_words (S.now steps.old).setup words.new))) }
    ensures len { length words.new ≡ length words.old }
{
    steps.stands();
    // The word first, and all else of the try after it: the row, and the announcements.
    let row = steps.load(desk.layout.bucket_word(round.bucket));
    let first = first.unwrap_or(row);
    load_row(steps, desk, row, words);
    (row, first)
}

/// Makes the bucket after all ops the table's, and tells how many steps that took.
#[tactic(auto, unfolding(table_model::specs::Setup::next_number))]
#[inline(always)]
pub fn change_bucket<S: Steps>(
    steps: &mut S,
    desk: &Desk,
    own: &Own,
    used: &mut SeatRows,
    round: Round,
    turn: u64,
    first: u64,
    row: u64,
    words: &mut [u64],
    ops: &mut [Option<Op>; MOST_SEATS],
) -> (Tried, u64)
    requires phase { (S.now steps.old).phase ≡
        TryAnnouncement round (tried turn first row (bucket_in_words (S.now steps.old).setup words.old)) [] }
    requires desk { IsOf (S.now steps.old) desk.now }
    requires used { used.old ≡ (S.now steps.old).account.used }
    requires own { IsOwn (S.now steps.old) own.now }
    requires words { length words.old ≡ bucket_row_words (settings_of (S.now steps.old).setup) }
    requires spelled { SpellSomeBucket (settings_of (S.now steps.old).setup) words.old }
    ensures goes { S.now steps.new ≡ went (S.now steps.old) used.new result.1 (outcome round turn result.0) }
    ensures few { result.1 ≤ CHANGE_STEPS }
    ensures len { length words.new ≡ length words.old }
{
    let seats = desk.layout.settings().seats as usize;
    let found = &mut ops[..seats];
    let attempt = Attempt {
        round,
        turn,
        first,
        row,
        words,
    };
    let spent = find_ops(steps, desk, &attempt, found);
    change(desk, &own.key, row, found, words);
    steps.stands();
    // No word names this row yet, so nobody reads it. After a lost exchange the next try writes it anew.
    let new = desk.first.bucket_rows + used.bucket_rows;
    store_row(steps, desk, new, words);
    steps.stands();
    let all = spent + words.len() as u64 + 1;
    // No word returns to a row that it has left. So if the row is still there, nothing was put since it was loaded.
    if steps.exchange(desk.layout.bucket_word(round.bucket), row, new) != row {
        return (Tried::Again(first), all);
    }
    used.bucket_rows += 1;
    if own.number as u64 <= applied_in(desk, words) {
        let Some(reply) = reply_in(desk, words) else {
            unreachable!()
        };
        return (Tried::Answered(reply, new), all);
    }
    (Tried::ToDirectory, all)
}

/// A whole bucket try, and how many steps it took.
#[inline(always)]
pub fn try_bucket<S: Steps>(
    steps: &mut S,
    desk: &Desk,
    room: &mut [u64; MOST_WORDS],
    ops: &mut [Option<Op>; MOST_SEATS],
    own: &Own,
    used: &mut SeatRows,
    round: Round,
    turn: u64,
    first: Option<u64>,
) -> (Tried, u64)
    requires phase { (S.now steps.old).phase ≡ TryWord round turn first }
    requires desk { IsOf (S.now steps.old) desk.now }
    requires used { used.old ≡ (S.now steps.old).account.used }
    requires own { IsOwn (S.now steps.old) own.now }
    ensures goes { S.now steps.new ≡ went (S.now steps.old) used.new result.1 (outcome round turn result.0) }
    ensures early { IsEarly turn result.0 }
    ensures few { result.1 ≤ TRY_STEPS }
{
    let size = desk.row_length();
    let words = &mut room[..size];
    let (row, first) = look_at(steps, desk, &round, turn, first, words);
    let spent = 1 + size as u64;
    if own.number as u64 <= applied_in(desk, words) {
        let Some(reply) = reply_in(desk, words) else {
            unreachable!()
        };
        return (Tried::Answered(reply, row), spent);
    }
    if words[3] == 1 {
        return (Tried::ToDirectory, spent);
    }
    let (tried, more) = change_bucket(steps, desk, own, used, round, turn, first, row, words, ops);
    (tried, spent + more)
}
