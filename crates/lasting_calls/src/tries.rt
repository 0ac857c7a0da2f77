//! A try of an update.
//!
//! **Words**: loads the bucket word and its row, the announcements and the ops that are due; stores the seat's own free
//! row; exchanges the bucket word.
//! **Keeps**: the row that is put is the row that was loaded, with every op that was found, this seat's own among them.
//! **Steps**: at most `try_steps`.
//! **Why it ends**: whoever changes the bucket word has loaded it. Once two tries are lost, a row was put by a seat
//! that had loaded that word after this seat announced its update. So from then on each row of the bucket has it.

ghost use Rattle.std.specs.Prelude.{◌≡◌, ◌+◌, ◌*◌, ◌<◌, ◌≤◌, ◌^◌, [], IfSome, Some, None, length};
ghost use Rattle.step_counts.specs.StepCounts.{bucket_row_words};
ghost use Rattle.lasting_model.specs.Plans.{ample};
ghost use Rattle.lasting_model.specs.Steps.{Goes, LoadWord};
ghost use Rattle.lasting_model.specs.Goes.{found_so_far, lost};
ghost use Rattle.lasting_model.specs.Worlds.{stand_at};
ghost use Rattle.lasting_calls.specs.Desks.{IsOf};
ghost use Rattle.lasting_calls.specs.Updates.{HasLooked, IsAtHand, IsOwn, making, tried, tried_to, update_of};

use crate::attempt::Attempt;
use crate::desk::{Desk, ROW_LIMIT};
use crate::ops::find_ops;
use crate::own::Own;
use crate::room::MOST_WORDS;
use crate::rows::{load_row, store_row};
use crate::steps::Steps;
use crate::words::{applied_in, reply_in};
use bucket_machine::change_row;
use bucket_states::Op;
use plain_map::{MOST_SEATS, Reply};

/// How a try went.
#[derive(Clone, Copy)]
pub enum Tried {
    /// The new row was put, and has the update with this reply.
    Made(Reply),
    /// The row that was loaded has it.
    Seen(Reply),
    /// The bucket word has changed since it was loaded.
    Lost,
}

// Looks at the bucket: the word that was loaded, if the words of its row are of one writing.
#[inline(always)]
fn look<S: Steps>(
    steps: &mut S,
    desk: &Desk,
    own: &Own,
    turn: u64,
    words: &mut [u64],
) -> Option<u64>
    requires phase { (S.now steps.old).now.stand ≡ Goes (update_of own.now) (LoadWord turn) }
    requires desk { IsOf (S.now steps.old) desk.now }
    requires own { IsOwn (S.now steps.old) own.now }
    requires words { length words.old ≡ bucket_row_words desk.now.settings }
    ensures seen { IfSome result (λ word.
        HasLooked (S.now steps.old) (S.now steps.new) desk.now own.now turn word words.new) }
    ensures lost { result ≡ None → S.now steps.new ≡ making (S.now steps.old) (update_of own.now) (lost turn) }
    ensures len { length words.new ≡ length words.old }
{
    let place = desk.bucket(own.bucket);
    let word = steps.load(place);
    load_row(steps, desk, own, turn, word, words);
    // Its owner stores the generation before it writes the row anew. So if it is the same after all other words, they
    // are of one writing.
    let first = desk.row(word % ROW_LIMIT);
    let generation = steps.load(first);
    if generation == word / ROW_LIMIT {
        Some(word)
    } else {
        None
    }
}

// Makes the bucket after all ops the table's.
#[inline(always)]
fn change_bucket<S: Steps>(
    steps: &mut S,
    desk: &Desk,
    own: &Own,
    turn: u64,
    word: u64,
    words: &mut [u64],
    ops: &mut [Option<Op>; MOST_SEATS],
) -> Tried
    requires phase { (S.now steps.old).now.stand ≡ stand_at (update_of own.now)
        (found_so_far (ample (S.now steps.old).plan) (S.now steps.old).seat (update_of own.now)
        (tried desk.now.settings turn word words.old) []) }
    requires desk { IsOf (S.now steps.old) desk.now }
    requires own { IsOwn (S.now steps.old) own.now }
    requires words { length words.old ≡ bucket_row_words desk.now.settings }
    requires hand { IsAtHand (S.now steps.old) desk.now words.old }
    ensures goes { S.now steps.new ≡ tried_to (S.now steps.old) own.now turn result }
{
    let seats = desk.settings.seats as usize;
    let found = &mut ops[..seats];
    let attempt = Attempt { turn, word, words };
    find_ops(steps, desk, own, &attempt, found);
    change_row(&desk.settings, &desk.rules, &own.key, 0, found, words);
    // No word names this row, and who still reads it finds its new generation. After a lost exchange it is free still.
    store_row(steps, desk, own, words);
    let place = desk.bucket(own.bucket);
    let new = own.generation * ROW_LIMIT + own.row;
    // A bucket word never has one value twice. So if it is still there, nothing was put since it was loaded.
    if steps.exchange(place, word, new) != word {
        return Tried::Lost;
    }
    let Some(reply) = reply_in(desk, words) else {
        unreachable!()
    };
    Tried::Made(reply)
}

/// A whole try.
#[inline(always)]
pub fn try_update<S: Steps>(
    steps: &mut S,
    desk: &Desk,
    own: &Own,
    room: &mut [u64; MOST_WORDS],
    ops: &mut [Option<Op>; MOST_SEATS],
    turn: u64,
) -> Tried
    requires phase { (S.now steps.old).now.stand ≡ Goes (update_of own.now) (LoadWord turn) }
    requires desk { IsOf (S.now steps.old) desk.now }
    requires own { IsOwn (S.now steps.old) own.now }
    ensures goes { S.now steps.new ≡ tried_to (S.now steps.old) own.now turn result }
{
    let size = desk.hand_words();
    let words = &mut room[..size];
    let Some(word) = look(steps, desk, own, turn, words) else {
        return Tried::Lost;
    };
    if own.number <= applied_in(desk, words) {
        let Some(reply) = reply_in(desk, words) else {
            unreachable!()
        };
        return Tried::Seen(reply);
    }
    change_bucket(steps, desk, own, turn, word, words, ops)
}
