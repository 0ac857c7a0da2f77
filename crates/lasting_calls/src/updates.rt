//! A whole update, from its op to its reply.
//!
//! **Words**: the seat's own op, announcement, want and hold words and its free row are stored; the words of its bucket
//! are loaded, and what others announce; the bucket word and the own hold word are exchanged.
//! **Keeps**: the row that a seat holds has the update, since two tries were lost after it was announced.
//! **Steps**: those of the run, at most `update_bound` with the piece of a sweep before them.

ghost use Rattle.std.specs.Prelude.{◌≡◌, ◌+◌, ◌<◌, ◌^◌};
ghost use Rattle.lasting_model.specs.Goes.{Ends};
ghost use Rattle.lasting_model.specs.Steps.{Goes, StoreOp, StoreWant};
ghost use Rattle.lasting_calls.specs.Desks.{IsOf};
ghost use Rattle.lasting_calls.specs.Items.{asked_again};
ghost use Rattle.lasting_calls.specs.Updates.{IsOwn, answered_by, making, update_of};

use crate::announcing::announce;
use crate::desk::Desk;
use crate::holding::hold;
use crate::own::Own;
use crate::room::MOST_WORDS;
use crate::steps::Steps;
use crate::tries::{Tried, try_update};
use bucket_states::Op;
use plain_map::{MOST_SEATS, Reply};
use step_counts::SEAT_WORDS;
use word_rows::reply_of;

// The held look: the row that is held has the update.
#[inline(always)]
fn see_held<S: Steps>(steps: &mut S, desk: &Desk, own: &Own, time: &mut u64) -> Reply
    requires phase { (S.now steps.old).now.stand ≡ Goes (update_of own.now) StoreWant }
    requires desk { IsOf (S.now steps.old) desk.now }
    requires own { IsOwn (S.now steps.old) own.now }
    requires time { time.old ≡ (S.now steps.old).now.time }
    requires late { time.old < 2 ^ 62 }
    ensures told { S.now steps.new ≡ making (asked_again (S.now steps.old)) (update_of own.now) (Ends result) }
    ensures time { time.new ≡ time.old + 1 }
{
    let row = hold(steps, desk, time, own.bucket);
    let first = desk.row(row);
    let at = first + 1 + SEAT_WORDS as u64 * desk.seat as u64;
    let _number = steps.load(at);
    let word = steps.load(at + 1);
    let Some(reply) = reply_of(word) else {
        unreachable!()
    };
    reply
}

/// Carries the update out, and tells whether its row is published. `time` is how often the seat has asked for a hold.
#[inline(always)]
pub fn carry_out<S: Steps>(
    steps: &mut S,
    desk: &Desk,
    own: &Own,
    room: &mut [u64; MOST_WORDS],
    ops: &mut [Option<Op>; MOST_SEATS],
    time: &mut u64,
) -> (Reply, bool)
    requires phase { (S.now steps.old).now.stand ≡ Goes (update_of own.now) (StoreOp 0) }
    requires desk { IsOf (S.now steps.old) desk.now }
    requires own { IsOwn (S.now steps.old) own.now }
    requires time { time.old ≡ (S.now steps.old).now.time }
    requires late { time.old < 2 ^ 62 }
    ensures told { S.now steps.new ≡ answered_by (S.now steps.old) own.now time.new result.0 result.1 }
{
    announce(steps, desk, own);
    match try_update(steps, desk, own, room, ops, 1) {
        Tried::Made(reply) => return (reply, true),
        Tried::Seen(reply) => return (reply, false),
        Tried::Lost => {}
    }
    match try_update(steps, desk, own, room, ops, 2) {
        Tried::Made(reply) => return (reply, true),
        Tried::Seen(reply) => return (reply, false),
        Tried::Lost => {}
    }
    let reply = see_held(steps, desk, own, time);
    (reply, false)
}
