//! The held look of an update: the row that it holds has its entry.
//!
//! **Words**: those of a hold; then the head of the row, the first word of each entry up to the own one, and its reply.
//! **Keeps**: two announced tries were lost before. So a row was put by a seat that had loaded the bucket word after
//! this seat announced its update, and from then on each row of the bucket has its entry.
//! **Steps**: those of a hold, and two and one for each entry.

ghost use Rattle.std.specs.Prelude.{◌≡◌, ◌+◌, ◌<◌, ◌^◌};
ghost use Rattle.exchange_model.specs.Steps.{Applied, GiveBack, Goes, HeldHead, Over, StoreWant, bucket_of_call};
ghost use Rattle.exchange_calls.specs.Desks.{IsOf};
ghost use Rattle.exchange_calls.specs.Going.{on};
ghost use Rattle.exchange_calls.specs.Items.{asked_again};

use crate::desk::{Desk, ENTRY_WORDS};
use crate::holding::{give_back, hold};
use crate::marks::mark_word;
use crate::own::Own;
use crate::steps::Steps;
use plain_map::Reply;
use step_counts::ITEM_WORDS;
use word_rows::reply_of;

// The reply in the own entry of the row that is held.
#[inline(always)]
fn find_entry<S: Steps>(steps: &mut S, desk: &Desk, own: &Own, row: u64) -> Reply
    requires phase { (S.now steps.old).now.stand ≡ Goes own.now.call (HeldHead row) }
    requires desk { IsOf (S.now steps.old) desk.now }
    requires number { own.now.number ≡ (S.now steps.old).now.posted }
    requires few { own.now.number < 2 ^ 43 }
    requires seat { desk.now.holder < desk.now.sizes.seats }
    requires short { row < 2 ^ 32 }
    ensures { S.now steps.new ≡ on (S.now steps.old) (Goes own.now.call (GiveBack result)) }
{
    let first = desk.row(row);
    let head = steps.load(first);
    let count = desk.count_in(head);
    let entries = desk.entries_in(head);
    let entry = mark_word(desk.holder, own.number);
    let behind = first + 1 + ITEM_WORDS as u64 * count;
    for i in 0..entries {
        let at = behind + ENTRY_WORDS as u64 * i;
        let word = steps.load(at);
        if word == entry {
            let told = steps.load(at + 1);
            let Some(reply) = reply_of(told) else {
                unreachable!()
            };
            return reply;
        }
    }
    unreachable!()
}

/// Holds a row of the bucket, and reads the reply in it. `time` is how often the seat has asked for a hold.
#[inline(always)]
pub fn see_held<S: Steps>(steps: &mut S, desk: &Desk, own: &Own, time: &mut u64) -> Reply
    requires phase { (S.now steps.old).now.stand ≡ Goes own.now.call StoreWant }
    requires desk { IsOf (S.now steps.old) desk.now }
    requires bucket { own.now.bucket ≡ bucket_of_call (S.now steps.old).plan own.now.call }
    requires short { own.now.bucket < 2 ^ 20 }
    requires number { own.now.number ≡ (S.now steps.old).now.posted }
    requires few { own.now.number < 2 ^ 43 }
    requires seat { desk.now.holder < desk.now.sizes.seats }
    requires time { time.old ≡ (S.now steps.old).now.time }
    requires late { time.old < 2 ^ 62 }
    ensures goes { S.now steps.new ≡
        on (asked_again (S.now steps.old)) (Goes own.now.call (Over (Applied result))) }
    ensures time { time.new ≡ time.old + 1 }
{
    let row = hold(steps, desk, time, own.bucket);
    let reply = find_entry(steps, desk, own, row);
    give_back(steps, desk);
    reply
}
