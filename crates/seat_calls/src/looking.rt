//! The leg of a lookup at the row of its bucket.
//!
//! The row that the word names is published and never changes, even if the bucket has got another one since. The answer
//! is that of this row; in the order the lookup stands after it and before the next one.

ghost use Rattle.std.specs.Prelude.{◌≡◌, ◌+◌, ◌*◌, ◌<◌, ◌≤◌, ◌^◌, []};
ghost use Rattle.std.specs.Option.{option_map_or};
ghost use Rattle.plain_map.specs.declared.calls.Call.TheVariants.{Lookup};
ghost use Rattle.word_rows.specs.Places.{place};
ghost use Rattle.word_rows.specs.declared.addresses.Address.TheVariants.{BucketRowWord};
ghost use Rattle.bucket_states.specs.Items.{reply_in};
ghost use Rattle.table_model.specs.Phases.{LookWord, StoreDone};
ghost use Rattle.table_model.specs.Goes.{after_items};
ghost use Rattle.seat_calls.specs.Going.{later};
ghost use Rattle.seat_calls.specs.Items.{or_found};
ghost use Rattle.seat_calls.specs.Desks.{IsOf};

use crate::desk::Desk;
use crate::runs::load_run;
use crate::steps::Steps;
use plain_map::{Key, Pair, Reply};
use step_counts::{BUCKET_HEAD_WORDS, COUNT_PLACE, ITEM_WORDS};
use word_rows::read_pair;

// What was found before, or the value of this pair.
#[inline(always)]
fn first_of(found: Option<u64>, key: &Key, pair: &Pair) -> Option<u64>
    ensures { result ≡ or_found found key.now pair.now }
{
    match found {
        Some(value) => Some(value),
        None if pair.key == *key => Some(pair.value),
        None => None,
    }
}

/// Loads a row's items one by one: the value of the key among them. It needs no room.
#[tactic(auto, unfolding(bucket_states::specs::Items::reply_in), using(crate::proofs::ItemLemmas::found_by_number))]
#[inline(always)]
pub fn find_item<S: Steps>(
    steps: &mut S,
    start: u64,
    row: u64,
    count: u64,
    key: &Key,
) -> Option<u64>
    requires phase { (S.now steps.old).phase ≡
        after_items (S.now steps.old).setup (S.now steps.old).flight row count [] }
    requires call { (S.now steps.old).flight.call ≡ Lookup key.now }
    requires start { start ≡ place (S.now steps.old).setup.shape (BucketRowWord row BUCKET_HEAD_WORDS) }
    requires room { start + count * ITEM_WORDS < 2 ^ 64 }
    ensures { S.now steps.new ≡
        later (S.now steps.old) (count * ITEM_WORDS) (StoreDone (option_map_or Reply.Found result Reply.Absent) row) }
{
    let mut found = None;
    for i in 0..count {
        let mut words = [0; ITEM_WORDS];
        load_run(steps, start + ITEM_WORDS as u64 * i, &mut words);
        found = first_of(found, key, &read_pair(&words));
    }
    found
}

/// Looks a key up in the row of its bucket: the row, how many items it has, and the reply.
#[tactic(auto, unfolding(bucket_states::specs::Items::reply_in))]
#[inline(always)]
pub fn look<S: Steps>(
    steps: &mut S,
    desk: &Desk,
    root: u64,
    bucket: u64,
    key: &Key,
) -> (u64, u64, Reply)
    requires phase { (S.now steps.old).phase ≡ LookWord root bucket }
    requires desk { IsOf (S.now steps.old) desk.now }
    requires call { (S.now steps.old).flight.call ≡ Lookup key.now }
    ensures goes { S.now steps.new ≡ later (S.now steps.old) (2 + result.1 * ITEM_WORDS) (StoreDone result.2 result.0) }
    ensures few { result.1 ≤ 16 }
{
    steps.stands();
    let row = steps.load(desk.layout.bucket_word(bucket));
    steps.stands();
    let start = desk.bucket_row(row);
    let count = steps.load(start + COUNT_PLACE as u64);
    let reply = match find_item(steps, start + BUCKET_HEAD_WORDS as u64, row, count, key) {
        Some(value) => Reply::Found(value),
        None => Reply::Absent,
    };
    (row, count, reply)
}
