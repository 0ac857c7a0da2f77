//! Whole lookups: by one who can hold, which always comes to an answer, and by a reader that cannot, which has so many
//! tries.
//!
//! **Words**: the bucket word, a row, and the bucket word again; with two lost tries a held look.
//! **Keeps**: generations of a bucket rise. So a word that is the same after the row stood there all the while, and
//! nobody wrote to its row.
//! **Steps**: 3 and one for each item, and six more for an item that has the key's last word.

ghost use Rattle.std.specs.Prelude.{◌≡◌, ◌+◌, ◌<◌, ◌≤◌, ◌^◌, Some, None, MatchOption, true, false};
ghost use Rattle.std.specs.Option.{option_map_or};
ghost use Rattle.plain_map.specs.PlainObject.{class_of};
ghost use Rattle.plain_map.specs.declared.calls.Reply.TheVariants.{Absent, Found};
ghost use Rattle.exchange_model.specs.Steps.{GlanceWant, GlanceWord, Glances, Idle, OfKey};
ghost use Rattle.plain_map.specs.declared.calls.Call.TheVariants.{Lookup};
ghost use Rattle.exchange_model.specs.Goes.{Again, Called, Replied};
ghost use Rattle.exchange_model.specs.Worlds.{LOOK_TRIES};
ghost use Rattle.exchange_calls.specs.Desks.{IsOf};
ghost use Rattle.exchange_calls.specs.Items.{HasShown, HasTried, asked_again, ended};

use crate::desk::Desk;
use crate::holding::{give_back, hold};
use crate::looks::{Source, find_item};
use crate::steps::Steps;
use plain_map::{Key, Reply};

/// What a try has come to.
#[derive(Clone, Copy)]
pub enum Look {
    /// Its row stood in the bucket's word all the while, and this was found.
    Shown(Option<u64>),
    /// The bucket word has changed since it was loaded.
    Lost,
}

/// How many tries there are before a hold is asked for.
pub const LOOK_TRIES: u64 = 2;

// The reply to a lookup that found this.
#[inline(always)]
fn reply_of(found: Option<u64>) -> Reply
    ensures { result ≡ option_map_or Found found Absent }
{
    match found {
        Some(value) => Reply::Found(value),
        None => Reply::Absent,
    }
}

// A look at the row that stands in the bucket's word.
#[inline(always)]
fn try_find<S: Steps>(steps: &mut S, desk: &Desk, bucket: u64, left: u64, key: &Key) -> Look
    requires phase { (S.now steps.old).now.stand ≡ Glances (OfKey key.now) (GlanceWord left) }
    requires desk { IsOf (S.now steps.old) desk.now }
    requires bucket { bucket ≡ class_of desk.now.rules key.now }
    requires few { bucket < 2 ^ 32 }
    ensures { HasTried (S.now steps.old) (S.now steps.new) key.now left result }
{
    let place = desk.bucket(bucket);
    let word = steps.load(place);
    let row = desk.row_in(word);
    let found = find_item(steps, desk, Source::Word(left, word), row, key);
    // Whoever writes to the row has put another one in its place before. So the same word tells that nobody wrote.
    let again = steps.load(place);
    if again == word {
        Look::Shown(found)
    } else {
        Look::Lost
    }
}

// The held look at a key.
#[inline(always)]
fn find_held<S: Steps>(
    steps: &mut S,
    desk: &Desk,
    time: &mut u64,
    bucket: u64,
    key: &Key,
) -> Option<u64>
    requires phase { (S.now steps.old).now.stand ≡ Glances (OfKey key.now) GlanceWant }
    requires desk { IsOf (S.now steps.old) desk.now }
    requires time { time.old ≡ (S.now steps.old).now.time }
    requires late { time.old < 2 ^ 62 }
    requires bucket { bucket ≡ class_of desk.now.rules key.now }
    requires few { bucket < 2 ^ 32 }
    ensures shown { HasShown (asked_again (S.now steps.old)) (S.now steps.new) key.now result }
    ensures time { time.new ≡ time.old + 1 }
{
    let row = hold(steps, desk, time, bucket);
    let found = find_item(steps, desk, Source::Held(row), row, key);
    give_back(steps, desk);
    found
}

/// Looks a key up. `time` is how often the caller has asked for a hold.
///
/// **Steps:** 3 and one for each item, and six more for an item that has the key's last word, where no other thread
/// writes there. It waits for nobody.
#[inline(always)]
pub fn lookup<S: Steps>(steps: &mut S, desk: &Desk, time: &mut u64, key: &Key) -> Reply
    requires idle { (S.now steps.old).now.stand ≡ Idle }
    requires seat { (S.now steps.old).holds ≡ true }
    requires desk { IsOf (S.now steps.old) desk.now }
    requires time { time.old ≡ (S.now steps.old).now.time }
    requires few { time.old < 2 ^ 62 }
    requires may { S.may steps.old (Called (Lookup key.now)) LOOK_TRIES }
    ensures told { S.now steps.new ≡ ended (S.now steps.old) time.new (Replied result) }
{
    steps.begin_look(key, LOOK_TRIES);
    let bucket = desk.bucket_of(key);
    match try_find(steps, desk, bucket, 1, key) {
        Look::Shown(found) => return reply_of(found),
        Look::Lost => {}
    }
    match try_find(steps, desk, bucket, 0, key) {
        Look::Shown(found) => return reply_of(found),
        Look::Lost => {}
    }
    let held = find_held(steps, desk, time, bucket, key);
    reply_of(held)
}

/// Looks a key up by loads alone, with so many tries. `None` tells that each was disturbed: it may be asked again.
#[inline(always)]
pub fn peek<S: Steps>(steps: &mut S, desk: &Desk, tries: u64, key: &Key) -> Option<Reply>
    requires idle { (S.now steps.old).now.stand ≡ Idle }
    requires reader { (S.now steps.old).holds ≡ false }
    requires desk { IsOf (S.now steps.old) desk.now }
    requires tries { 1 ≤ tries }
    requires may { S.may steps.old (Called (Lookup key.now)) tries }
    ensures told { MatchOption result
        (S.now steps.new ≡ ended (S.now steps.old) (S.now steps.old).now.time Again)
        (λ reply. S.now steps.new ≡ ended (S.now steps.old) (S.now steps.old).now.time (Replied reply)) }
{
    steps.begin_look(key, tries);
    let bucket = desk.bucket_of(key);
    for i in 0..tries {
        match try_find(steps, desk, bucket, tries - 1 - i, key) {
            Look::Shown(found) => return Some(reply_of(found)),
            Look::Lost => {}
        }
    }
    None
}
