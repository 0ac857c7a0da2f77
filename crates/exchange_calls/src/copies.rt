//! Copies of a bucket: by one who can hold, which always comes to an answer, and by a reader that cannot, which has so
//! many tries. Words and steps are those of a lookup, but for all seven words of each item.

ghost use Rattle.std.specs.Prelude.{◌≡◌, ◌+◌, ◌<◌, ◌≤◌, ◌^◌, IfSome, IfNone, None, MatchOption, take, true, false, length};
ghost use Rattle.exchange_model.specs.Steps.{GlanceWant, GlanceWord, Glances, Idle, OfBucket};
ghost use Rattle.exchange_model.specs.Goes.{Again, Copied, Pairs, Shows, glance_lost};
ghost use Rattle.exchange_model.specs.Worlds.{LOOK_TRIES};
ghost use Rattle.exchange_calls.specs.Desks.{IsOf};
ghost use Rattle.exchange_calls.specs.Items.{asked_again, ended, looking};

use crate::desk::Desk;
use crate::holding::{give_back, hold};
use crate::looks::{Source, copy_items};
use crate::lookups::LOOK_TRIES;
use crate::steps::Steps;
use plain_map::Pair;

// A copy of the row that stands in the bucket's word: how many pairs it has, if it is of one writing.
#[inline(always)]
fn try_copy<S: Steps>(
    steps: &mut S,
    desk: &Desk,
    bucket: u64,
    left: u64,
    out: &mut [Pair],
) -> Option<usize>
    requires phase { (S.now steps.old).now.stand ≡ Glances (OfBucket bucket) (GlanceWord left) }
    requires desk { IsOf (S.now steps.old) desk.now }
    requires few { bucket < 2 ^ 32 }
    requires room { desk.now.sizes.items ≤ length out.old }
    ensures shown { IfSome result (λ count. S.now steps.new ≡
        looking (S.now steps.old) (OfBucket bucket) (Shows (take count out.new))) }
    ensures few { IfSome result (λ count. count ≤ length out.new) }
    ensures lost { result ≡ None → S.now steps.new ≡ looking (S.now steps.old) (OfBucket bucket) (glance_lost left) }
    ensures len { length out.new ≡ length out.old }
{
    let place = desk.bucket(bucket);
    let word = steps.load(place);
    let row = desk.row_in(word);
    let count = copy_items(steps, desk, Source::Word(left, word), row, bucket, out);
    // As in a lookup: the same word tells that nobody wrote to the row.
    let again = steps.load(place);
    if again == word { Some(count) } else { None }
}

// The held copy of a bucket.
#[inline(always)]
fn copy_held<S: Steps>(
    steps: &mut S,
    desk: &Desk,
    time: &mut u64,
    bucket: u64,
    out: &mut [Pair],
) -> usize
    requires phase { (S.now steps.old).now.stand ≡ Glances (OfBucket bucket) GlanceWant }
    requires desk { IsOf (S.now steps.old) desk.now }
    requires time { time.old ≡ (S.now steps.old).now.time }
    requires late { time.old < 2 ^ 62 }
    requires few { bucket < 2 ^ 32 }
    requires room { desk.now.sizes.items ≤ length out.old }
    ensures shown { S.now steps.new ≡
        looking (asked_again (S.now steps.old)) (OfBucket bucket) (Shows (take result out.new)) }
    ensures few { result ≤ length out.new }
    ensures time { time.new ≡ time.old + 1 }
{
    let row = hold(steps, desk, time, bucket);
    let count = copy_items(steps, desk, Source::Held(row), row, bucket, out);
    give_back(steps, desk);
    count
}

/// Copies all pairs of a bucket, and tells how many there are. `time` is how often the caller has asked for a hold.
#[inline(always)]
pub fn copy<S: Steps>(
    steps: &mut S,
    desk: &Desk,
    time: &mut u64,
    bucket: u64,
    out: &mut [Pair],
) -> usize
    requires idle { (S.now steps.old).now.stand ≡ Idle }
    requires seat { (S.now steps.old).holds ≡ true }
    requires desk { IsOf (S.now steps.old) desk.now }
    requires time { time.old ≡ (S.now steps.old).now.time }
    requires late { time.old < 2 ^ 62 }
    requires bucket { bucket < 2 ^ desk.now.sizes.depth }
    requires room { desk.now.sizes.items ≤ length out.old }
    requires may { S.may steps.old (Copied bucket) LOOK_TRIES }
    ensures told { S.now steps.new ≡ ended (S.now steps.old) time.new (Pairs (take result out.new)) }
    ensures few { result ≤ length out.new }
{
    steps.begin_copy(bucket, LOOK_TRIES);
    match try_copy(steps, desk, bucket, 1, out) {
        Some(count) => return count,
        None => {}
    }
    match try_copy(steps, desk, bucket, 0, out) {
        Some(count) => return count,
        None => {}
    }
    copy_held(steps, desk, time, bucket, out)
}

/// Copies all pairs of a bucket by loads alone, with so many tries. `None` tells that each was disturbed: it may be
/// asked again.
#[inline(always)]
pub fn look_at<S: Steps>(
    steps: &mut S,
    desk: &Desk,
    tries: u64,
    bucket: u64,
    out: &mut [Pair],
) -> Option<usize>
    requires idle { (S.now steps.old).now.stand ≡ Idle }
    requires reader { (S.now steps.old).holds ≡ false }
    requires desk { IsOf (S.now steps.old) desk.now }
    requires tries { 1 ≤ tries }
    requires bucket { bucket < 2 ^ desk.now.sizes.depth }
    requires room { desk.now.sizes.items ≤ length out.old }
    requires may { S.may steps.old (Copied bucket) tries }
    ensures told { MatchOption result
        (S.now steps.new ≡ ended (S.now steps.old) (S.now steps.old).now.time Again)
        (λ count. (count ≤ length out.new)
        × (S.now steps.new ≡ ended (S.now steps.old) (S.now steps.old).now.time (Pairs (take count out.new)))) }
{
    steps.begin_copy(bucket, tries);
    for i in 0..tries {
        match try_copy(steps, desk, bucket, tries - 1 - i, out) {
            Some(count) => return Some(count),
            None => {}
        }
    }
    None
}
