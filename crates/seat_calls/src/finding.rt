//! The legs that begin every call: the done words, and the bucket of the key.

ghost use Rattle.std.specs.Prelude.{◌≡◌, ◌+◌, ◌<◌, ◌^◌, [], All, length, take};
ghost use Rattle.plain_map.specs.Keys.{hash_of_key};
ghost use Rattle.plain_map.specs.Calls.{key_in};
ghost use Rattle.table_model.specs.Phases.{SeeDone, FindRoot};
ghost use Rattle.table_model.specs.Goes.{after_find, after_seeing};
ghost use Rattle.seat_calls.specs.Going.{on, later, seeing};
ghost use Rattle.seat_calls.specs.Desks.{IsOf};

use crate::desk::Desk;
use crate::runs::load_run;
use crate::steps::Steps;
use hash_bits::bits;
use step_counts::DIRECTORY_HEAD_WORDS;
use table_model::Aim;

/// Finds the bucket of the key with this hash: the directory row, and the bucket.
#[tactic(auto, unfolding(bucket_states::specs::Items::prefix_of))]
#[inline(always)]
pub fn find<S: Steps>(steps: &mut S, desk: &Desk, aim: Aim, hash: u64) -> (u64, u64)
    requires phase { (S.now steps.old).phase ≡ FindRoot aim }
    requires desk { IsOf (S.now steps.old) desk.now }
    requires hash { hash ≡ hash_of_key desk.now.rules.hashing (key_in (S.now steps.old).flight.call) }
    ensures { S.now steps.new ≡ later (S.now steps.old) 3 (after_find aim result.0 result.1) }
{
    // The root first: the directory row that it names is published, and never changes.
    let root = steps.load(desk.layout.root());
    steps.stands();
    let start = desk.directory_row(root);
    let depth = steps.load(start);
    let bucket = steps.load(start + DIRECTORY_HEAD_WORDS as u64 + bits(hash, depth as u32));
    (root, bucket)
}

/// Loads the done words of all seats, one of `seen` each.
#[inline(always)]
pub fn see_done<S: Steps>(steps: &mut S, desk: &Desk, seen: &mut [u64])
    requires phase { (S.now steps.old).phase ≡ SeeDone }
    requires first { (S.now steps.old).flight.seen ≡ [] }
    requires desk { IsOf (S.now steps.old) desk.now }
    requires seen { length seen.old ≡ desk.now.layout.settings.seats }
    ensures goes { S.now steps.new ≡ seeing (S.now steps.old) seen.new (after_seeing (S.now steps.old).flight) }
    ensures len { length seen.new ≡ length seen.old }
    ensures few { All (λ n. n < 2 ^ 32) seen.new }
{
    // Before all else: the calls that are counted here had ended before this call had any effect, so they stand before
    // it in the order.
    load_run(steps, desk.layout.done(0), seen);
}
