//! A whole lookup.

ghost use Rattle.std.specs.Prelude.{◌≡◌, ℕ, ◌^◌, ◌<◌, ◌≤◌, All, length};
ghost use Rattle.plain_map.specs.declared.calls.Call.TheVariants.{Lookup};
ghost use Rattle.step_counts.specs.StepCounts.{lookup_steps};
ghost use Rattle.table_model.specs.declared.rounds.Aim.TheVariants.{ForLookup};
ghost use Rattle.table_model.specs.Phases.{FindRoot, StoreDone};
ghost use Rattle.table_model.specs.SeatStates.{seen_counts};
ghost use Rattle.seat_calls.specs.Going.{Begins, later};
ghost use Rattle.seat_calls.specs.Desks.{IsOf};

use crate::desk::Desk;
use crate::finding::{find, see_done};
use crate::looking::look;
use crate::steps::Steps;
use plain_map::{Call, Key, MOST_SEATS, Record, Reply, Seen};
use step_counts::ITEM_WORDS;
use table_model::Aim;

/// The seen counts as they stand in a record.
#[inline(always)]
pub fn counts(seen: &[u64]) -> Seen
    requires long { length seen.now ≤ MOST_SEATS }
    requires few { All (λ n. n < 2 ^ 32) seen.now }
    ensures { result ≡ seen_counts seen.now }
{
    let mut counts = [0; MOST_SEATS];
    for i in 0..seen.len() {
        counts[i] = seen[i] as u32;
    }
    Seen { counts }
}

/// Looks a key up.
#[inline(always)]
pub fn lookup<S: Steps>(steps: &mut S, desk: &Desk, packet: u32, number: u32, key: &Key) -> Record
    requires begins { Begins (S.now steps.old) packet number (Lookup key.now) }
    requires desk { IsOf (S.now steps.old) desk.now }
    ensures answered { S.answered steps.new result (S.now steps.old).account.used }
{
    let seats = desk.layout.settings().seats;
    let mut room = [0; MOST_SEATS];
    let words = &mut room[..seats as usize];
    see_done(steps, desk, words);
    let hash = key.hash(&desk.rules.hashing);
    let (root, bucket) = find(steps, desk, Aim::ForLookup, hash);
    let (row, count, reply) = look(steps, desk, root, bucket, key);
    steps.finish(desk.layout.done(desk.seat), number as u64);
    // The record is made last, since the store of the done word waits for all that is written before it.
    let seen = counts(words);
    Record {
        seat: desk.seat,
        number,
        packet,
        call: Call::Lookup(*key),
        reply,
        steps: seats as u64 + 6 + ITEM_WORDS as u64 * count,
        seen,
        place: row,
    }
}

/// Looks a key up by loads alone: the part of a lookup that tells its reply.
///
/// **Steps:** 5, and seven for each item of the row that it reads.
#[inline(always)]
pub fn glance<S: Steps>(steps: &mut S, desk: &Desk, key: &Key) -> Reply
    requires phase { (S.now steps.old).phase ≡ FindRoot ForLookup }
    requires call { (S.now steps.old).flight.call ≡ Lookup key.now }
    requires desk { IsOf (S.now steps.old) desk.now }
    ensures { (row : ℕ) × ((spent : ℕ) × (S.now steps.new ≡ later (S.now steps.old) spent (StoreDone result row))) }
{
    let hash = key.hash(&desk.rules.hashing);
    let (root, bucket) = find(steps, desk, Aim::ForLookup, hash);
    let (_, _, reply) = look(steps, desk, root, bucket, key);
    reply
}
