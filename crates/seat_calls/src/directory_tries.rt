//! A directory try.
//!
//! **Words**: loads the root and its directory row, the announcements and their op rows, and the buckets of these ops;
//! stores bucket words, bucket rows and a directory row of the seat's own; exchanges the root.
//! **Keeps**: the change replaces each frozen bucket that lacks an op which was found, the round's own among them, and
//! answers these ops in the new leaves.
//! **Why it ends**: when a round's directory tries begin, the op is announced, and the bucket is frozen without it. If
//! two exchanges of the root are lost, whoever won the second had loaded the root since then, and after it the
//! announcements and the bucket. So that change has replaced the bucket, with the op. In the proof: `Carried.replaced`
//! and `Carried.carried` in `run_invariant/proofs/Shared.antt`, and `lost` in `run_laws/proofs/DirStep.antt`; as a
//! promise `LostRootsShow`.

ghost use Rattle.std.specs.Prelude.{◌≡◌, ◌+◌, ◌<◌, ◌≤◌, ◌^◌, [], All, List, length, map};
ghost use Rattle.plain_map.specs.Calls.{key_in};
ghost use Rattle.plain_map.specs.Rows.{HasBucketRoom};
ghost use Rattle.bucket_machine.specs.HashedKeys.{IsHashed};
ghost use Rattle.table_model.specs.DirectoryChange.{LoadedBucket, change_leaves, with_leaves};
ghost use Rattle.table_model.specs.Fits.{IsChange, Makes};
ghost use Rattle.table_model.specs.Goes.{answered_by_leaf};
ghost use Rattle.table_model.specs.Phases.{DirAnnouncement, DirExchange, DirRoot};
ghost use Rattle.table_model.specs.SeatStates.{Flight};
ghost use Rattle.table_model.specs.Stores.{made_leaves};
ghost use Rattle.dir_states.specs.Changes.{ChangeHasRoom, directory_of, leaves_of};
ghost use Rattle.dir_states.specs.Rooms.{HasItems};
ghost use Rattle.dir_states.specs.Views.{as_directory, as_leaf, as_loaded};
ghost use Rattle.seat_calls.specs.Desks.{IsOf, settings_at};
ghost use Rattle.seat_calls.specs.Going.{went};
ghost use Rattle.seat_calls.specs.Loads.{IsWhole};
ghost use Rattle.seat_calls.specs.Outcomes.{IsFirst, answer_phase, outcome_of_change};
ghost use Rattle.seat_calls.specs.Owns.{IsOwn};
ghost use Rattle.seat_calls.specs.Puts.{CanBeSpelled};
ghost use Rattle.seat_calls.specs.Rooms.{HasAllRoom, HasLoadedRoom};
ghost use Rattle.seat_calls.specs.Tries.{directory_trying};

use crate::asking::DirectoryAttempt;
use crate::desk::Desk;
use crate::directories::{bucket_in, load_directory};
use crate::limits::MOST_LEAVES;
use crate::loading::load_buckets;
use crate::ops::find_ops;
use crate::own::Own;
use crate::room::Room;
use crate::steps::Steps;
use crate::storing::{Found, store_change};
use dir_states::{Change, Loaded, NewLeaf};
use hash_bits::bits;
use plain_map::{BucketRow, MOST_SEATS, Reply};
use step_counts::{DIRECTORY_HEAD_WORDS, SeatRows};
use table_model::Round;

/// How a directory try went.
#[derive(Clone, Copy)]
pub enum Changed {
    /// The call is answered in a leaf of the change: the reply, and the leaf's row.
    Made(Reply, u64),
    /// The round is left without the reply.
    Left,
    /// The exchange was lost. The first directory row that the round's tries loaded.
    LostRoot(u64),
}

// Makes the change, which finds room.
fn make_change(desk: &Desk, found: &Found, change: &mut Change, fresh: u64)
    requires room { ChangeHasRoom (settings_at desk.now).seats (settings_at desk.now).items
        (settings_at desk.now).depth change.old }
    requires depth { found.now.attempt.directory.now.depth ≤ (settings_at desk.now).depth }
    requires seats { length found.now.ops.now ≤ (settings_at desk.now).seats }
    requires items { All (HasItems (settings_at desk.now).items) found.now.loaded.now }
    requires fresh { fresh < 2 ^ 63 }
    requires spelled { All (CanBeSpelled (settings_at desk.now) (map as_loaded found.now.loaded.now))
        (change_leaves desk.now.rules (as_directory found.now.attempt.directory.now)
        (map as_loaded found.now.loaded.now) found.now.ops.now) }
    ensures leaves { leaves_of change.new ≡
        change_leaves desk.now.rules (as_directory found.now.attempt.directory.now)
        (map as_loaded found.now.loaded.now) found.now.ops.now }
    ensures directory { directory_of change.new ≡
        with_leaves fresh (leaves_of change.new) (as_directory found.now.attempt.directory.now) }
    ensures few { length (leaves_of change.new) ≤ MOST_LEAVES }
    ensures room { ChangeHasRoom (settings_at desk.now).seats (settings_at desk.now).items
        (settings_at desk.now).depth change.new }
{
    if !change.change(
        &desk.rules,
        found.attempt.directory,
        found.loaded,
        found.ops,
        fresh,
    ) {
        unreachable!()
    }
}

// The reply to the seat's call in the leaf of its key, and that leaf's row, where the first leaf has this row.
fn answer_in(desk: &Desk, own: &Own, leaves: &[NewLeaf], row: u64) -> Option<(Reply, u64)>
    requires own { IsHashed desk.now.rules.hashing own.now.key }
    requires few { length leaves.now ≤ MOST_LEAVES }
    requires small { row < 2 ^ 63 }
    requires loaded { (loaded : List LoadedBucket) ×
        All (CanBeSpelled (settings_at desk.now) loaded) (map as_leaf leaves.now) }
    ensures { (flight : Flight) → own.now.key.key ≡ key_in flight.call →
        answer_phase result ≡ answered_by_leaf desk.now.rules desk.now.seat flight row (map as_leaf leaves.now) }
{
    for i in 0..leaves.len() {
        let leaf = &leaves[i].bucket;
        if bits(own.key.hash, leaf.depth) == leaf.prefix {
            return match leaf.replies[desk.seat as usize] {
                Some(reply) => Some((reply, row + i as u64)),
                None => None,
            };
        }
    }
    None
}

// Exchanges the root for the new directory.
#[tactic(auto, unfolding(table_model::specs::Setup::next_number))]
fn publish<S: Steps>(
    steps: &mut S,
    desk: &Desk,
    own: &Own,
    used: &mut SeatRows,
    found: &Found,
    leaves: &[NewLeaf],
) -> Changed
    requires phase { (S.now steps.old).phase ≡
        DirExchange found.now.attempt.round (directory_trying found.now.attempt) found.now.ops.now
        (map as_loaded found.now.loaded.now) }
    requires desk { IsOf (S.now steps.old) desk.now }
    requires own { IsOwn (S.now steps.old) own.now }
    requires used { used.old ≡ (S.now steps.old).account.used }
    requires turn { (1 ≤ found.now.attempt.turn) × (found.now.attempt.turn ≤ 2) }
    requires few { length leaves.now ≤ MOST_LEAVES }
    requires leaves { map as_leaf leaves.now ≡
        made_leaves (S.now steps.old).setup (directory_trying found.now.attempt) found.now.ops.now
        (map as_loaded found.now.loaded.now) }
    requires makes { IsChange (S.now steps.old).setup (directory_trying found.now.attempt) found.now.ops.now
        (map as_loaded found.now.loaded.now) }
    ensures goes { S.now steps.new ≡
        went (S.now steps.old) used.new 1 (outcome_of_change found.now.attempt.round found.now.attempt.turn result) }
    ensures first { IsFirst found.now.attempt.turn result }
{
    steps.stands();
    let root = desk.first.directory_rows + used.directory_rows;
    // One exchange shows the directory row and all new leaves.
    if steps.exchange(desk.layout.root(), found.attempt.root, root) != found.attempt.root {
        return if found.attempt.turn == 1 {
            Changed::LostRoot(found.attempt.first)
        } else {
            // The bucket is replaced, and the leaf of the key has the op: the next find leads to it.
            Changed::Left
        };
    }
    let Some((reply, row)) = answer_in(desk, own, leaves, desk.first.bucket_rows + used.bucket_rows)
    else {
        unreachable!()
    };
    let many = leaves.len() as u64;
    used.bucket_rows += many;
    used.bucket_words += many;
    used.directory_rows += 1;
    Changed::Made(reply, row)
}

// Makes the directory after all ops the table's, and tells how many steps that took.
fn change_directory<S: Steps>(
    steps: &mut S,
    desk: &Desk,
    own: &Own,
    used: &mut SeatRows,
    attempt: &DirectoryAttempt,
    row: &mut BucketRow,
    loaded: &mut [Loaded],
    change: &mut Change,
) -> (Changed, u64)
    requires phase { (S.now steps.old).phase ≡ DirAnnouncement attempt.now.round (directory_trying attempt.now) [] }
    requires desk { IsOf (S.now steps.old) desk.now }
    requires own { IsOwn (S.now steps.old) own.now }
    requires used { used.old ≡ (S.now steps.old).account.used }
    requires turn { (1 ≤ attempt.now.turn) × (attempt.now.turn ≤ 2) }
    requires depth { attempt.now.directory.now.depth ≤ (settings_at desk.now).depth }
    requires entries { IsWhole attempt.now.directory.now }
    requires row { HasBucketRoom (settings_at desk.now).seats (settings_at desk.now).items row.old }
    requires each { All (HasLoadedRoom (settings_at desk.now)) loaded.old }
    requires all { length loaded.old ≡ (settings_at desk.now).seats }
    requires change { ChangeHasRoom (settings_at desk.now).seats (settings_at desk.now).items
        (settings_at desk.now).depth change.old }
    ensures goes { S.now steps.new ≡
        went (S.now steps.old) used.new result.1 (outcome_of_change attempt.now.round attempt.now.turn result.0) }
    ensures first { IsFirst attempt.now.turn result.0 }
    ensures few { result.1 < 2 ^ 63 }
    ensures row { HasBucketRoom (settings_at desk.now).seats (settings_at desk.now).items row.new }
    ensures each { All (HasLoadedRoom (settings_at desk.now)) loaded.new }
    ensures all { length loaded.new ≡ length loaded.old }
    ensures change { ChangeHasRoom (settings_at desk.now).seats (settings_at desk.now).items
        (settings_at desk.now).depth change.new }
{
    let seats = desk.layout.settings().seats as usize;
    let mut buffer = [None; MOST_SEATS];
    let ops = &mut buffer[..seats];
    let asked = find_ops(steps, desk, attempt, ops);
    let (count, looked) = load_buckets(steps, desk, &own.key, attempt, ops, row, loaded);
    let found = Found {
        attempt: *attempt,
        ops,
        loaded: &loaded[..count],
    };
    steps.stands();
    make_change(
        desk,
        &found,
        change,
        desk.first.bucket_words + used.bucket_words,
    );
    let stored = store_change(steps, desk, used, &found, change, row);
    let changed = publish(steps, desk, own, used, &found, change.leaves());
    (changed, asked + looked + stored + 1)
}

/// A whole directory try, and how many steps it took.
#[cold]
#[inline(never)]
pub fn try_directory<S: Steps>(
    steps: &mut S,
    desk: &Desk,
    room: &mut Room,
    own: &Own,
    used: &mut SeatRows,
    round: Round,
    turn: u64,
    first: Option<u64>,
) -> (Changed, u64)
    requires phase { (S.now steps.old).phase ≡ DirRoot round turn first }
    requires desk { IsOf (S.now steps.old) desk.now }
    requires room { HasAllRoom (settings_at desk.now) room.old }
    requires own { IsOwn (S.now steps.old) own.now }
    requires used { used.old ≡ (S.now steps.old).account.used }
    requires turn { (1 ≤ turn) × (turn ≤ 2) }
    ensures goes { S.now steps.new ≡ went (S.now steps.old) used.new result.1 (outcome_of_change round turn result.0) }
    ensures first { IsFirst turn result.0 }
    ensures few { result.1 < 2 ^ 63 + 2 ^ 62 }
    ensures room { HasAllRoom (settings_at desk.now) room.new }
{
    let (root, first) = load_directory(steps, desk, &round, turn, first, &mut room.directory);
    let loaded = DIRECTORY_HEAD_WORDS as u64 + room.directory.entries.len() as u64;
    if bucket_in(&desk.rules, &own.key, &room.directory, &own.key.key) != round.bucket {
        // Another seat has replaced the bucket, with the op or without it: the next find tells.
        return (Changed::Left, loaded);
    }
    let attempt = DirectoryAttempt {
        round,
        turn,
        first,
        root,
        directory: &room.directory,
    };
    let (changed, more) = change_directory(
        steps,
        desk,
        own,
        used,
        &attempt,
        &mut room.row,
        &mut room.loaded,
        &mut room.change,
    );
    (changed, loaded + more)
}
