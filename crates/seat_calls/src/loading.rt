//! The leg of a directory try that loads the buckets of the announced ops, each of them once.

ghost use Rattle.std.specs.Prelude.{◌≡◌, ◌+◌, ◌*◌, ◌<◌, ◌≤◌, [], All, None, length, map, take};
ghost use Rattle.std.specs.List.{list_any};
ghost use Rattle.step_counts.specs.StepCounts.{bucket_row_words};
ghost use Rattle.plain_map.specs.Rows.{HasBucketRoom};
ghost use Rattle.word_rows.specs.BucketWords.{SpellSomeBucket};
ghost use Rattle.bucket_machine.specs.HashedKeys.{IsHashed};
ghost use Rattle.table_model.specs.Setup.{settings_of};
ghost use Rattle.table_model.specs.DirectoryChange.{is_bucket};
ghost use Rattle.table_model.specs.Fits.{IsChange, Makes};
ghost use Rattle.table_model.specs.Goes.{after_loaded};
ghost use Rattle.table_model.specs.Phases.{DirStore, DirWord};
ghost use Rattle.dir_states.specs.Rooms.{HasItems};
ghost use Rattle.dir_states.specs.Views.{as_loaded};
ghost use Rattle.seat_calls.specs.Going.{later};
ghost use Rattle.seat_calls.specs.Desks.{IsOf, settings_at, state_at};
ghost use Rattle.seat_calls.specs.Loads.{AddsBucket, IsWhole};
ghost use Rattle.seat_calls.specs.Rooms.{HasLoadedRoom};
ghost use Rattle.seat_calls.specs.Tries.{directory_trying};

use crate::asking::DirectoryAttempt;
use crate::desk::Desk;
use crate::directories::bucket_in;
use crate::limits::{LOADING_STEPS, MOST_WORDS};
use crate::rows::load_row;
use crate::steps::Steps;
use bucket_machine::Hashed;
use bucket_states::Op;
use dir_states::Loaded;
use plain_map::{BucketRow, MOST_SEATS};
use word_rows::row_laws;

// Whether the bucket is among those that were loaded.
fn is_loaded(loaded: &[Loaded], bucket: u64) -> bool
    ensures { result ≡ list_any (is_bucket bucket) (map as_loaded loaded.now) }
{
    for one in loaded {
        if one.bucket == bucket {
            return true;
        }
    }
    false
}

// Reads a bucket from the words of its row.
fn read_loaded(
    desk: &Desk,
    words: &[u64],
    bucket: u64,
    row: u64,
    room: &mut BucketRow,
    into: &mut Loaded,
)
    requires spelled { SpellSomeBucket (settings_at desk.now) words.now }
    requires words { length words.now ≡ bucket_row_words (settings_at desk.now) }
    requires room { HasBucketRoom (settings_at desk.now).seats (settings_at desk.now).items room.old }
    requires into { HasLoadedRoom (settings_at desk.now) into.old }
    ensures is { as_loaded into.new ≡ record { bucket = bucket; row = row; state = state_at desk.now words.now } }
    ensures items { HasItems (settings_at desk.now).items into.new }
    ensures room { HasBucketRoom (settings_at desk.now).seats (settings_at desk.now).items room.new }
    ensures into { HasLoadedRoom (settings_at desk.now) into.new }
{
    row_laws();
    desk.layout.read_bucket(words, room);
    into.bucket = bucket;
    into.row = row;
    into.state.from_row(room);
}

// Loads the bucket of an op as the next of those that are loaded.
fn load_bucket<S: Steps>(
    steps: &mut S,
    desk: &Desk,
    attempt: &DirectoryAttempt,
    ops: &[Option<Op>],
    bucket: u64,
    room: &mut BucketRow,
    loaded: &mut [Loaded],
    count: usize,
)
    requires phase { (S.now steps.old).phase ≡
        DirWord attempt.now.round (directory_trying attempt.now) ops.now
        (map as_loaded (take count loaded.old)) bucket }
    requires desk { IsOf (S.now steps.old) desk.now }
    requires count { count < length loaded.old }
    requires room { HasBucketRoom (settings_at desk.now).seats (settings_at desk.now).items room.old }
    requires each { All (HasLoadedRoom (settings_at desk.now)) loaded.old }
    requires items { All (HasItems (settings_at desk.now).items) (take count loaded.old) }
    ensures goes { S.now steps.new ≡
        later (S.now steps.old) (1 + bucket_row_words (settings_of (S.now steps.old).setup))
        (after_loaded (S.now steps.old).setup attempt.now.round (directory_trying attempt.now) ops.now
        (map as_loaded (take (count + 1) loaded.new))) }
    ensures makes { Makes (S.now steps.old).setup
        (after_loaded (S.now steps.old).setup attempt.now.round (directory_trying attempt.now) ops.now
        (map as_loaded (take (count + 1) loaded.new))) }
    ensures adds { AddsBucket bucket (map as_loaded (take count loaded.old))
        (map as_loaded (take (count + 1) loaded.new)) }
    ensures len { length loaded.new ≡ length loaded.old }
    ensures room { HasBucketRoom (settings_at desk.now).seats (settings_at desk.now).items room.new }
    ensures each { All (HasLoadedRoom (settings_at desk.now)) loaded.new }
    ensures items { All (HasItems (settings_at desk.now).items) (take (count + 1) loaded.new) }
{
    steps.stands();
    let row = steps.load(desk.layout.bucket_word(bucket));
    let mut buffer = [0; MOST_WORDS];
    let words = &mut buffer[..desk.row_length()];
    load_row(steps, desk, row, words);
    read_loaded(desk, words, bucket, row, room, &mut loaded[count]);
}

/// Loads the buckets of all ops: how many there are, and how many steps that took.
pub fn load_buckets<S: Steps>(
    steps: &mut S,
    desk: &Desk,
    own: &Hashed,
    attempt: &DirectoryAttempt,
    ops: &[Option<Op>],
    room: &mut BucketRow,
    loaded: &mut [Loaded],
) -> (usize, u64)
    requires phase { (S.now steps.old).phase ≡
        after_loaded (S.now steps.old).setup attempt.now.round (directory_trying attempt.now) ops.now [] }
    requires makes { Makes (S.now steps.old).setup
        (after_loaded (S.now steps.old).setup attempt.now.round (directory_trying attempt.now) ops.now []) }
    requires desk { IsOf (S.now steps.old) desk.now }
    requires own { IsHashed desk.now.rules.hashing own.now }
    requires depth { attempt.now.directory.now.depth ≤ 64 }
    requires entries { IsWhole attempt.now.directory.now }
    requires seats { length ops.now ≤ length loaded.old }
    requires few { length ops.now ≤ MOST_SEATS }
    requires room { HasBucketRoom (settings_at desk.now).seats (settings_at desk.now).items room.old }
    requires each { All (HasLoadedRoom (settings_at desk.now)) loaded.old }
    ensures goes { S.now steps.new ≡ later (S.now steps.old) result.1
        (DirStore attempt.now.round (directory_trying attempt.now) ops.now
        (map as_loaded (take result.0 loaded.new)) 0) }
    ensures makes { IsChange (S.now steps.old).setup (directory_trying attempt.now) ops.now
        (map as_loaded (take result.0 loaded.new)) }
    ensures count { result.0 ≤ length loaded.new }
    ensures few { result.1 ≤ LOADING_STEPS }
    ensures len { length loaded.new ≡ length loaded.old }
    ensures room { HasBucketRoom (settings_at desk.now).seats (settings_at desk.now).items room.new }
    ensures each { All (HasLoadedRoom (settings_at desk.now)) loaded.new }
    ensures items { All (HasItems (settings_at desk.now).items) (take result.0 loaded.new) }
{
    let mut count = 0;
    let mut spent = 0;
    for i in 0..ops.len() {
        if let Some(op) = &ops[i] {
            let bucket = bucket_in(&desk.rules, own, attempt.directory, op.call.key());
            if !is_loaded(&loaded[..count], bucket) {
                load_bucket(steps, desk, attempt, ops, bucket, room, loaded, count);
                count += 1;
                spent += 1 + desk.row_words;
            }
        }
    }
    (count, spent)
}
