//! The leg of a directory try that stores its leaves and its directory row.

ghost use Rattle.std.specs.Prelude.{◌≡◌, ◌+◌, ◌*◌, ◌<◌, ◌≤◌, ◌^◌, ◌-◌, All, Some, drop, length, map};
ghost use Rattle.step_counts.specs.StepCounts.{bucket_row_words};
ghost use Rattle.plain_map.specs.Rows.{HasBucketRoom};
ghost use Rattle.plain_map.specs.declared.full.FullKind.TheVariants.{BucketRows, BucketWords};
ghost use Rattle.word_rows.specs.declared.addresses.Address.TheVariants.{DirectoryWord};
ghost use Rattle.word_rows.specs.BucketWords.{IsBucket};
ghost use Rattle.bucket_states.specs.States.{row_of_state};
ghost use Rattle.table_model.specs.Setup.{next_number, settings_of};
ghost use Rattle.table_model.specs.Phases.{DirExchange, DirStore};
ghost use Rattle.table_model.specs.Stores.{base_of_leaf, directory_words, made_directory, made_leaves, row_puts};
ghost use Rattle.table_model.specs.Fits.{IsChange};
ghost use Rattle.dir_states.specs.Changes.{directory_of, leaves_of};
ghost use Rattle.dir_states.specs.Views.{as_directory, as_leaf, as_loaded};
ghost use Rattle.seat_calls.specs.Going.{later};
ghost use Rattle.seat_calls.specs.Desks.{IsOf, settings_at};
ghost use Rattle.seat_calls.specs.Puts.{CanBeSpelled, ComesNext, directory_row_puts, puts_of, puts_of_leaf, storing};
ghost use Rattle.seat_calls.specs.Changes.{changing};
ghost use Rattle.seat_calls.specs.Tries.{directory_trying};

use crate::asking::DirectoryAttempt;
use crate::desk::Desk;
use crate::limits::{LEAF_STEPS, MOST_LEAVES, MOST_WORDS};
use crate::runs::store_run;
use crate::steps::Steps;
use bucket_states::Op;
use dir_states::{Change, DirState, Loaded, NewLeaf, base_of};
use plain_map::BucketRow;
use step_counts::{DIRECTORY_HEAD_WORDS, SeatRows};

/// A directory try, with the ops that it found and the buckets that it loaded.
#[derive(Clone, Copy)]
pub struct Found<'a> {
    pub attempt: DirectoryAttempt<'a>,
    pub ops: &'a [Option<Op>],
    pub loaded: &'a [Loaded],
}

// Stores a leaf: its word and its row.
fn store_leaf<S: Steps>(
    steps: &mut S,
    desk: &Desk,
    found: &Found,
    stored: u64,
    leaf: &NewLeaf,
    bucket: u64,
    number: u64,
    row: &mut BucketRow,
)
    requires next { ComesNext (S.now steps.old) (changing found.now) stored
        (puts_of_leaf (S.now steps.old) (changing found.now) bucket number (as_leaf leaf.now)) }
    requires desk { IsOf (S.now steps.old) desk.now }
    requires leaf { IsBucket (settings_at desk.now)
        (row_of_state (base_of_leaf (map as_loaded found.now.loaded.now) (as_leaf leaf.now))
        (as_leaf leaf.now).bucket) }
    requires row { HasBucketRoom (settings_at desk.now).seats (settings_at desk.now).items row.old }
    ensures goes { S.now steps.new ≡
        later (S.now steps.old) (1 + bucket_row_words (settings_of (S.now steps.old).setup))
        (storing (S.now steps.old) (changing found.now)
        (stored + (1 + bucket_row_words (settings_of (S.now steps.old).setup)))) }
    ensures row { HasBucketRoom (settings_at desk.now).seats (settings_at desk.now).items row.new }
{
    steps.stands();
    // A bucket word of the seat's own, which no directory names before the root is exchanged.
    steps.store(desk.layout.bucket_word(bucket), number);
    leaf.bucket.to_row(base_of(found.loaded, leaf), row);
    let mut buffer = [0; MOST_WORDS];
    let words = &mut buffer[..desk.row_length()];
    desk.layout.write_bucket(row, words);
    steps.stands();
    store_run(steps, desk.bucket_row(number), words);
}

// Stores all leaves, the first of which has these numbers, and tells how many words these are.
fn store_leaves<S: Steps>(
    steps: &mut S,
    desk: &Desk,
    found: &Found,
    leaves: &[NewLeaf],
    bucket: u64,
    number: u64,
    row: &mut BucketRow,
) -> u64
    requires phase { (S.now steps.old).phase ≡ storing (S.now steps.old) (changing found.now) 0 }
    requires desk { IsOf (S.now steps.old) desk.now }
    requires bucket { bucket ≡
        next_number (S.now steps.old).setup (S.now steps.old).seat BucketWords (S.now steps.old).account.used }
    requires number { number ≡
        next_number (S.now steps.old).setup (S.now steps.old).seat BucketRows (S.now steps.old).account.used }
    requires leaves { map as_leaf leaves.now ≡
        made_leaves (S.now steps.old).setup (directory_trying found.now.attempt) found.now.ops.now
        (map as_loaded found.now.loaded.now) }
    requires spelled { All (CanBeSpelled (settings_at desk.now) (map as_loaded found.now.loaded.now))
        (map as_leaf leaves.now) }
    requires few { length leaves.now ≤ MOST_LEAVES }
    requires small { bucket < 2 ^ 63 }
    requires low { number < 2 ^ 63 }
    requires row { HasBucketRoom (settings_at desk.now).seats (settings_at desk.now).items row.old }
    ensures goes { S.now steps.new ≡
        later (S.now steps.old) result (storing (S.now steps.old) (changing found.now) result) }
    ensures left { drop result (puts_of (S.now steps.old) (changing found.now)) ≡
        directory_row_puts (S.now steps.old) (changing found.now) }
    ensures short { result ≤ LEAF_STEPS }
    ensures row { HasBucketRoom (settings_at desk.now).seats (settings_at desk.now).items row.new }
{
    let mut stored = 0;
    for i in 0..leaves.len() {
        store_leaf(
            steps,
            desk,
            found,
            stored,
            &leaves[i],
            bucket + i as u64,
            number + i as u64,
            row,
        );
        stored += 1 + desk.row_words;
    }
    stored
}

// Stores the directory row, and tells how many words it has.
fn store_directory<S: Steps>(
    steps: &mut S,
    desk: &Desk,
    found: &Found,
    stored: u64,
    directory: &DirState,
    number: u64,
) -> u64
    requires phase { (S.now steps.old).phase ≡ storing (S.now steps.old) (changing found.now) stored }
    requires left { drop stored (puts_of (S.now steps.old) (changing found.now)) ≡
        row_puts (DirectoryWord number) 0 (directory_words (Some found.now.attempt.root) (as_directory directory.now)) }
    requires desk { IsOf (S.now steps.old) desk.now }
    requires root { found.now.attempt.root < 2 ^ 64 - 1 }
    ensures goes { S.now steps.new ≡ later (S.now steps.old) result
        (DirExchange found.now.attempt.round (directory_trying found.now.attempt) found.now.ops.now
        (map as_loaded found.now.loaded.now)) }
    ensures few { result < 2 ^ 61 }
{
    steps.stands();
    let start = desk.directory_row(number);
    steps.store(start, directory.depth as u64);
    steps.store(start + 1, found.attempt.root + 1);
    store_run(
        steps,
        start + DIRECTORY_HEAD_WORDS as u64,
        &directory.entries,
    );
    DIRECTORY_HEAD_WORDS as u64 + directory.entries.len() as u64
}

/// Stores the leaves and the directory row of a change, and tells how many words these are.
#[tactic(auto, unfolding(table_model::specs::Setup::next_number))]
pub fn store_change<S: Steps>(
    steps: &mut S,
    desk: &Desk,
    used: &SeatRows,
    found: &Found,
    change: &Change,
    row: &mut BucketRow,
) -> u64
    requires phase { (S.now steps.old).phase ≡
        DirStore found.now.attempt.round (directory_trying found.now.attempt) found.now.ops.now
        (map as_loaded found.now.loaded.now) 0 }
    requires desk { IsOf (S.now steps.old) desk.now }
    requires used { used.now ≡ (S.now steps.old).account.used }
    requires makes { IsChange (S.now steps.old).setup (directory_trying found.now.attempt) found.now.ops.now
        (map as_loaded found.now.loaded.now) }
    requires leaves { leaves_of change.now ≡
        made_leaves (S.now steps.old).setup (directory_trying found.now.attempt) found.now.ops.now
        (map as_loaded found.now.loaded.now) }
    requires directory { directory_of change.now ≡
        made_directory (S.now steps.old).setup (S.now steps.old).seat used.now
        (directory_trying found.now.attempt) found.now.ops.now (map as_loaded found.now.loaded.now) }
    requires few { length (leaves_of change.now) ≤ MOST_LEAVES }
    requires row { HasBucketRoom (settings_at desk.now).seats (settings_at desk.now).items row.old }
    ensures goes { S.now steps.new ≡ later (S.now steps.old) result
        (DirExchange found.now.attempt.round (directory_trying found.now.attempt) found.now.ops.now
        (map as_loaded found.now.loaded.now)) }
    ensures few { result < 2 ^ 62 }
    ensures row { HasBucketRoom (settings_at desk.now).seats (settings_at desk.now).items row.new }
{
    steps.stands();
    let bucket = desk.first.bucket_words + used.bucket_words;
    let number = desk.first.bucket_rows + used.bucket_rows;
    let stored = store_leaves(steps, desk, found, change.leaves(), bucket, number, row);
    let root = desk.first.directory_rows + used.directory_rows;
    stored + store_directory(steps, desk, found, stored, change.state(), root)
}
