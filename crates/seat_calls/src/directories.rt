//! The leg of a directory try that loads the directory, and where a key's bucket stands in it.

ghost use Rattle.std.specs.Prelude.{◌≡◌, ◌+◌, ◌<◌, ◌≤◌, ◌^◌, vec_capacity, vec_len};
ghost use Rattle.bucket_machine.specs.HashedKeys.{IsHashed};
ghost use Rattle.table_model.specs.Directories.{bucket_of};
ghost use Rattle.table_model.specs.Goes.{after_directory};
ghost use Rattle.table_model.specs.Phases.{DirRoot};
ghost use Rattle.dir_states.specs.Rooms.{HasPlaces};
ghost use Rattle.dir_states.specs.Views.{as_directory};
ghost use Rattle.seat_calls.specs.Going.{later};
ghost use Rattle.seat_calls.specs.Desks.{IsOf, settings_at};
ghost use Rattle.seat_calls.specs.Tries.{directory_tried};

use crate::desk::Desk;
use crate::runs::load_run;
use crate::steps::Steps;
use bucket_machine::Hashed;
use dir_states::DirState;
use hash_bits::bits;
use plain_map::{Key, Rules};
use step_counts::DIRECTORY_HEAD_WORDS;
use table_model::Round;

// A directory of this depth, whose entries are to be filled in.
fn make_places(directory: &mut DirState, depth: u32)
    requires depth { depth ≤ 12 }
    requires room { 2 ^ depth ≤ vec_capacity directory.old.entries }
    ensures depth { directory.new.depth ≡ depth }
    ensures entries { vec_len directory.new.entries ≡ 2 ^ depth }
    ensures room { vec_capacity directory.new.entries ≡ vec_capacity directory.old.entries }
{
    directory.depth = depth;
    directory.entries.clear();
    for _ in 0..1usize << depth {
        directory.entries.push_reserved(0);
    }
}

/// Loads the directory: its row, and the first row of the round's directory tries.
pub fn load_directory<S: Steps>(
    steps: &mut S,
    desk: &Desk,
    round: &Round,
    turn: u64,
    first: Option<u64>,
    directory: &mut DirState,
) -> (u64, u64)
    requires phase { (S.now steps.old).phase ≡ DirRoot round.now turn first }
    requires desk { IsOf (S.now steps.old) desk.now }
    requires room { HasPlaces (settings_at desk.now).depth directory.old }
    ensures goes { S.now steps.new ≡ later (S.now steps.old) (2 + vec_len directory.new.entries)
        (after_directory (S.now steps.old).setup (S.now steps.old).flight round.now
        (directory_tried turn result.1 result.0 (as_directory directory.new))) }
    ensures depth { directory.new.depth ≤ (settings_at desk.now).depth }
    ensures entries { vec_len directory.new.entries ≡ 2 ^ directory.new.depth }
    ensures room { HasPlaces (settings_at desk.now).depth directory.new }
{
    let root = steps.load(desk.layout.root());
    let first = first.unwrap_or(root);
    steps.stands();
    let start = desk.directory_row(root);
    let depth = steps.load(start) as u32;
    make_places(directory, depth);
    load_run(
        steps,
        start + DIRECTORY_HEAD_WORDS as u64,
        &mut directory.entries,
    );
    (root, first)
}

/// The number of the bucket of a key.
#[tactic(auto, unfolding(bucket_states::specs::Items::prefix_of))]
pub fn bucket_in(rules: &Rules, own: &Hashed, directory: &DirState, key: &Key) -> u64
    requires own { IsHashed rules.now.hashing own.now }
    requires depth { directory.now.depth ≤ 64 }
    requires entries { vec_len directory.now.entries ≡ 2 ^ directory.now.depth }
    ensures { result ≡ bucket_of rules.now (as_directory directory.now) key.now }
{
    directory.entries[bits(own.hash_of(&rules.hashing, key), directory.depth) as usize]
}
