//! The directory with new leaves, which are numbered one after the other.

ghost use Rattle.std.specs.Prelude.{◌≡◌, ℕ, ◌-◌, ◌/◌, ◌^◌, ◌<◌, ◌≤◌, ◌==◌, if◌then◌else◌, All, length, map, slice_index, slice_index_or, vec_capacity};
ghost use Rattle.word_rows.specs.Blocks.{first_values};
ghost use Rattle.table_model.specs.DirectoryChange.{depth_after, with_leaves};
ghost use Rattle.dir_states.specs.Rooms.{HasPlaces};
ghost use Rattle.dir_states.specs.Views.{as_directory, as_leaf};

use crate::{DirState, NewLeaf};

// The depth of the directory with these leaves.
fn depth_after(directory: &DirState, leaves: &[NewLeaf]) -> u32
    ensures { result ≡ depth_after (as_directory directory.now) (map as_leaf leaves.now) }
{
    let mut depth = directory.depth;
    for leaf in leaves {
        depth = depth.max(leaf.bucket.depth);
    }
    depth
}

// The entries of a directory of this depth, as the old directory names its buckets.
fn double(state: &mut DirState, depth: u32, directory: &DirState)
    requires depth { depth ≤ 32 }
    requires room { HasPlaces depth state.old }
    ensures depth { state.new.depth ≡ depth }
    ensures entries { state.new.entries.items ≡ first_values
        (λ place. slice_index directory.now.entries.items (place / 2 ^ (depth - directory.now.depth))) (2 ^ depth) }
    ensures room { vec_capacity state.new.entries ≡ vec_capacity state.old.entries }
{
    let doubled = depth.saturating_sub(directory.depth);
    state.depth = depth;
    state.entries.clear();
    for place in 0..1u64 << depth {
        state
            .entries
            .push_reserved(entry_at(directory, place >> doubled));
    }
}

// An entry of the directory, and 0 past its end.
fn entry_at(directory: &DirState, place: u64) -> u64
    ensures { result ≡ slice_index (as_directory directory.now).entries place }
{
    match directory.entries.get(place as usize) {
        Some(number) => *number,
        None => 0,
    }
}

// A leaf is named at each of its places.
fn name(depth: u32, leaf: &NewLeaf, number: u64, entries: &mut [u64])
    requires depth { depth ≤ 32 }
    requires len { length entries.old ≡ 2 ^ depth }
    requires shallow { leaf.now.bucket.depth ≤ depth }
    requires prefix { leaf.now.bucket.prefix < 2 ^ leaf.now.bucket.depth }
    ensures len { length entries.new ≡ 2 ^ depth }
    ensures named { (place none : ℕ) → place < 2 ^ depth → slice_index_or entries.new place none
        ≡ (if place / 2 ^ (depth - leaf.now.bucket.depth) == leaf.now.bucket.prefix then number else slice_index_or
        entries.old place none) }
{
    let others = depth - leaf.bucket.depth;
    let from = (leaf.bucket.prefix << others) as usize;
    for place in from..from + (1usize << others) {
        entries[place] = number;
    }
}

/// Becomes the directory with these leaves, which are numbered from `fresh` on.
///
/// They are named from the last to the first, so that where several have a place the first one is named.
#[tactic(auto, unfolding(table_model::specs::DirectoryChange::with_leaves))]
pub(crate) fn with_leaves(
    state: &mut DirState,
    fresh: u64,
    leaves: &[NewLeaf],
    directory: &DirState,
)
    requires fresh { fresh < 2 ^ 63 }
    requires prefixes { All (λ leaf. leaf.bucket.prefix < 2 ^ leaf.bucket.depth) leaves.now }
    requires depth { depth_after (as_directory directory.now) (map as_leaf leaves.now) ≤ 32 }
    requires room { HasPlaces (depth_after (as_directory directory.now) (map as_leaf leaves.now)) state.old }
    ensures state { as_directory state.new ≡ with_leaves fresh (map as_leaf leaves.now) (as_directory directory.now) }
    ensures room { vec_capacity state.new.entries ≡ vec_capacity state.old.entries }
{
    let depth = depth_after(directory, leaves);
    double(state, depth, directory);
    let mut left = leaves.len();
    while left > 0 {
        left -= 1;
        name(
            depth,
            &leaves[left],
            fresh + left as u64,
            &mut state.entries,
        );
    }
}
