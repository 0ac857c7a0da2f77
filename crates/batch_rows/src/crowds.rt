//! How many prefixes have more keys than a bucket has room for.
//!
//! The keys are counted by all the bits that can tell two buckets apart. The counts of a prefix are then the sums of
//! those of its two halves, so each depth is counted from the one below it.

ghost use Rattle.std.specs.Prelude.{◌≡◌, ℕ, ◌+◌, ◌*◌, ◌^◌, ◌<◌, ◌≤◌, nat_lt, IfOk, count_by, length, slice_index};
ghost use Rattle.std.specs.List.{IsDistinct, range_with_len};
ghost use Rattle.plain_map.specs.PlainObject.{InRange};
ghost use Rattle.bucket_states.specs.Items.{same_key};
ghost use Rattle.table_model.specs.Needs.{crowded};
ghost use Rattle.batch_rows.specs.Counts.{both_at};
ghost use Rattle.batch_rows.specs.Depths.{depth_for};

use plain_map::{Key, Rules};
use std::alloc::{AllocError, Global};

/// What is crowded by some keys, from a starting depth up to one less than the greatest.
#[derive(Clone, Copy)]
pub(crate) struct Crowds {
    /// Prefixes that have more of the keys than a bucket has room for.
    pub prefixes: u64,
    /// Depths of which there is such a prefix.
    pub levels: u32,
}

/// How many prefixes, of `start` bits up to one less than the greatest depth, have more of these keys than a bucket has
/// room for, and of how many depths they are.
pub(crate) fn crowded(
    alloc: Global,
    rules: &Rules,
    start: u32,
    keys: &[Key],
) -> Result<Crowds, AllocError>
    requires range { InRange rules.now }
    requires within { start ≤ rules.now.depth }
    requires distinct { IsDistinct same_key keys.now }
    ensures exact { IfOk result (λ crowds. crowds.prefixes ≡ crowded rules.now start keys.now) }
    ensures few { IfOk result (λ crowds. crowds.prefixes < 2 ^ 32) }
    ensures depth { IfOk result (λ crowds. start + crowds.levels ≡ depth_for rules.now start keys.now) }
    ensures shallow { IfOk result (λ crowds. start + crowds.levels ≤ rules.now.depth) }
{
    let mut counts = vec![in alloc; 0u64; places(rules.depth)]?;
    for key in keys {
        counts[rules.class_of(key) as usize] += 1;
    }
    let mut prefixes = 0;
    let mut levels = 0;
    for level in 0..rules.depth - start {
        let places = places(rules.depth - level - 1);
        let above = halve(&mut counts, places, rules.items);
        prefixes += above;
        if above > 0 {
            levels += 1;
        }
    }
    Ok(Crowds { prefixes, levels })
}

// Adds up the counts of each two halves, and counts the sums that are above `most`.
fn halve(counts: &mut [u64], places: usize, most: u32) -> u64
    requires long { 2 * places ≤ length counts.old }
    requires fits { (prefix : ℕ) → prefix < places → both_at counts.old prefix < 2 ^ 64 }
    ensures len { length counts.new ≡ length counts.old }
    ensures sums { (prefix : ℕ) → prefix < places → slice_index counts.new prefix ≡ both_at counts.old prefix }
    ensures above { result ≡ count_by (λ prefix. nat_lt most (both_at counts.old prefix)) (range_with_len 0 places) }
    ensures few { result ≤ places }
{
    let most = u64::from(most);
    let mut above = 0;
    for place in 0..places {
        let both = counts[2 * place] + counts[2 * place + 1];
        counts[place] = both;
        if both > most {
            above += 1;
        }
    }
    above
}

// How many prefixes of so many bits there are.
fn places(depth: u32) -> usize
    requires { depth ≤ 20 }
    ensures exact { result ≡ 2 ^ depth }
    ensures small { result < 2000000 }
{
    1 << depth
}
