//! Leaves in the order of their prefixes: where each key has its leaf, and how a leaf is split or added.

ghost use Rattle.std.specs.Prelude.{◌≡◌, ℕ, ◌+◌, ◌-◌, ◌*◌, ◌^◌, ◌<◌, ◌≤◌, ◌==◌, All, MatchOption, length, map, slice_index_or, vec_capacity, vec_len, false, true};
ghost use Rattle.hash_bits.specs.Prefix.{first_bits};
ghost use Rattle.plain_map.specs.PlainObject.{InRange};
ghost use Rattle.bucket_states.specs.States.{state_of};
ghost use Rattle.table_model.specs.Leaves.{add_leaf, first_class, is_in, must_split, split, split_for};
ghost use Rattle.dir_states.specs.Fit.{AreHalves, IsFirst, MakesLeaves, NonePasses, is_before};
ghost use Rattle.dir_states.specs.Rooms.{AreKept, IsMade, IsTable};
ghost use Rattle.dir_states.specs.Views.{as_leaf};

use crate::NewLeaf;
use crate::parts::parts;
use bucket_states::Bucket;
use hash_bits::bits;
use plain_map::{Call, Key, Rules};
use std::mem;

/// What is the same for all leaves of a change: the rules, how many seats there are, and for how many items and leaves
/// there is room.
#[derive(Clone, Copy)]
pub(crate) struct Table {
    pub rules: Rules,
    pub seats: u32,
    pub items: usize,
    pub most: usize,
}

/// The leaves that were made, in the order of their prefixes, and the spare ones.
#[derive(Drop)]
pub(crate) struct Leaves {
    pub made: Vec<NewLeaf>,
    pub spare: Vec<NewLeaf>,
}

// Whether a hash has the bucket's prefix. From depth 64 on the first bits are the hash itself.
#[tactic(auto, using(crate::proofs::HashLemmas::prefix_steps))]
fn has(hash: u64, bucket: &Bucket) -> bool
    ensures { result ≡ (first_bits hash bucket.now.depth == bucket.now.prefix) }
{
    let first = if bucket.depth < 64 {
        bits(hash, bucket.depth)
    } else {
        hash
    };
    first == bucket.prefix
}

/// The place of the first leaf that has the key, or `None` where none has it.
#[tactic(auto, unfolding(bucket_states::specs::Items::prefix_of))]
pub(crate) fn leaf_place(rules: &Rules, key: &Key, leaves: &[NewLeaf]) -> Option<usize>
    ensures { MatchOption result
        (NonePasses (λ leaf. is_in rules.now key.now (state_of leaf.bucket)) leaves.now)
        (IsFirst (λ leaf. is_in rules.now key.now (state_of leaf.bucket)) leaves.now) }
{
    let hash = key.hash(&rules.hashing);
    for (place, leaf) in leaves.iter().enumerate() {
        if has(hash, &leaf.bucket) {
            return Some(place);
        }
    }
    None
}

// Whether a leaf of the call's key overflows.
#[tactic(auto, unfolding(bucket_states::specs::Items::prefix_of))]
fn must_split(rules: &Rules, call: &Call, leaves: &[NewLeaf]) -> bool
    ensures { result ≡ must_split rules.now call.now (map as_leaf leaves.now) }
{
    let hash = call.key().hash(&rules.hashing);
    for leaf in leaves {
        if has(hash, &leaf.bucket) && leaf.bucket.overflows(rules, call) {
            return true;
        }
    }
    false
}

// The first class of a bucket, among those of the greatest depth.
fn first_class(rules: &Rules, bucket: &Bucket) -> u128
    requires { InRange rules.now }
    ensures { result ≡ first_class rules.now (state_of bucket.now) }
{
    u128::from(bucket.prefix) * (1u128 << rules.depth.saturating_sub(bucket.depth))
}

// Where a leaf comes among these: before the first of a greater class, and else at the end.
fn place_among(rules: &Rules, leaf: &NewLeaf, leaves: &[NewLeaf]) -> usize
    requires { InRange rules.now }
    ensures within { result ≤ length leaves.now }
    ensures before { (k : ℕ) (d : NewLeaf) → k < result → is_before rules.now leaf.now
        (slice_index_or leaves.now k d) ≡ false }
    ensures here { result < length leaves.now → (d : NewLeaf) →
        is_before rules.now leaf.now (slice_index_or leaves.now result d) ≡ true }
{
    let class = first_class(rules, &leaf.bucket);
    for (place, other) in leaves.iter().enumerate() {
        if class < first_class(rules, &other.bucket) {
            return place;
        }
    }
    leaves.len()
}

/// One more leaf, at its place in the order.
pub(crate) fn add_leaf(table: &Table, leaf: NewLeaf, leaves: &mut Vec<NewLeaf>)
    requires table { IsTable table.now }
    requires leaf { IsMade table.now leaf }
    requires made { All (IsMade table.now) leaves.old.items }
    requires room { vec_len leaves.old < vec_capacity leaves.old }
    ensures added { map as_leaf leaves.new.items ≡ add_leaf table.now.rules (as_leaf leaf)
        (map as_leaf leaves.old.items) }
    ensures made { All (IsMade table.now) leaves.new.items }
    ensures len { vec_len leaves.new ≡ vec_len leaves.old + 1 }
    ensures room { vec_capacity leaves.new ≡ vec_capacity leaves.old }
{
    let place = place_among(&table.rules, &leaf, leaves);
    match leaves.insert(place, leaf) {
        Ok(()) => {}
        Err(_) => unreachable!(),
    }
}

// The leaf at a place in its two parts.
fn halve(table: &Table, place: usize, leaves: &mut Leaves)
    requires kept { AreKept table.now leaves.old }
    requires few { vec_len leaves.old.made + 2 ≤ table.now.most }
    requires place { place < length leaves.old.made.items }
    requires table { IsTable table.now }
    requires deep { (d : NewLeaf) → (slice_index_or leaves.old.made.items place d).bucket.depth <
        table.now.rules.depth }
    ensures parts { AreHalves table.now.rules place leaves.old.made.items leaves.new.made.items }
    ensures kept { AreKept table.now leaves.new }
    ensures len { vec_len leaves.new.made ≡ vec_len leaves.old.made + 1 }
{
    let leaf = &leaves.made[place];
    let (lower, upper) = parts(table, leaf.from, &leaf.bucket, &mut leaves.spare);
    let whole = mem::replace(&mut leaves.made[place], lower);
    leaves.spare.push_reserved(whole);
    match leaves.made.insert(place + 1, upper) {
        Ok(()) => {}
        Err(_) => unreachable!(),
    }
}

// The leaves with the leaf of the key in its two parts. It fails only where they are not fit.
fn split(table: &Table, key: &Key, leaves: &mut Leaves) -> bool
    requires table { IsTable table.now }
    requires kept { AreKept table.now leaves.old }
    requires few { vec_len leaves.old.made + 2 ≤ table.now.most }
    ensures made { MakesLeaves table.now.rules.depth table.now.seats
        (split table.now.rules key.now (map as_leaf leaves.old.made.items)) leaves.new.made.items result }
    ensures kept { AreKept table.now leaves.new }
    ensures len { vec_len leaves.new.made ≤ vec_len leaves.old.made + 1 }
{
    let Some(place) = leaf_place(&table.rules, key, &leaves.made) else {
        return true;
    };
    if leaves.made[place].bucket.depth >= table.rules.depth {
        return false;
    }
    halve(table, place, leaves);
    true
}

/// The leaves with the leaf of the call's key split as long as it must be, and at most so often. It fails only where
/// they are not fit.
pub(crate) fn split_for(table: &Table, call: &Call, most: u32, leaves: &mut Leaves) -> bool
    requires table { IsTable table.now }
    requires kept { AreKept table.now leaves.old }
    requires few { vec_len leaves.old.made + most < table.now.most }
    ensures made { MakesLeaves table.now.rules.depth table.now.seats
        (split_for table.now.rules call.now most (map as_leaf leaves.old.made.items)) leaves.new.made.items result }
    ensures kept { AreKept table.now leaves.new }
    ensures len { vec_len leaves.new.made ≤ vec_len leaves.old.made + most }
{
    if most == 0 || !must_split(&table.rules, call, &leaves.made) {
        return true;
    }
    if !split(table, call.key(), leaves) {
        return false;
    }
    split_for(table, call, most - 1, leaves)
}
