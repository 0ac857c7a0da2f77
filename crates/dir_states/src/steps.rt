//! The change step by step: the parts of a frozen bucket, and the answer to one op in the leaf of its key.

ghost use Rattle.std.specs.Prelude.{◌≡◌, ◌+◌, ◌<◌, ◌≤◌, ◌↔◌, All, IsTrue, Some, length, map, slice_index, vec_capacity, vec_len};
ghost use Rattle.std.specs.List.{list_any};
ghost use Rattle.bucket_states.specs.Change.{answered};
ghost use Rattle.bucket_states.specs.States.{state_of};
ghost use Rattle.table_model.specs.Leaves.{apply};
ghost use Rattle.table_model.specs.DirectoryChange.{
  after_op_in,
  comes_from,
  is_frozen_without,
  leaves_after_seat,
  with_parts,
};
ghost use Rattle.dir_states.specs.Fit.{MakesLeaves, CanSplit};
ghost use Rattle.dir_states.specs.Rooms.{AreKept, HasItems, IsMade, IsTable};
ghost use Rattle.dir_states.specs.Views.{as_directory, as_leaf, as_loaded};

use crate::leaves::{Leaves, Table, add_leaf, leaf_place, split_for};
use crate::parts::parts;
use crate::values::loaded_place;
use crate::{DirState, Loaded, NewLeaf};
use bucket_states::{Bucket, Op};

// Whether a leaf comes from this bucket.
fn is_split(bucket: u64, leaves: &[NewLeaf]) -> bool
    ensures { result ≡ list_any (comes_from bucket) (map as_leaf leaves.now) }
{
    for leaf in leaves {
        if leaf.from == Some(bucket) {
            return true;
        }
    }
    false
}

// Whether the bucket was loaded frozen, without this op of the seat.
fn is_frozen_without(seat: usize, op: &Op, loaded: &Loaded) -> bool
    ensures { result ≡ is_frozen_without seat op.now (as_loaded loaded.now) }
{
    let applied = match loaded.state.applied.get(seat) {
        Some(number) => *number,
        None => 0,
    };
    loaded.state.frozen && applied < op.number
}

// Whether the bucket can be split, and is one of a table.
fn can_split(table: &Table, bucket: &Bucket) -> bool
    requires { IsTable table.now }
    ensures { IsTrue result ↔ CanSplit table.now.rules.depth table.now.seats (state_of bucket.now) }
{
    bucket.depth < table.rules.depth
        && bucket.prefix < 1u64 << bucket.depth
        && bucket.applied.len() == table.seats as usize
        && bucket.replies.len() == table.seats as usize
}

// Answers the op in a leaf.
fn answer_in(table: &Table, seat: usize, op: &Op, leaf: &mut NewLeaf)
    requires table { IsTable table.now }
    requires seat { seat < table.now.seats }
    requires made { IsMade table.now leaf.old }
    ensures answered { as_leaf leaf.new ≡ record {
      from = leaf.old.from;
      bucket = answered table.now.rules
          (state_of leaf.old.bucket) seat op.now;
    } }
    ensures made { IsMade table.now leaf.new }
{
    leaf.bucket.answer(&table.rules, seat, op);
}

// The leaves with the op answered in the leaf of its key.
fn apply(table: &Table, seat: usize, op: &Op, leaves: &mut Vec<NewLeaf>)
    requires table { IsTable table.now }
    requires seat { seat < table.now.seats }
    requires made { All (IsMade table.now) leaves.old.items }
    ensures applied { map as_leaf leaves.new.items ≡ apply table.now.rules seat op.now (map as_leaf leaves.old.items) }
    ensures made { All (IsMade table.now) leaves.new.items }
    ensures len { vec_len leaves.new ≡ vec_len leaves.old }
    ensures room { vec_capacity leaves.new ≡ vec_capacity leaves.old }
{
    if let Some(place) = leaf_place(&table.rules, op.call.key(), leaves) {
        answer_in(table, seat, op, &mut leaves[place]);
    }
}

// The leaves with the two parts of a frozen bucket, unless it was split already. It fails only where they are not fit.
fn with_parts(table: &Table, loaded: &Loaded, leaves: &mut Leaves) -> bool
    requires table { IsTable table.now }
    requires kept { AreKept table.now leaves.old }
    requires items { HasItems table.now.items loaded.now }
    requires few { vec_len leaves.old.made + 2 ≤ table.now.most }
    ensures made { MakesLeaves table.now.rules.depth table.now.seats
        (with_parts table.now.rules (as_loaded loaded.now) (map as_leaf leaves.old.made.items))
        leaves.new.made.items result }
    ensures kept { AreKept table.now leaves.new }
    ensures len { vec_len leaves.new.made ≤ vec_len leaves.old.made + 2 }
{
    if is_split(loaded.bucket, &leaves.made) {
        return true;
    }
    if !can_split(table, &loaded.state) {
        return false;
    }
    let (lower, upper) = parts(table, Some(loaded.bucket), &loaded.state, &mut leaves.spare);
    add_leaf(table, lower, &mut leaves.made);
    add_leaf(table, upper, &mut leaves.made);
    true
}

// The leaves after a seat's op, whose bucket was loaded so. It fails only where they are not fit.
fn after_op(table: &Table, seat: usize, op: &Op, loaded: &Loaded, leaves: &mut Leaves) -> bool
    requires table { IsTable table.now }
    requires seat { seat < table.now.seats }
    requires kept { AreKept table.now leaves.old }
    requires items { HasItems table.now.items loaded.now }
    requires few { vec_len leaves.old.made + table.now.rules.depth + 2 < table.now.most }
    ensures made { MakesLeaves table.now.rules.depth table.now.seats
        (after_op_in table.now.rules seat op.now (map as_leaf leaves.old.made.items) (Some (as_loaded loaded.now)))
        leaves.new.made.items result }
    ensures kept { AreKept table.now leaves.new }
    ensures len { vec_len leaves.new.made ≤ vec_len leaves.old.made + table.now.rules.depth + 2 }
{
    if !is_frozen_without(seat, op, loaded) {
        return true;
    }
    if !with_parts(table, loaded, leaves) {
        return false;
    }
    if !split_for(table, &op.call, table.rules.depth, leaves) {
        return false;
    }
    apply(table, seat, op, &mut leaves.made);
    true
}

/// The leaves after one seat, which may have announced nothing. It fails only where they are not fit.
pub(crate) fn after_seat(
    table: &Table,
    directory: &DirState,
    loaded: &[Loaded],
    seat: usize,
    op: &Option<Op>,
    leaves: &mut Leaves,
) -> bool
    requires table { IsTable table.now }
    requires seat { seat < table.now.seats }
    requires depth { directory.now.depth ≤ 64 }
    requires kept { AreKept table.now leaves.old }
    requires items { All (HasItems table.now.items) loaded.now }
    requires few { vec_len leaves.old.made + table.now.rules.depth + 2 < table.now.most }
    ensures made { MakesLeaves table.now.rules.depth table.now.seats
        (leaves_after_seat table.now.rules (as_directory directory.now) (map as_loaded loaded.now) seat op.now
        (map as_leaf leaves.old.made.items)) leaves.new.made.items result }
    ensures kept { AreKept table.now leaves.new }
    ensures len { vec_len leaves.new.made ≤ vec_len leaves.old.made + table.now.rules.depth + 2 }
{
    let Some(op) = op else {
        return true;
    };
    let bucket = directory.bucket_of(&table.rules, op.call.key());
    match loaded_place(loaded, bucket) {
        Some(place) => after_op(table, seat, op, &loaded[place], leaves),
        None => true,
    }
}
