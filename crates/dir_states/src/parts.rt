//! The two parts of a bucket, as leaves.

ghost use Rattle.std.specs.Prelude.{◌≡◌, ◌+◌, ◌≤◌, All, length, vec_capacity, vec_len};
ghost use Rattle.bucket_states.specs.Halves.{half};
ghost use Rattle.bucket_states.specs.States.{state_of};
ghost use Rattle.dir_states.specs.Fit.{CanSplit};
ghost use Rattle.dir_states.specs.Rooms.{HasLeafRoom, IsMade, IsTable};
ghost use Rattle.dir_states.specs.Views.{as_leaf};

use crate::NewLeaf;
use crate::leaves::Table;
use bucket_states::Bucket;

// A spare leaf.
fn spare_leaf(table: &Table, spare: &mut Vec<NewLeaf>) -> NewLeaf
    requires some { 1 ≤ vec_len spare.old }
    requires room { All (HasLeafRoom table.now) spare.old.items }
    ensures leaf { HasLeafRoom table.now result }
    ensures rest { All (HasLeafRoom table.now) spare.new.items }
    ensures len { vec_len spare.new + 1 ≡ vec_len spare.old }
    ensures room { vec_capacity spare.new ≡ vec_capacity spare.old }
{
    match spare.pop() {
        Some(leaf) => leaf,
        None => unreachable!(),
    }
}

/// The two parts of a bucket, as leaves that come from the bucket with the number `from`.
pub(crate) fn parts(
    table: &Table,
    from: Option<u64>,
    bucket: &Bucket,
    spare: &mut Vec<NewLeaf>,
) -> (NewLeaf, NewLeaf)
    requires table { IsTable table.now }
    requires some { 2 ≤ vec_len spare.old }
    requires room { All (HasLeafRoom table.now) spare.old.items }
    requires can { CanSplit table.now.rules.depth table.now.seats (state_of bucket.now) }
    requires few { length bucket.now.items.items ≤ table.now.items }
    ensures zero { as_leaf result.0 ≡ record { from = from; bucket = half table.now.rules 0 (state_of bucket.now) } }
    ensures one { as_leaf result.1 ≡ record { from = from; bucket = half table.now.rules 1 (state_of bucket.now) } }
    ensures made { IsMade table.now result.0 × IsMade table.now result.1 }
    ensures rest { All (HasLeafRoom table.now) spare.new.items }
    ensures len { vec_len spare.new + 2 ≡ vec_len spare.old }
    ensures room { vec_capacity spare.new ≡ vec_capacity spare.old }
{
    let mut zero = spare_leaf(table, spare);
    let mut one = spare_leaf(table, spare);
    zero.from = from;
    one.from = from;
    bucket.split_one(&table.rules, &mut zero.bucket, &mut one.bucket);
    (zero, one)
}
