//! The leaves of an opening: how far each prefix is cut.

ghost use Rattle.std.specs.Prelude.{◌≡◌, ◌∷◌, ◌++◌, ◌+◌, ◌-◌, ◌^◌, ◌<◌, ◌≤◌, nat_lt, [], List, length, map, vec_len};
ghost use Rattle.plain_map.specs.declared.keys.Pair.{Pair as Item};
ghost use Rattle.plain_map.specs.PlainObject.{InRange};
ghost use Rattle.dir_states.specs.Cuts.{below, cut_leaves, held, leaf_with};
ghost use Rattle.dir_states.specs.Openings.{AreCounted, AreOpen};
ghost use Rattle.dir_states.specs.Views.{as_leaf};

use crate::counts::is_crowded;
use crate::leaves::{Leaves, Table};

/// All leaves are spare again.
pub(crate) fn spare_all(table: &Table, leaves: &mut Leaves)
    requires open { AreOpen table.now.seats table.now.items table.now.most leaves.old }
    ensures none { leaves.new.made.items ≡ [] }
    ensures open { AreOpen table.now.seats table.now.items table.now.most leaves.new }
    ensures len { vec_len leaves.new.made ≡ 0 }
{
    while let Some(leaf) = leaves.made.pop() {
        leaves.spare.push_reserved(leaf);
    }
}

/// The leaves of all prefixes of the starting depth, without pairs.
pub(crate) fn cut(table: &Table, start: u32, counts: &[u32], leaves: &mut Leaves)
    requires range { InRange table.now.rules }
    requires within { start ≤ table.now.rules.depth }
    requires counts { length counts.now ≡ 2 ^ table.now.rules.depth }
    requires open { AreOpen table.now.seats table.now.items table.now.most leaves.old }
    requires none { leaves.old.made.items ≡ [] }
    requires len { vec_len leaves.old.made ≡ 0 }
    requires most { table.now.most ≡ 2 ^ table.now.rules.depth }
    ensures leaves { (first : List Item) → AreCounted table.now.rules first counts.now →
        map as_leaf leaves.new.made.items ≡ cut_leaves table.now.rules table.now.seats first [] start }
    ensures open { AreOpen table.now.seats table.now.items table.now.most leaves.new }
{
    let more = table.rules.depth - start;
    for prefix in 0..1u64 << start {
        grow(table, more, prefix, counts, leaves);
    }
}

// The leaves below a prefix, where so many bits more may be taken.
fn grow(table: &Table, more: u32, prefix: u64, counts: &[u32], leaves: &mut Leaves)
    requires range { InRange table.now.rules }
    requires more { more ≤ table.now.rules.depth }
    requires prefix { prefix < 2 ^ (table.now.rules.depth - more) }
    requires counts { length counts.now ≡ 2 ^ table.now.rules.depth }
    requires open { AreOpen table.now.seats table.now.items table.now.most leaves.old }
    requires few { vec_len leaves.old.made + 2 ^ more ≤ table.now.most }
    ensures leaves { (first : List Item) → AreCounted table.now.rules first counts.now →
        map as_leaf leaves.new.made.items
        ≡ map as_leaf leaves.old.made.items ++ below table.now.rules table.now.seats first [] more
        (table.now.rules.depth - more) prefix }
    ensures open { AreOpen table.now.seats table.now.items table.now.most leaves.new }
    ensures len { vec_len leaves.new.made ≤ vec_len leaves.old.made + 2 ^ more }
{
    if more == 0 || !is_cut(table, more, prefix, counts) {
        one_leaf(table, table.rules.depth - more, prefix, leaves);
        return;
    }
    grow(table, more - 1, 2 * prefix, counts, leaves);
    grow(table, more - 1, 2 * prefix + 1, counts, leaves);
}

// Whether more pairs have the prefix than a bucket has room for.
fn is_cut(table: &Table, more: u32, prefix: u64, counts: &[u32]) -> bool
    requires range { InRange table.now.rules }
    requires more { more ≤ table.now.rules.depth }
    requires prefix { prefix < 2 ^ (table.now.rules.depth - more) }
    requires counts { length counts.now ≡ 2 ^ table.now.rules.depth }
    ensures { (first : List Item) → AreCounted table.now.rules first counts.now →
        result ≡ nat_lt table.now.rules.items (held table.now.rules first (table.now.rules.depth - more) prefix) }
{
    let low = (prefix as usize) << more;
    is_crowded(counts, table.rules.items, low, low + (1usize << more))
}

// One leaf more, without pairs.
fn one_leaf(table: &Table, depth: u32, prefix: u64, leaves: &mut Leaves)
    requires open { AreOpen table.now.seats table.now.items table.now.most leaves.old }
    requires few { vec_len leaves.old.made < table.now.most }
    ensures leaf { map as_leaf leaves.new.made.items ≡ map as_leaf leaves.old.made.items ++ leaf_with
        table.now.rules table.now.seats [] depth prefix ∷ [] }
    ensures open { AreOpen table.now.seats table.now.items table.now.most leaves.new }
    ensures len { vec_len leaves.new.made ≡ vec_len leaves.old.made + 1 }
{
    match leaves.spare.pop() {
        Some(mut leaf) => {
            leaf.from = None;
            leaf.bucket.prefix = prefix;
            leaf.bucket.depth = depth;
            leaf.bucket.frozen = false;
            leaf.bucket.items.clear();
            leaves.made.push_reserved(leaf);
        }
        None => unreachable!(),
    }
}
