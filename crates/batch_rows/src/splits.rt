//! How deep the buckets of a batch can become, and how often one can be split, from the batch's own keys.

ghost use Rattle.std.specs.Prelude.{◌≡◌, ◌++◌, ◌^◌, ◌<◌, ◌≤◌, IfOk};
ghost use Rattle.plain_map.specs.PlainObject.{InRange};
ghost use Rattle.bucket_states.specs.Parts.{keys_of};
ghost use Rattle.table_model.specs.Needs.{splits_for};
ghost use Rattle.batch_rows.specs.Counts.{AreInOrder};
ghost use Rattle.batch_rows.specs.Depths.{depth_for, lesser_rules};

use crate::crowds::crowded;
use crate::keys::{first_keys, keep_once, union_of};
use plain_map::{Key, Pair, Rules};
use std::alloc::{AllocError, Global};

/// What the buckets of a batch's table can need.
#[derive(Clone, Copy)]
pub(crate) struct Splits {
    /// The greatest depth: one more than the last of which a bucket can be split, or else the starting one.
    pub depth: u32,
    /// How often at most a bucket is split after the opening.
    pub splits: u64,
}

/// The greatest depth that a table of this starting depth needs where it begins with these pairs and these keys are
/// inserted, each as often as may be, and how often at most a bucket of it is then split after the opening.
///
/// The depth is the starting one and as many more as there are depths of which some prefix gets more keys than a bucket
/// has room for. The splits are how many prefixes do: of the pairs and the inserts together, less those of the pairs
/// alone. A part of a prefix gets no more keys than the prefix, so from the depth that is found on there are none, and
/// the pairs alone are counted by the bits of that depth.
///
/// The keys of the pairs are sorted, and the inserted ones, which are in order, are merged with them. It takes memory
/// for the keys, twice, and a word for each place of the greatest directory. It is quick where the pairs are in the
/// order of their keys: the sort finds nothing to move.
pub(crate) fn splits_of(
    alloc: Global,
    rules: &Rules,
    start: u32,
    first: &[Pair],
    inserted: &[Key],
) -> Result<Splits, AllocError>
    requires range { InRange rules.now }
    requires within { start ≤ rules.now.depth }
    requires in_order { AreInOrder inserted.now }
    ensures depth { IfOk result (λ found.
        found.depth ≡ depth_for rules.now start (keys_of first.now ++ inserted.now)) }
    ensures within { IfOk result (λ found. (start ≤ found.depth) × (found.depth ≤ rules.now.depth)) }
    ensures exact { IfOk result (λ found. found.splits ≡ splits_for
        (lesser_rules rules.now start (keys_of first.now ++ inserted.now)) start (keys_of first.now) inserted.now) }
    ensures few { IfOk result (λ found. found.splits < 2 ^ 32) }
{
    let mut keys = first_keys(alloc, first)?;
    keep_once(&mut keys);
    let all = union_of(alloc, &keys, inserted)?;
    let after = crowded(alloc, rules, start, &all)?;
    let depth = start + after.levels;
    let lesser = Rules { depth, ..*rules };
    let before = crowded(alloc, &lesser, start, &keys)?;
    let splits = after.prefixes.saturating_sub(before.prefixes);
    Ok(Splits { depth, splits })
}
