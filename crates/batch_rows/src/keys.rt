//! Lists of keys.

ghost use Rattle.std.specs.Prelude.{◌≡◌, ◌++◌, IfOk};
ghost use Rattle.bucket_states.specs.Parts.{keys_of};
ghost use Rattle.batch_rows.specs.Counts.{AreInOrder, HaveSameKeys};

use plain_map::{Key, Pair};
use std::alloc::{AllocError, Global};

/// The keys of these pairs.
pub(crate) fn first_keys(alloc: Global, first: &[Pair]) -> Result<Vec<Key>, AllocError>
    ensures { IfOk result (λ keys. keys.items ≡ keys_of first.now) }
{
    let mut keys = Vec::with_capacity(alloc, first.len())?;
    for pair in first {
        keys.push(pair.key)?;
    }
    Ok(keys)
}

/// The keys of both lists: in order and each once, where both lists are.
pub(crate) fn union_of(alloc: Global, keys: &[Key], others: &[Key]) -> Result<Vec<Key>, AllocError>
    ensures same { IfOk result (λ all. HaveSameKeys all.items (keys.now ++ others.now)) }
    ensures in_order { IfOk result (λ all. AreInOrder keys.now → AreInOrder others.now → AreInOrder all.items) }
{
    let mut all = Vec::with_capacity(alloc, keys.len() + others.len())?;
    let mut place = 0;
    for other in others {
        while place < keys.len() && keys[place] < *other {
            all.push(keys[place])?;
            place += 1;
        }
        if place == keys.len() || keys[place] != *other {
            all.push(*other)?;
        }
    }
    all.extend_from_slice(&keys[place..])?;
    Ok(all)
}

/// Keeps each key once, and puts them in order.
pub(crate) fn keep_once(keys: &mut Vec<Key>)
    ensures same { HaveSameKeys keys.new.items keys.old.items }
    ensures in_order { AreInOrder keys.new.items }
{
    keys.sort_unstable();
    keys.dedup();
}
