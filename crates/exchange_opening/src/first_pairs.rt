//! Which pairs find no room, of those that a table is to begin with.
//!
//! The pairs of a class that were brought are a chain of their places, which no class has more than 16 of. A link is
//! one more than a place, or 0 at the end.

ghost use Rattle.std.specs.Prelude.{◌≡◌, ℕ, List, ◌+◌, ◌^◌, ◌<◌, ◌≤◌, IfOk, length, replicate};
ghost use Rattle.plain_map.specs.PlainObject.{InRange, Sessions, map_after};
ghost use Rattle.bucket_states.specs.Items.{same_key};
ghost use Rattle.exchange_model.specs.Plans.{rules_of};
ghost use Rattle.exchange_opening.specs.Chains.{AreLinked, HasCounted, IsChain, pair_at, pairs_on};
ghost use Rattle.exchange_opening.specs.FirstPairs.{bringing, lacks_room, places_without_room};
ghost use Rattle.exchange_opening.specs.Openings.{plan_of};

use exchange_calls::TableSizes;
use hash_bits::Hashing;
use plain_map::{Key, Pair, Rules};
use std::alloc::{AllocError, Global};

/// The places of the pairs that find no room in a table of these sizes, counted from 0: those at which the plain map,
/// asked to insert the pairs one after the other, has no room.
///
/// So a key that comes again finds room exactly where it did at first. The only error is want of memory.
///
/// **Time:** each pair is compared with those of its class that were brought before it, of which there are at most 16.
pub fn which_find_no_room(
    alloc: Global,
    sizes: TableSizes,
    hashing: Hashing,
    pairs: &[Pair],
) -> Result<Vec<usize>, AllocError>
    requires { 1 ≤ sizes.items }
    ensures { IfOk result (λ places.
        places.items ≡ places_without_room (rules_of (plan_of sizes hashing)) pairs.now) }
{
    let rules = Rules {
        items: sizes.items,
        depth: sizes.depth,
        hashing,
    };
    let mut lasts = zeros(alloc, 1 << sizes.depth)?;
    let mut links = zeros(alloc, pairs.len())?;
    bring_all(alloc, &rules, pairs, &mut lasts, &mut links)
}

// Brings the pairs one after the other, and tells which of them found no room. Nothing is linked yet.
fn bring_all(
    alloc: Global,
    rules: &Rules,
    pairs: &[Pair],
    lasts: &mut [usize],
    links: &mut [usize],
) -> Result<Vec<usize>, AllocError>
    requires range { InRange rules.now }
    requires lasts { lasts.old ≡ replicate (2 ^ rules.now.depth) 0 }
    requires links { links.old ≡ replicate (length pairs.now) 0 }
    ensures { IfOk result (λ places. places.items ≡ places_without_room rules.now pairs.now) }
{
    let mut places = Vec::new(alloc);
    for place in 0..pairs.len() {
        if bring(rules, pairs, place, lasts, links) {
            places.push(place)?;
        }
    }
    Ok(places)
}

// So many links that lead nowhere.
fn zeros(alloc: Global, count: usize) -> Result<Vec<usize>, AllocError>
    ensures { IfOk result (λ links. links.items ≡ replicate count 0) }
{
    let mut links = Vec::with_capacity(alloc, count)?;
    links.resize(count, 0)?;
    Ok(links)
}

// Brings the pair at this place behind the earlier ones, and tells whether there was no room for it.
fn bring(
    rules: &Rules,
    pairs: &[Pair],
    place: usize,
    lasts: &mut [usize],
    links: &mut [usize],
) -> bool
    requires range { InRange rules.now }
    requires place { place < length pairs.now }
    requires linked { (sessions : Sessions) × AreLinked rules.now pairs.now place lasts.old links.old sessions }
    ensures { (sessions : Sessions) → AreLinked rules.now pairs.now place lasts.old links.old sessions →
        (lacks_room rules.now sessions (pair_at pairs.now place) ≡ result)
        × AreLinked rules.now pairs.now (place + 1) lasts.new links.new
        (map_after rules.now sessions (bringing (pair_at pairs.now place))) }
{
    let class = rules.class_of(&pairs[place].key) as usize;
    let last = lasts[class];
    match others(pairs, links, last, &pairs[place].key) {
        None => false,
        Some(many) => {
            if many < rules.items as usize {
                links[place] = last;
                lasts[class] = place + 1;
                false
            } else {
                true
            }
        }
    }
}

// How many pairs the chain from this link on has, if none of them has the key.
fn others(pairs: &[Pair], links: &[usize], last: usize, key: &Key) -> Option<usize>
    requires room { length links.now ≡ length pairs.now }
    requires chain { (places : List ℕ) × IsChain links.now (length pairs.now) last places }
    ensures { (places : List ℕ) → IsChain links.now (length pairs.now) last places →
        HasCounted key.now (pairs_on pairs.now places) result }
{
    let mut link = last;
    let mut many = 0;
    while link != 0 {
        let place = link - 1;
        if has_key(&pairs[place], key) {
            return None;
        }
        link = links[place];
        many += 1;
    }
    Some(many)
}

// Whether the pair has the key.
fn has_key(pair: &Pair, key: &Key) -> bool
    ensures { result ≡ same_key pair.now.key key.now }
{
    pair.key == *key
}
