//! Tells what a batch asks of its table, from its calls.

ghost use Rattle.std.specs.Prelude.{◌≡◌, ◌<◌, ◌∷◌, [], All, IfOk, map, vec_len};
ghost use Rattle.std.specs.Option.{option_map_or};
ghost use Rattle.table_model.specs.Needs.{inserted_by};
ghost use Rattle.batch_rows.specs.BatchRows.{inserted_in_calls, updates_in_calls};
ghost use Rattle.batch_rows.specs.Counts.{AreInOrder, HaveSameKeys};
ghost use Rattle.batch_rows.specs.Demands.{IsDemandOf};
ghost use Rattle.batch_rows.specs.declared.rows.TheConstants.{CALL_LIMIT};

use crate::demand::Demand;
use crate::hints::{HINTS, hint_place, is_hinted};
use crate::keys::keep_once;
use crate::rows::updates_of;
use plain_map::{Call, Key};
use std::alloc::{AllocError, Global};

// So many keys have room before memory is asked for again.
const FIRST_ROOM: usize = 256;

/// What a batch of these calls asks of its table, of which each seat makes its share, seat 0 first.
///
/// Whoever reads the calls tells this once, while they are at hand: it is far less than the calls. The only error is
/// want of memory.
pub fn demand_of(
    alloc: Global,
    calls: &[(u32, Call)],
    shares: &[Vec<(u32, Call)>],
) -> Result<Demand, AllocError>
    requires few { All (λ share. vec_len share < CALL_LIMIT) shares.now }
    ensures demand { IfOk result (IsDemandOf calls.now (map (λ share. share.items) shares.now)) }
    ensures few { IfOk result (λ demand. All (λ updates. updates < CALL_LIMIT) demand.updates.items) }
{
    let inserted = inserted_keys(alloc, calls)?;
    let updates = updates_in(alloc, shares)?;
    Ok(Demand { inserted, updates })
}

// The key that the call may insert.
#[inline(always)]
fn inserted_by(call: &Call) -> Option<Key>
    ensures { inserted_by call.now ≡ option_map_or (λ key. key ∷ []) result [] }
{
    match call {
        Call::Insert(key, _) | Call::Count(key, _, _) | Call::Put(key, _) => Some(*key),
        Call::Remove(_) | Call::Lookup(_) | Call::Tally(_, _) => None,
    }
}

// The keys that these calls may insert, in order and each once. Most that stand there again are left out before the
// sort: those of which the last key that has their hint is the same.
fn inserted_keys(alloc: Global, calls: &[(u32, Call)]) -> Result<Vec<Key>, AllocError>
    ensures same { IfOk result (λ inserted. HaveSameKeys inserted.items (inserted_in_calls calls.now)) }
    ensures in_order { IfOk result (λ inserted. AreInOrder inserted.items) }
{
    let mut hints = vec![in alloc; 0u32; HINTS]?;
    let mut inserted = Vec::with_capacity(alloc, FIRST_ROOM)?;
    for asked in calls {
        match inserted_by(&asked.1) {
            Some(key) => {
                if !is_hinted(&inserted, &hints, &key) {
                    hints[hint_place(&key)] = u32::try_from(inserted.len()).unwrap_or(0);
                    inserted.push(key)?;
                }
            }
            None => {}
        }
    }
    keep_once(&mut inserted);
    Ok(inserted)
}

// How many of the calls of each share are updates.
fn updates_in(alloc: Global, shares: &[Vec<(u32, Call)>]) -> Result<Vec<u32>, AllocError>
    requires few { All (λ share. vec_len share < CALL_LIMIT) shares.now }
    ensures count { IfOk result (λ updates.
        updates.items ≡ map updates_in_calls (map (λ share. share.items) shares.now)) }
    ensures few { IfOk result (λ updates. All (λ number. number < CALL_LIMIT) updates.items) }
{
    let mut updates = Vec::with_capacity(alloc, shares.len())?;
    for share in shares {
        updates.push(updates_of(share))?;
    }
    Ok(updates)
}
