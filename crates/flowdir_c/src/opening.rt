//! What a table is opened with.

ghost use Rattle.std.specs.Prelude.{
  ◌≡◌,
  ◌≢◌,
  ◌^◌,
  ◌<◌,
  All,
  Err,
  IfOk,
  IfSome,
  IsPermutation,
  IsTrue,
  None,
  false,
  length,
  map,
  replicate,
};
ghost use Rattle.std.specs.List.Sorted.{IsSortedByKey};
ghost use Rattle.plain_map.specs.Keys.{key_cmp};
ghost use Rattle.plain_map.specs.Updates.{IsSmallPair};
ghost use Rattle.bucket_states.specs.Parts.{HasDistinctKeys};
ghost use Rattle.table_model.specs.Setup.{IsPair};
ghost use Rattle.word_rows.specs.Shape.{AreBelow};
ghost use Rattle.flowdir_c.specs.Told.{pair_of};
ghost use Rattle.flowdir_c.specs.Fit.{AreFitPairs};
ghost use Rattle.flowdir_c.specs.declared.opening.NotOpened.TheVariants.{Bad, NoRoom};

use crate::answer::FlowPair;
use plain_map::{Pair, VALUE_LIMIT};
use std::alloc::{AllocError, Global};
use step_counts::SeatRows;

/// Why no table was opened.
#[derive(Clone, Copy)]
pub(crate) enum NotOpened {
    Memory,
    Bad,
    NoRoom,
}

/// These rows, where a table can have as many.
pub(crate) fn rows_in_range(rows: SeatRows) -> Option<SeatRows>
    ensures small { IfSome result (AreBelow (2 ^ 32)) }
    ensures same { IfSome result (λ r. r ≡ rows) }
    ensures none { result ≡ None → AreBelow (2 ^ 32) rows → ⊥ }
{
    let most = 1 << 32;
    if rows.op_rows < most
        && rows.bucket_rows < most
        && rows.bucket_words < most
        && rows.directory_rows < most
    {
        Some(rows)
    } else {
        None
    }
}

/// Such rows for each of so many seats.
pub(crate) fn rows_of(
    alloc: Global,
    rows: SeatRows,
    seats: u32,
) -> Result<Vec<SeatRows>, AllocError>
    requires { AreBelow (2 ^ 32) rows }
    ensures small { IfOk result (λ v. All (AreBelow (2 ^ 32)) v.items) }
    ensures each_seat { IfOk result (λ v. length v.items ≡ seats) }
    ensures same { IfOk result (λ v. v.items ≡ replicate seats rows) }
{
    vec![in alloc; rows; seats as usize]
}

// The pairs as the table has them.
fn copied(alloc: Global, first: &[FlowPair]) -> Result<Vec<Pair>, AllocError>
    ensures { IfOk result (λ pairs. pairs.items ≡ map pair_of first.now) }
{
    let mut pairs = Vec::with_capacity(alloc, first.len())?;
    for pair in first {
        pairs.push_reserved(pair.to_pair());
    }
    Ok(pairs)
}

// The pairs in the order of their keys.
fn in_order(mut pairs: Vec<Pair>) -> Vec<Pair>
    ensures all { IsPermutation pairs.items result.items }
    ensures sorted { IsSortedByKey (λ pair. pair.key) key_cmp result.items }
{
    pairs.sort_unstable_by_key(|pair| pair.key);
    pairs
}

// Whether all values and bytes can be kept.
fn can_be_kept(first: &[FlowPair]) -> bool
    ensures kept { IsTrue result → All IsPair (map pair_of first.now) }
    ensures lost { result ≡ false → All IsSmallPair (map pair_of first.now) → ⊥ }
{
    for given in first {
        let pair = given.to_pair();
        pair.key.has_words();
        if pair.value >= VALUE_LIMIT || pair.bytes >= VALUE_LIMIT {
            return false;
        }
    }
    true
}

// Whether no two neighbours have one key.
fn are_apart(pairs: &[Pair]) -> bool
    requires { IsSortedByKey (λ pair. pair.key) key_cmp pairs.now }
    ensures apart { IsTrue result → HasDistinctKeys pairs.now }
    ensures twice { result ≡ false → HasDistinctKeys pairs.now → ⊥ }
{
    for i in 1..pairs.len() {
        if pairs[i - 1].key == pairs[i].key {
            return false;
        }
    }
    true
}

/// The pairs that a table begins with, in the order of their keys. `Bad` comes if a value or its bytes are too large,
/// and else only if a key stands twice, which is seen once they are copied; `NoRoom` never.
pub(crate) fn first_pairs(alloc: Global, first: &[FlowPair]) -> Result<Vec<Pair>, NotOpened>
    ensures all { IfOk result (λ pairs. IsPermutation (map pair_of first.now) pairs.items) }
    ensures pairs { IfOk result (λ pairs. All IsPair pairs.items) }
    ensures distinct { IfOk result (λ pairs. HasDistinctKeys pairs.items) }
    ensures bad { result ≡ Err Bad → AreFitPairs (map pair_of first.now) → ⊥ }
    ensures large { (All IsSmallPair (map pair_of first.now) → ⊥) → result ≡ Err Bad }
    ensures room { result ≢ Err NoRoom }
{
    if !can_be_kept(first) {
        return Err(NotOpened::Bad);
    }
    let Ok(pairs) = copied(alloc, first) else {
        return Err(NotOpened::Memory);
    };
    let pairs = in_order(pairs);
    if !are_apart(&pairs) {
        return Err(NotOpened::Bad);
    }
    Ok(pairs)
}
