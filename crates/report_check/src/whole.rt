//! The least packet that does not stand in the order as often as it must.

ghost use Rattle.std.specs.Prelude.{◌≡◌, ◌+◌, ◌<◌, ◌≤◌, List, ℕ, IfOk, IsPermutation, IsSortedByKey, MatchBool, MatchOption, length, map, nat_le};
ghost use Rattle.std.specs.List.Sorted.{IsNonDecreasing};
ghost use Rattle.std.specs.Ordering.{nat_cmp};
ghost use Rattle.plain_map.specs.declared.records.Record.{Record as ARecord};
ghost use Rattle.plain_map.specs.declared.records.Pending.{Pending as APending};
ghost use Rattle.report_told.specs.Told.{Told};
ghost use Rattle.report_told.specs.Rules.{times};
ghost use Rattle.report_told.specs.Points.{IsWhole};
ghost use Rattle.report_told.specs.Verdicts.{IsLeastFault};
ghost use Rattle.report_check.specs.Facts.{Facts};
ghost use Rattle.report_check.specs.Whole.{AreInOrder, IsFirstMissing, IsFirstStray, IsLeastOf, IsRepeated, IsThere, MayBeThere, StandsSo, answers_at, effects_at};

use crate::long::is_update;
use crate::places::{call_of, pending_of};
use plain_map::{Pending, Record};
use std::alloc::{AllocError, Global};

/// The least packet that does not stand in the order as often as it must.
pub(crate) fn least_fault(
    alloc: Global,
    calls: &[Record],
    pending: &[Pending],
    order: &[u32],
) -> Result<Option<u32>, AllocError>
    ensures { IfOk result (λ found. (told : Told) → Facts told calls.now pending.now order.now →
        MatchOption found (IsWhole told) (IsLeastFault told)) }
{
    let sorted = in_order(alloc, order)?;
    let missing = first_missing(calls, &sorted);
    let stray = first_stray(calls, pending, &sorted);
    Ok(least(missing, stray))
}

// The packets of the order, the least first.
fn in_order(alloc: Global, order: &[u32]) -> Result<Vec<u32>, AllocError>
    ensures same { IfOk result (λ sorted. IsPermutation order.now sorted.items) }
    ensures rises { IfOk result (λ sorted. IsNonDecreasing sorted.items) }
{
    let mut sorted = Vec::from_slice(alloc, order)?;
    sorted.sort_unstable();
    Ok(sorted)
}

// The least packet that has an answered call and does not stand.
fn first_missing(calls: &[Record], sorted: &[u32]) -> Option<u32>
    ensures { IsSortedByKey (λ r. r.packet) nat_cmp calls.now → IsNonDecreasing sorted.now →
        MatchOption result ((packet : ℕ) → IsThere calls.now sorted.now packet) (IsFirstMissing calls.now sorted.now) }
{
    for call in calls {
        if !stands(sorted, call.packet) {
            return Some(call.packet);
        }
    }
    None
}

// Whether the packet is one of these, which rise.
fn stands(sorted: &[u32], packet: u32) -> bool
    ensures { IsNonDecreasing sorted.now → result ≡ nat_le 1 (times packet sorted.now) }
{
    match sorted.binary_search(&packet) {
        Ok(_) => true,
        Err(_) => false,
    }
}

// The least packet that stands twice, or has no call that may stand.
fn first_stray(calls: &[Record], pending: &[Pending], sorted: &[u32]) -> Option<u32>
    ensures { AreInOrder calls.now pending.now → IsNonDecreasing sorted.now →
        MatchOption result ((packet : ℕ) → MayBeThere calls.now pending.now sorted.now packet)
        (IsFirstStray calls.now pending.now sorted.now) }
{
    for place in 0..sorted.len() {
        let packet = sorted[place];
        if is_repeated(sorted, place) {
            return Some(packet);
        }
        if !is_known(calls, pending, packet) {
            return Some(packet);
        }
    }
    None
}

// Whether the packet at this place stands at the next one too.
fn is_repeated(sorted: &[u32], place: usize) -> bool
    requires { place < length sorted.now }
    ensures { MatchBool result (IsRepeated sorted.now place) (IsRepeated sorted.now place → ⊥) }
{
    if place + 1 >= sorted.len() {
        return false;
    }
    sorted[place] == sorted[place + 1]
}

// Whether the packet has a call that may stand: an answered one, or a pending update.
fn is_known(calls: &[Record], pending: &[Pending], packet: u32) -> bool
    ensures { AreInOrder calls.now pending.now →
        result ≡ nat_le 1 (answers_at calls.now packet + effects_at pending.now packet) }
{
    match call_of(calls, packet) {
        Some(_) => true,
        None => is_effect(pending, packet),
    }
}

// Whether it has a pending update.
fn is_effect(pending: &[Pending], packet: u32) -> bool
    ensures { IsSortedByKey (λ u. u.packet) nat_cmp pending.now →
        times packet (map (λ u. u.packet) pending.now) ≤ 1 → result ≡ nat_le 1 (effects_at pending.now packet) }
{
    match pending_of(pending, packet) {
        Some(call) => is_update(&call.call),
        None => false,
    }
}

// The lesser of the two.
fn least(missing: Option<u32>, stray: Option<u32>) -> Option<u32>
    ensures { (calls : List ARecord) (pending : List APending) (order : List ℕ) →
        MatchOption missing ((packet : ℕ) → IsThere calls order packet) (IsFirstMissing calls order) →
        MatchOption stray ((packet : ℕ) → MayBeThere calls pending order packet) (IsFirstStray calls pending order) →
        MatchOption result ((packet : ℕ) → StandsSo calls pending order packet) (IsLeastOf calls pending order) }
{
    match (missing, stray) {
        (Some(one), Some(other)) => Some(one.min(other)),
        (Some(one), None) => Some(one),
        (None, found) => found,
    }
}
