//! Where the call of a packet is kept.

ghost use Rattle.std.specs.Prelude.{IsSortedByKey};
ghost use Rattle.std.specs.Ordering.{nat_cmp};
ghost use Rattle.std.specs.Option.{option_map};
ghost use Rattle.report_check.specs.Facts.{IsCallOf};
ghost use Rattle.report_check.specs.Places.{IsPlaceOf};

use plain_map::{Pending, Record};

/// The place of the answered call of this packet, among calls in the order of their packets.
pub(crate) fn call_place(calls: &[Record], packet: u32) -> Option<usize>
    ensures { IsSortedByKey (λ r. r.packet) nat_cmp calls.now → IsPlaceOf (λ r. r.packet) calls.now packet result }
{
    calls.binary_search_by_key(&packet, |call| call.packet).ok()
}

/// The place of the pending call of this packet, among calls in the order of their packets.
pub(crate) fn pending_place(pending: &[Pending], packet: u32) -> Option<usize>
    ensures { IsSortedByKey (λ u. u.packet) nat_cmp pending.now → IsPlaceOf (λ u. u.packet) pending.now packet result }
{
    pending
        .binary_search_by_key(&packet, |call| call.packet)
        .ok()
}

/// The answered call of this packet, among calls in the order of their packets.
pub(crate) fn call_of(calls: &[Record], packet: u32) -> Option<&Record>
    ensures { IsSortedByKey (λ r. r.packet) nat_cmp calls.now →
        IsCallOf (λ r. r.packet) calls.now packet (option_map (λ x. x.now) result) }
{
    match call_place(calls, packet) {
        Some(place) => calls.get(place),
        None => None,
    }
}

/// The pending call of this packet, among calls in the order of their packets.
pub(crate) fn pending_of(pending: &[Pending], packet: u32) -> Option<&Pending>
    ensures { IsSortedByKey (λ u. u.packet) nat_cmp pending.now →
        IsCallOf (λ u. u.packet) pending.now packet (option_map (λ x. x.now) result) }
{
    match pending_place(pending, packet) {
        Some(place) => pending.get(place),
        None => None,
    }
}
