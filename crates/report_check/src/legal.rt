//! The first call of the order whose reply is not the plain map's.

ghost use Rattle.std.specs.Prelude.{◌≡◌, List, ℕ, None, IfOk, MatchBool, MatchOption};
ghost use Rattle.std.specs.FinMap.{empty};
ghost use Rattle.plain_map.specs.declared.records.Record.{Record as ARecord};
ghost use Rattle.plain_map.specs.PlainObject.{InRange, Sessions};
ghost use Rattle.class_map.specs.Rows.{HasEachClass, Holds};
ghost use Rattle.report_told.specs.Told.{Told};
ghost use Rattle.report_told.specs.Points.{IsWhole, rules_told};
ghost use Rattle.report_told.specs.Verdicts.{IsFirstIllegal};
ghost use Rattle.report_check.specs.Facts.{Facts, IsCallOf};
ghost use Rattle.report_check.specs.Judged.{AnsweredAt, LegalSo};

use crate::places::{call_of, pending_of};
use class_map::ClassMap;
use plain_map::{Pending, Record, Reply, Rules, order_laws};
use std::alloc::AllocError;

/// The packet of the first call of the order whose reply is not the plain map's; where there is none, the empty map
/// becomes what the order leaves.
pub(crate) fn first_illegal(
    map: &mut ClassMap,
    rules: &Rules,
    calls: &[Record],
    pending: &[Pending],
    order: &[u32],
) -> Result<Option<u32>, AllocError>
    requires range { InRange rules.now }
    requires empty { Holds map.old rules.now empty }
    ensures rows { HasEachClass map.new rules.now }
    ensures found { IfOk result (λ found. (told : Told) → Facts told calls.now pending.now order.now → IsWhole told →
        rules.now ≡ rules_told told.head →
        MatchOption found (LegalSo told map.new) (IsFirstIllegal told)) }
{
    order_laws();
    for packet in order {
        if !has_reply(map, rules, calls, pending, *packet)? {
            return Ok(Some(*packet));
        }
    }
    Ok(None)
}

// Asks the plain map the call of a packet: whether its reply is the call's.
fn has_reply(
    map: &mut ClassMap,
    rules: &Rules,
    calls: &[Record],
    pending: &[Pending],
    packet: u32,
) -> Result<bool, AllocError>
    requires range { InRange rules.now }
    requires rows { HasEachClass map.old rules.now }
    ensures rows { HasEachClass map.new rules.now }
    ensures good { IfOk result (λ good. (told : Told) (order : List ℕ) (before : Sessions) →
        Facts told calls.now pending.now order → Holds map.old rules.now before →
        AnsweredAt told rules.now packet before map.new good) }
{
    match call_of(calls, packet) {
        Some(call) => {
            let reply = map.answer(rules, &call.call)?;
            Ok(is_same(&reply, &call.reply))
        }
        None => pending_has(map, rules, pending, packet),
    }
}

// The same of a pending call, of whose reply nothing is told.
fn pending_has(
    map: &mut ClassMap,
    rules: &Rules,
    pending: &[Pending],
    packet: u32,
) -> Result<bool, AllocError>
    requires range { InRange rules.now }
    requires rows { HasEachClass map.old rules.now }
    ensures rows { HasEachClass map.new rules.now }
    ensures good { IfOk result (λ good. (told : Told) (calls : List ARecord) (order : List ℕ) (before : Sessions) →
        Facts told calls pending.now order → IsCallOf (λ r. r.packet) calls packet None →
        Holds map.old rules.now before → AnsweredAt told rules.now packet before map.new good) }
{
    match pending_of(pending, packet) {
        Some(call) => {
            map.answer(rules, &call.call)?;
            Ok(true)
        }
        None => Ok(false),
    }
}

// Whether the two replies are one.
fn is_same(one: &Reply, other: &Reply) -> bool
    ensures { MatchBool result (one.now ≡ other.now) (one.now ≡ other.now → ⊥) }
{
    one == other
}
