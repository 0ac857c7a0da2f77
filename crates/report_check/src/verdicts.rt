//! The verdict of a text.

ghost use Rattle.std.specs.Prelude.{◌≡◌, ◌≤◌, ◌↔◌, IfOk, IsPermutation, IsSortedByKey, length};
ghost use Rattle.std.specs.Ordering.{nat_cmp};
ghost use Rattle.plain_map.specs.PlainObject.{InRange};
ghost use Rattle.plain_map.specs.History.{After};
ghost use Rattle.class_map.specs.Rows.{HasEachClass};
ghost use Rattle.report_told.specs.Told.{Told};
ghost use Rattle.report_told.specs.Rules.{IsInGrammar};
ghost use Rattle.report_told.specs.declared.verdict.Verdict.TheVariants.{Yes};
ghost use Rattle.report_told.specs.Points.{IsWhole, placed_told, rules_told};
ghost use Rattle.report_told.specs.Verdicts.{Certified, Deserves};
ghost use Rattle.report_reading.specs.Kept.{IsKept};
ghost use Rattle.report_check.specs.Facts.{HasFacts};
ghost use Rattle.report_check.specs.Judged.{Judges, LegalSo};

use crate::early::first_early;
use crate::legal::first_illegal;
use crate::long::first_long;
use crate::whole::least_fault;
use class_map::ClassMap;
use plain_map::{Pending, Rules};
use report_lines::one_verdict;
use report_reading::{Kept, Reading, TEXT_LIMIT, read};
use report_text::Head;
use report_told::Verdict;
use std::alloc::{AllocError, Global};

/// The verdict that a text deserves: `Yes` where it is certified, else the first fault of the first kind.
///
/// The only error is want of memory. It takes 144 bytes a call beside the text, which a call has some 100 bytes of.
pub fn check(alloc: Global, text: &[u8]) -> Result<Verdict, AllocError>
    requires { length text.now ≤ TEXT_LIMIT }
    ensures verdict { IfOk result (Deserves text.now) }
    ensures yes { IfOk result (λ verdict. (verdict ≡ Yes) ↔ Certified text.now) }
{
    one_verdict();
    match read(alloc, text)? {
        Reading::Report(kept) => judge(alloc, kept),
        Reading::BadLine { line } => Ok(Verdict::BadLine { line }),
    }
}

/// The verdict of a report that was read.
pub fn judge(alloc: Global, kept: Kept) -> Result<Verdict, AllocError>
    requires { (told : Told) × IsKept kept told × IsInGrammar told }
    ensures { IfOk result (λ verdict. (told : Told) → IsKept kept told → IsInGrammar told → Judges told verdict) }
{
    let mut kept = kept;
    sort_by_packet(&mut kept.pending);
    calls_verdict(alloc, &kept)
}

// Puts pending calls in the order of their packets.
fn sort_by_packet(pending: &mut Vec<Pending>)
    ensures same { IsPermutation pending.old.items pending.new.items }
    ensures sorted { IsSortedByKey (λ u. u.packet) nat_cmp pending.new.items }
{
    pending.sort_unstable_by_key(|call| call.packet);
}

// The verdict of a report whose pending calls are in the order of their packets.
fn calls_verdict(alloc: Global, kept: &Kept) -> Result<Verdict, AllocError>
    requires { InRange (rules_told kept.now.head) }
    ensures { IfOk result (λ verdict. (told : Told) → HasFacts kept.now told → Judges told verdict) }
{
    if let Some(packet) = least_fault(alloc, &kept.calls, &kept.pending, &kept.order)? {
        return Ok(Verdict::Whole { packet });
    }
    if let Some(packet) = first_early(&kept.calls, &kept.pending, &kept.order) {
        return Ok(Verdict::After { packet });
    }
    replies_verdict(alloc, kept)
}

// The same, where the calls stand as they must.
fn replies_verdict(alloc: Global, kept: &Kept) -> Result<Verdict, AllocError>
    requires { InRange (rules_told kept.now.head) }
    ensures { IfOk result (λ verdict. (told : Told) → HasFacts kept.now told → IsWhole told →
        After (placed_told told) → Judges told verdict) }
{
    let rules = rules_of(&kept.head);
    let mut map = ClassMap::new(alloc, &rules)?;
    match first_illegal(&mut map, &rules, &kept.calls, &kept.pending, &kept.order)? {
        Some(packet) => Ok(Verdict::Legal { packet }),
        None => Ok(end_verdict(kept, &rules, &map)),
    }
}

// The rules of a report.
fn rules_of(head: &Head) -> Rules
    ensures { result ≡ rules_told head.now }
{
    Rules {
        items: head.items,
        depth: head.depth,
        hashing: head.hashing,
    }
}

// The same, where the replies are the plain map's too, which holds this in the end.
fn end_verdict(kept: &Kept, rules: &Rules, map: &ClassMap) -> Verdict
    requires range { InRange rules.now }
    requires rows { HasEachClass map.now rules.now }
    ensures { (told : Told) → HasFacts kept.now told → IsWhole told → After (placed_told told) →
        rules.now ≡ rules_told told.head → LegalSo told map.now → Judges told result }
{
    if !map.holds_just(rules, &kept.pairs) {
        return Verdict::Sessions;
    }
    match first_long(&kept.calls, kept.bound) {
        Some(packet) => Verdict::Steps { packet },
        None => Verdict::Yes,
    }
}
