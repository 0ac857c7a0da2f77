//! The lines of calls and orders, taken in one by one.

ghost use Rattle.std.specs.Prelude.{◌≡◌, ◌++◌, ◌∷◌, [], List, IfOk, MatchBool, ◌==◌, ◌&&◌, nat_lt, length, ◌<◌, ◌-◌, ◌^◌, ℕ, Some};
ghost use Rattle.key_texts.specs.Inserts.{IsOfRule};
ghost use Rattle.step_counts.specs.declared.settings.Settings.{Settings as ASettings};
ghost use Rattle.step_counts.specs.StepCounts.{need_of};
ghost use Rattle.report_text.specs.declared.parts.Head.{Head as AHead};
ghost use Rattle.report_told.specs.Told.{Entry, call as call_entry, pending as pending_entry};
ghost use Rattle.report_told.specs.Rules.{AreEntries, IsHead, IsSettingsOf, part_of};
ghost use Rattle.report_lines.specs.Lines.{call_at, order_at, pending_at};
ghost use Rattle.report_reading.specs.Entries.{Holds, TakesOrder};
ghost use Rattle.std.specs.Option.{option_map};

use crate::answers::Answers;
use crate::packets::Packets;
use key_texts::CallRule;
use plain_map::{Call, Full, FullKind, Pending};
use report_lines::order_line;
use report_text::Head;
use report_told::{CallLine, Ended, PendingLine};
use std::alloc::{AllocError, Global};
use step_counts::SeatRows;

/// What the lines of entries told so far.
#[derive(Drop)]
pub(crate) struct Entries {
    pub(crate) head: Head,
    pub(crate) need: SeatRows,
    pub(crate) packets: Packets,
    pub(crate) answers: Answers,
    // Their numbers are 0 as yet.
    pub(crate) pending: Vec<Pending>,
    pub(crate) order: Vec<u32>,
}

impl Entries {
    /// None yet, behind this head, whose settings need so much room.
    pub(crate) fn new(alloc: Global, head: Head, need: SeatRows) -> Entries
        ensures { IsHead head → ((s : ASettings) → IsSettingsOf head s → need ≡ need_of s) → Holds result head [] }
    {
        Entries {
            head,
            need,
            packets: Packets::new(alloc),
            answers: Answers::new(alloc),
            pending: Vec::new(alloc),
            order: Vec::new(alloc),
        }
    }

    /// Takes in the line of a call that ended, where it may stand behind the others.
    pub(crate) fn call(&mut self, line: &CallLine) -> Result<bool, AllocError>
        ensures { (head : AHead) (entries : List Entry) (bytes rest : List ℕ) → Holds self.old head entries →
            call_at head.seats bytes ≡ Some (line.now, rest) →
            length entries < 2 ^ 32 - 1 → IfOk result (λ good. MatchBool good
            (Holds self.new head (entries ++ call_entry line.now ∷ []))
            (AreEntries head (entries ++ call_entry line.now ∷ []) → ⊥)) }
    {
        if !is_of_rule(self.head.calls, &line.call) {
            return Ok(false);
        }
        match line.ended {
            Ended::Answered { reply, steps, seen } => {
                if !self.packets.end(line.packet)? {
                    return Ok(false);
                }
                self.answers.answer(line, reply, steps, seen)?;
                Ok(true)
            }
            Ended::Refused(full) => {
                if !is_short(&self.need, &full) {
                    return Ok(false);
                }
                let good = self.packets.end(line.packet)?;
                Ok(good)
            }
        }
    }

    /// Takes in the line of a pending call, where it may stand behind the others.
    pub(crate) fn pending(&mut self, line: &PendingLine) -> Result<bool, AllocError>
        ensures { (head : AHead) (entries : List Entry) (bytes rest : List ℕ) → Holds self.old head entries →
            pending_at head.seats bytes ≡ Some (line.now, rest) →
            IfOk result (λ good. MatchBool good
            (Holds self.new head (entries ++ pending_entry line.now ∷ []))
            (AreEntries head (entries ++ pending_entry line.now ∷ []) → ⊥)) }
    {
        if !self.head.play {
            return Ok(false);
        }
        if !is_of_rule(self.head.calls, &line.call) {
            return Ok(false);
        }
        if !self.packets.wait(line.packet)? {
            return Ok(false);
        }
        self.pending.push(Pending {
            seat: line.seat,
            number: 0,
            packet: line.packet,
            call: line.call,
            seen: line.seen,
        })?;
        Ok(true)
    }

    /// Takes in the line of an order at the front, and gives back the bytes behind it.
    pub(crate) fn order<'a>(&mut self, bytes: &'a [u8]) -> Result<Option<&'a [u8]>, AllocError>
        ensures { (head : AHead) (entries : List Entry) → Holds self.old head entries → IfOk result (λ found.
            TakesOrder (order_at bytes.now) self.new head entries (option_map (λ x. x.now) found)) }
    {
        let found = order_line(bytes, &mut self.order)?;
        Ok(found)
    }
}

// Whether the rule makes such a call.
fn is_of_rule(rule: CallRule, call: &Call) -> bool
    ensures { MatchBool result (IsOfRule rule call.now) (IsOfRule rule call.now → ⊥) }
{
    match call {
        Call::Insert(_, _) | Call::Remove(_) | Call::Lookup(_) | Call::Tally(_, _) => match rule {
            CallRule::Sessions => true,
            CallRule::Flows => false,
        },
        Call::Count(_, _, _) => match rule {
            CallRule::Sessions => false,
            CallRule::Flows => true,
        },
        Call::Put(_, _) => false,
    }
}

// Whether less is left than is needed, and just what these rows need.
fn is_short(need: &SeatRows, full: &Full) -> bool
    ensures { result ≡ ((full.now.need == part_of need.now full.now.what) && nat_lt full.now.left full.now.need) }
{
    let part = match full.what {
        FullKind::OpRows => need.op_rows,
        FullKind::BucketRows => need.bucket_rows,
        FullKind::BucketWords => need.bucket_words,
        FullKind::DirRows => need.directory_rows,
    };
    full.need == part && full.left < full.need
}
