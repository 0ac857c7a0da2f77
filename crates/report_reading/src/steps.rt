//! The lines of entries, read one after the other.

ghost use Rattle.std.specs.Prelude.{◌≡◌, ◌∷◌, [], List, ℕ, IfOk, length, ◌<◌, ◌≤◌, ◌-◌, ◌^◌};
ghost use Rattle.report_text.specs.declared.parts.Head.{Head as AHead};
ghost use Rattle.report_told.specs.Told.{Entry};
ghost use Rattle.report_reading.specs.Entries.{Holds};
ghost use Rattle.report_lines.proofs.Machine.{begun_with, body};
ghost use Rattle.report_reading.specs.Steps.{At, EntriesRead, Stepped};

use crate::entries::Entries;
use report_lines::{call_line, pending_line};
use std::alloc::AllocError;

/// What stands at the front.
#[derive(Drop)]
pub(crate) enum Step<'a> {
    /// The line of an entry, which was taken in; this is behind it.
    Good(&'a [u8]),
    /// Something else.
    Other,
    /// A line that no report goes on with.
    Bad,
}

/// How the lines of a part were read.
#[derive(Drop)]
pub(crate) enum Part<'a> {
    /// All of them; so many lines were read, and this is behind them.
    Whole { rest: &'a [u8], lines: u32 },
    /// This line is bad.
    Bad { line: u32 },
}

impl Entries {
    /// Takes in the lines of entries behind the head line, while they come.
    pub(crate) fn read<'a>(&mut self, bytes: &'a [u8], seats: u32) -> Result<Part<'a>, AllocError>
        requires { (1 ≤ seats) × (seats ≤ 8) }
        ensures { (text : List ℕ) (head : AHead) → At text (body (begun_with head)) bytes.now 1 →
            Holds self.old head [] → seats ≡ head.seats → length text ≤ 4294967295 →
            IfOk result (EntriesRead text self.new head) }
    {
        let mut rest = bytes;
        let mut lines = 1u32;
        for _ in 0..u64::MAX {
            match self.step(rest, seats)? {
                Step::Good(behind) => rest = behind,
                Step::Other => return Ok(Part::Whole { rest, lines }),
                Step::Bad => {
                    let line = lines.saturating_add(1);
                    return Ok(Part::Bad { line });
                }
            }
            lines = lines.saturating_add(1);
        }
        Ok(Part::Bad { line: 0 })
    }

    // A line of an entry, where one stands at the front.
    fn step<'a>(&mut self, bytes: &'a [u8], seats: u32) -> Result<Step<'a>, AllocError>
        requires { (1 ≤ seats) × (seats ≤ 8) }
        ensures { (head : AHead) (entries : List Entry) → Holds self.old head entries → seats ≡ head.seats →
            length entries < 2 ^ 32 - 1 → IfOk result (Stepped bytes.now self.new head entries) }
    {
        let Some(first) = bytes.first() else {
            return Ok(Step::Other);
        };
        match *first {
            b'c' => self.call_step(bytes, seats),
            b'p' => self.pending_step(bytes, seats),
            b'o' => self.order_step(bytes),
            _ => Ok(Step::Other),
        }
    }

    // The line of a call that ended.
    fn call_step<'a>(&mut self, bytes: &'a [u8], seats: u32) -> Result<Step<'a>, AllocError>
        requires { (1 ≤ seats) × (seats ≤ 8) }
        ensures { (head : AHead) (entries : List Entry) (more : List ℕ) → Holds self.old head entries →
            seats ≡ head.seats → length entries < 2 ^ 32 - 1 → bytes.now ≡ 99 ∷ more →
            IfOk result (Stepped bytes.now self.new head entries) }
    {
        let Some((line, rest)) = call_line(bytes, seats) else {
            return Ok(Step::Bad);
        };
        let good = self.call(&line)?;
        if good {
            Ok(Step::Good(rest))
        } else {
            Ok(Step::Bad)
        }
    }

    // The line of a pending call.
    fn pending_step<'a>(&mut self, bytes: &'a [u8], seats: u32) -> Result<Step<'a>, AllocError>
        requires { (1 ≤ seats) × (seats ≤ 8) }
        ensures { (head : AHead) (entries : List Entry) (more : List ℕ) → Holds self.old head entries →
            seats ≡ head.seats → bytes.now ≡ 112 ∷ more →
            IfOk result (Stepped bytes.now self.new head entries) }
    {
        let Some((line, rest)) = pending_line(bytes, seats) else {
            return Ok(Step::Bad);
        };
        let good = self.pending(&line)?;
        if good {
            Ok(Step::Good(rest))
        } else {
            Ok(Step::Bad)
        }
    }

    // The line of an order.
    fn order_step<'a>(&mut self, bytes: &'a [u8]) -> Result<Step<'a>, AllocError>
        ensures { (head : AHead) (entries : List Entry) (more : List ℕ) → Holds self.old head entries →
            bytes.now ≡ 111 ∷ more → IfOk result (Stepped bytes.now self.new head entries) }
    {
        let found = self.order(bytes)?;
        match found {
            Some(rest) => Ok(Step::Good(rest)),
            None => Ok(Step::Bad),
        }
    }
}
