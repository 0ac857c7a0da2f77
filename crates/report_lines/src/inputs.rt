//! The line that tells how the input ended.

ghost use Rattle.std.specs.Prelude.{◌≡◌};
ghost use Rattle.line_fields.specs.Reading.{Gives};
ghost use Rattle.report_lines.specs.Fields.{ending_at};
ghost use Rattle.report_lines.specs.Lines.{input_at};

use crate::faults::fault;
use capture_faults::Ending;
use line_fields::{number, text};

/// `input done rest R` and its like at the front, and the bytes behind its line.
#[tactic(auto, unfolding(crate::specs::Lines::input_at))]
pub fn input_line(bytes: &[u8]) -> Option<(Ending, &[u8])>
    ensures { Gives (λ x. (x.0, x.1.now)) result (input_at bytes.now) }
{
    let rest = text(bytes, b"input ")?;
    let (ending, rest) = ending(rest)?;
    let rest = text(rest, b"\n")?;
    Some((ending, rest))
}

// How the input ended.
#[tactic(auto, unfolding(crate::specs::Fields::ending_at))]
fn ending(bytes: &[u8]) -> Option<(Ending, &[u8])>
    ensures { Gives (λ x. (x.0, x.1.now)) result (ending_at bytes.now) }
{
    if let Some(rest) = text(bytes, b"done rest ") {
        let (left, rest) = number(rest, 4_294_967_295)?;
        return Some((Ending::Done { rest: left as u32 }, rest));
    }
    if let Some(rest) = text(bytes, b"read-fault") {
        return Some((Ending::ReadFault, rest));
    }
    if let Some(rest) = text(bytes, b"limit ") {
        let (limit, rest) = number(rest, u64::MAX)?;
        return Some((Ending::Limit { limit }, rest));
    }
    let rest = text(bytes, b"fault ")?;
    let (fault, rest) = fault(rest)?;
    Some((Ending::Fault(fault), rest))
}
