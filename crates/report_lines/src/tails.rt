//! The lines of sessions, and the last lines but for the input's.

ghost use Rattle.std.specs.Prelude.{◌≡◌};
ghost use Rattle.line_fields.specs.Reading.{Gives};
ghost use Rattle.report_lines.specs.Lines.{count_at, leaves_at, session_at, steps_at};

use flow_reading::flow;
use line_fields::{number, text};
use plain_map::Pair;

/// What the line of leaves tells.
#[derive(Clone, Copy, PartialEq, Eq)]
pub struct Leaves {
    /// How many buckets the last table has.
    pub leaves: u64,
    /// The depth of its directory.
    pub depth: u32,
}

/// What the line of counts tells.
#[derive(Clone, Copy, PartialEq, Eq)]
pub struct Counts {
    /// Records that were served.
    pub packets: u64,
    pub calls: u64,
    /// Packets that made no call.
    pub passed: u64,
    /// Refused calls.
    pub full: u64,
    /// Calls that had begun and were not answered.
    pub pending: u64,
    /// Calls that had not begun.
    pub unbegun: u64,
}

/// What the line of steps tells.
#[derive(Clone, Copy, PartialEq, Eq)]
pub struct Steps {
    /// The most atomic steps of an answered update.
    pub update: u64,
    /// The most atomic steps that an update may take.
    pub bound: u64,
    /// The most atomic steps of a lookup.
    pub lookup: u64,
}

/// `session KEY VALUE bytes T` at the front, and the bytes behind its line.
#[tactic(auto, unfolding(crate::specs::Lines::session_at))]
pub fn session_line(bytes: &[u8]) -> Option<(Pair, &[u8])>
    ensures { Gives (λ x. (x.0, x.1.now)) result (session_at bytes.now) }
{
    let rest = text(bytes, b"session ")?;
    let (key, rest) = flow(rest)?;
    let rest = text(rest, b" ")?;
    let (value, rest) = number(rest, u64::MAX)?;
    let rest = text(rest, b" bytes ")?;
    let (bytes, rest) = number(rest, u64::MAX)?;
    let rest = text(rest, b"\n")?;
    Some((Pair { key, value, bytes }, rest))
}

/// `leaves L depth D` at the front, and the bytes behind its line.
#[tactic(auto, unfolding(crate::specs::Lines::leaves_at))]
pub fn leaves_line(bytes: &[u8]) -> Option<(Leaves, &[u8])>
    ensures { Gives (λ x. (x.0, x.1.now)) result (leaves_at bytes.now) }
{
    let rest = text(bytes, b"leaves ")?;
    let (leaves, rest) = number(rest, u64::MAX)?;
    let rest = text(rest, b" depth ")?;
    let (depth, rest) = number(rest, 4_294_967_295)?;
    let rest = text(rest, b"\n")?;
    let line = Leaves {
        leaves,
        depth: depth as u32,
    };
    Some((line, rest))
}

/// `count packets P calls C passed Q full F pending G unbegun H` at the front, and the bytes behind its line.
#[tactic(auto, unfolding(crate::specs::Lines::count_at))]
pub fn count_line(bytes: &[u8]) -> Option<(Counts, &[u8])>
    ensures { Gives (λ x. (x.0, x.1.now)) result (count_at bytes.now) }
{
    let rest = text(bytes, b"count packets ")?;
    let (packets, rest) = number(rest, u64::MAX)?;
    let rest = text(rest, b" calls ")?;
    let (calls, rest) = number(rest, u64::MAX)?;
    let rest = text(rest, b" passed ")?;
    let (passed, rest) = number(rest, u64::MAX)?;
    let rest = text(rest, b" full ")?;
    let (full, rest) = number(rest, u64::MAX)?;
    let rest = text(rest, b" pending ")?;
    let (pending, rest) = number(rest, u64::MAX)?;
    let rest = text(rest, b" unbegun ")?;
    let (unbegun, rest) = number(rest, u64::MAX)?;
    let rest = text(rest, b"\n")?;
    let line = Counts {
        packets,
        calls,
        passed,
        full,
        pending,
        unbegun,
    };
    Some((line, rest))
}

/// `steps update A bound U lookup B` at the front, and the bytes behind its line.
#[tactic(auto, unfolding(crate::specs::Lines::steps_at))]
pub fn steps_line(bytes: &[u8]) -> Option<(Steps, &[u8])>
    ensures { Gives (λ x. (x.0, x.1.now)) result (steps_at bytes.now) }
{
    let rest = text(bytes, b"steps update ")?;
    let (update, rest) = number(rest, u64::MAX)?;
    let rest = text(rest, b" bound ")?;
    let (bound, rest) = number(rest, u64::MAX)?;
    let rest = text(rest, b" lookup ")?;
    let (lookup, rest) = number(rest, u64::MAX)?;
    let rest = text(rest, b"\n")?;
    let line = Steps {
        update,
        bound,
        lookup,
    };
    Some((line, rest))
}
