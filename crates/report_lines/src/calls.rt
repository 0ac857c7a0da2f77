//! The lines of answered, refused and pending calls.

ghost use Rattle.std.specs.Prelude.{◌≡◌, ◌≤◌};
ghost use Rattle.line_fields.specs.Reading.{Gives};
ghost use Rattle.report_lines.specs.Fields.{verb_at};
ghost use Rattle.report_lines.specs.Lines.{answered_at, asked_at, call_at, ended_at, pending_at, refused_at, seen_at};

use crate::counts::counts;
use crate::replies::{is_update, kind, reply};
use flow_reading::flow;
use line_fields::{number, text};
use plain_map::{Call, Full, Seen};
use report_told::{CallLine, Ended, PendingLine};

/// The most bytes that a count may bring.
const MOST_BYTES: u64 = 2_305_843_009_213_693_951;

/// What the line of a call is about.
#[derive(Clone, Copy, PartialEq, Eq)]
pub struct Asked {
    pub(crate) packet: u32,
    pub(crate) seat: u32,
    pub(crate) call: Call,
}

/// The line of a call at the front, of one of so many seats, and the bytes behind it.
///
/// What it tells beside other lines is not looked at, nor whether a refusal fits the settings.
#[tactic(auto, unfolding(crate::specs::Lines::call_at))]
pub fn call_line(bytes: &[u8], seats: u32) -> Option<(CallLine, &[u8])>
    requires { (1 ≤ seats) × (seats ≤ 8) }
    ensures { Gives (λ x. (x.0, x.1.now)) result (call_at seats bytes.now) }
{
    let rest = text(bytes, b"call ")?;
    let (asked, rest) = asked_call(rest, seats)?;
    let (ended, rest) = ended(rest, seats, &asked)?;
    let line = CallLine {
        packet: asked.packet,
        seat: asked.seat,
        call: asked.call,
        ended,
    };
    Some((line, rest))
}

/// The line of a pending call at the front, of one of so many seats, and the bytes behind it.
#[tactic(auto, unfolding(crate::specs::Lines::pending_at))]
pub fn pending_line(bytes: &[u8], seats: u32) -> Option<(PendingLine, &[u8])>
    requires { (1 ≤ seats) × (seats ≤ 8) }
    ensures { Gives (λ x. (x.0, x.1.now)) result (pending_at seats bytes.now) }
{
    let rest = text(bytes, b"pending ")?;
    let (asked, rest) = asked_call(rest, seats)?;
    let (seen, rest) = seen(rest, seats)?;
    let line = PendingLine {
        packet: asked.packet,
        seat: asked.seat,
        call: asked.call,
        seen,
    };
    Some((line, rest))
}

// The packet, the seat and the call.
#[inline]
#[tactic(auto, unfolding(crate::specs::Lines::asked_at))]
fn asked_call(bytes: &[u8], seats: u32) -> Option<(Asked, &[u8])>
    ensures { Gives (λ x. (x.0, x.1.now)) result (asked_at seats bytes.now) }
{
    let (packet, rest) = number(bytes, 4_294_967_295)?;
    let rest = text(rest, b" seat ")?;
    let (seat, rest) = number(rest, 7)?;
    if seat >= u64::from(seats) {
        return None;
    }
    let (call, rest) = verb(rest, packet)?;
    let asked = Asked {
        packet: packet as u32,
        seat: seat as u32,
        call,
    };
    Some((asked, rest))
}

// The verb and the key, and the bytes of a tally or a count.
#[inline]
#[tactic(auto, unfolding(crate::specs::Fields::verb_at))]
fn verb(bytes: &[u8], packet: u64) -> Option<(Call, &[u8])>
    ensures { Gives (λ x. (x.0, x.1.now)) result (verb_at packet bytes.now) }
{
    if let Some(rest) = text(bytes, b" insert ") {
        let (key, rest) = flow(rest)?;
        return Some((Call::Insert(key, packet), rest));
    }
    if let Some(rest) = text(bytes, b" remove ") {
        let (key, rest) = flow(rest)?;
        return Some((Call::Remove(key), rest));
    }
    if let Some(rest) = text(bytes, b" lookup ") {
        let (key, rest) = flow(rest)?;
        return Some((Call::Lookup(key), rest));
    }
    if let Some(rest) = text(bytes, b" tally ") {
        let (key, rest) = flow(rest)?;
        let rest = text(rest, b" by ")?;
        let (amount, rest) = number(rest, u64::MAX)?;
        return Some((Call::Tally(key, amount), rest));
    }
    let rest = text(bytes, b" count ")?;
    let (key, rest) = flow(rest)?;
    let rest = text(rest, b" by ")?;
    let (amount, rest) = number(rest, MOST_BYTES)?;
    Some((Call::Count(key, packet, amount), rest))
}

// How the call ended.
#[inline]
#[tactic(auto, unfolding(crate::specs::Lines::ended_at))]
fn ended<'a>(bytes: &'a [u8], seats: u32, asked: &Asked) -> Option<(Ended, &'a [u8])>
    requires { (1 ≤ seats) × (seats ≤ 8) }
    ensures { Gives (λ x. (x.0, x.1.now)) result (ended_at seats asked.now bytes.now) }
{
    if let Some(rest) = text(bytes, b" full ") {
        return refused(rest, &asked.call);
    }
    answered(bytes, seats, asked.packet)
}

// What the call had too little of.
#[tactic(auto, unfolding(crate::specs::Lines::refused_at))]
fn refused<'a>(bytes: &'a [u8], call: &Call) -> Option<(Ended, &'a [u8])>
    ensures { Gives (λ x. (x.0, x.1.now)) result (refused_at call.now bytes.now) }
{
    let (what, rest) = kind(bytes)?;
    let rest = text(rest, b" ")?;
    let (left, rest) = number(rest, u64::MAX)?;
    let rest = text(rest, b" ")?;
    let (need, rest) = number(rest, u64::MAX)?;
    let rest = text(rest, b"\n")?;
    if is_update(call) {
        Some((Ended::Refused(Full { what, left, need }), rest))
    } else {
        None
    }
}

// The reply, the steps, and what the caller had seen.
#[inline]
#[tactic(auto, unfolding(crate::specs::Lines::answered_at))]
fn answered(bytes: &[u8], seats: u32, packet: u32) -> Option<(Ended, &[u8])>
    requires { (1 ≤ seats) × (seats ≤ 8) }
    ensures { Gives (λ x. (x.0, x.1.now)) result (answered_at seats packet bytes.now) }
{
    let (reply, rest) = reply(bytes, packet)?;
    let rest = text(rest, b" steps ")?;
    let (steps, rest) = number(rest, u64::MAX)?;
    let (seen, rest) = seen(rest, seats)?;
    Some((Ended::Answered { reply, steps, seen }, rest))
}

// What the caller had seen, at the end of the line.
#[inline]
#[tactic(auto, unfolding(crate::specs::Lines::seen_at))]
fn seen(bytes: &[u8], seats: u32) -> Option<(Seen, &[u8])>
    requires { (1 ≤ seats) × (seats ≤ 8) }
    ensures { Gives (λ x. (x.0, x.1.now)) result (seen_at seats bytes.now) }
{
    let rest = text(bytes, b" after ")?;
    let (seen, rest) = counts(rest, seats)?;
    let rest = text(rest, b"\n")?;
    Some((seen, rest))
}
