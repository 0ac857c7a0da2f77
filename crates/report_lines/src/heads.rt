//! The head line.

ghost use Rattle.std.specs.Prelude.{◌≡◌};
ghost use Rattle.line_fields.specs.Reading.{Gives};
ghost use Rattle.report_lines.specs.Fields.{hashing_at, mode_at, share_at};
ghost use Rattle.report_lines.specs.Lines.{batch_at, head_at, head_behind, rule_at};

use hash_bits::Hashing;
use key_texts::CallRule;
use line_fields::{number, text};
use report_text::Head;
use trace_share::Share;

/// The head at the front, whose settings are in range, and the bytes behind its line.
#[tactic(auto, unfolding(crate::specs::Lines::head_at))]
pub fn head_line(bytes: &[u8]) -> Option<(Head, &[u8])>
    ensures { Gives (λ x. (x.0, x.1.now)) result (head_at bytes.now) }
{
    let rest = text(bytes, b"flowdir ")?;
    let (play, rest) = mode(rest)?;
    let rest = text(rest, b" seats ")?;
    let (seats, rest) = number(rest, 8)?;
    let rest = text(rest, b" items ")?;
    let (items, rest) = number(rest, 16)?;
    head_behind(play, seats as u32, items as u32, rest)
}

// The same behind the items of a class.
#[tactic(auto, unfolding(crate::specs::Lines::head_behind))]
fn head_behind(play: bool, seats: u32, items: u32, bytes: &[u8]) -> Option<(Head, &[u8])>
    ensures { Gives (λ x. (x.0, x.1.now)) result (head_behind play seats items bytes.now) }
{
    let rest = text(bytes, b" depth ")?;
    let (depth, rest) = number(rest, 12)?;
    let rest = text(rest, b" start ")?;
    let (start, rest) = number(rest, 12)?;
    let rest = text(rest, b" hash ")?;
    let (hashing, rest) = hashing(rest)?;
    let rest = text(rest, b" share ")?;
    let (share, rest) = share(rest)?;
    let (calls, batch, rest) = rule(play, rest)?;
    let head = Head {
        play,
        seats,
        items,
        depth: depth as u32,
        start: start as u32,
        hashing,
        share,
        calls,
        batch,
    };
    if seats > 0 && items > 0 && start <= depth {
        Some((head, rest))
    } else {
        None
    }
}

// Which calls packets make, how many packets a batch has, and the bytes behind the line.
#[tactic(auto, unfolding(crate::specs::Lines::rule_at))]
fn rule(play: bool, bytes: &[u8]) -> Option<(CallRule, u32, &[u8])>
    ensures { Gives (λ x. ((x.0, x.1), x.2.now)) result (rule_at play bytes.now) }
{
    if let Some(rest) = text(bytes, b" calls flows") {
        let (batch, rest) = batch(play, rest)?;
        return Some((CallRule::Flows, batch, rest));
    }
    let (batch, rest) = batch(play, bytes)?;
    Some((CallRule::Sessions, batch, rest))
}

// How many packets a batch has, and the bytes behind the line.
#[tactic(auto, unfolding(crate::specs::Lines::batch_at))]
fn batch(play: bool, bytes: &[u8]) -> Option<(u32, &[u8])>
    ensures { Gives (λ x. (x.0, x.1.now)) result (batch_at play bytes.now) }
{
    if let Some(rest) = text(bytes, b"\n") {
        return Some((2_048, rest));
    }
    let rest = text(bytes, b" batch ")?;
    let (batch, rest) = number(rest, 65_536)?;
    let rest = text(rest, b"\n")?;
    if !play && batch > 2_048 {
        Some((batch as u32, rest))
    } else {
        None
    }
}

// Whether the report is one of `play`.
#[tactic(auto, unfolding(crate::specs::Fields::mode_at))]
fn mode(bytes: &[u8]) -> Option<(bool, &[u8])>
    ensures { Gives (λ x. (x.0, x.1.now)) result (mode_at bytes.now) }
{
    if let Some(rest) = text(bytes, b"serve") {
        return Some((false, rest));
    }
    let rest = text(bytes, b"play")?;
    Some((true, rest))
}

// The hash and its seed.
#[tactic(auto, unfolding(crate::specs::Fields::hashing_at))]
fn hashing(bytes: &[u8]) -> Option<(Hashing, &[u8])>
    ensures { Gives (λ x. (x.0, x.1.now)) result (hashing_at bytes.now) }
{
    if let Some(rest) = text(bytes, b"mix seed ") {
        let (seed, rest) = number(rest, u64::MAX)?;
        return Some((Hashing::Mix(seed), rest));
    }
    let rest = text(bytes, b"ports seed ")?;
    let (seed, rest) = number(rest, u64::MAX)?;
    Some((Hashing::Ports(seed), rest))
}

// How packets are shared out.
#[tactic(auto, unfolding(crate::specs::Fields::share_at))]
fn share(bytes: &[u8]) -> Option<(Share, &[u8])>
    ensures { Gives (λ x. (x.0, x.1.now)) result (share_at bytes.now) }
{
    if let Some(rest) = text(bytes, b"round") {
        return Some((Share::Round, rest));
    }
    if let Some(rest) = text(bytes, b"block") {
        return Some((Share::Block, rest));
    }
    let rest = text(bytes, b"flow")?;
    Some((Share::Flow, rest))
}
