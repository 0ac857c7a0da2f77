//! The text of `flows`: its head line, and its blocks.

ghost use Rattle.std.specs.Prelude.{◌≡◌, ◌+◌, ◌≤◌, ◌++◌, ℕ, All, List, flat_map, OnOk, OnErr};
ghost use Rattle.key_texts.specs.FlowText.{HasText};
ghost use Rattle.report_text.specs.Flows.{at_line, calls_words, every_words, flow_count_line, flows_block, flows_head};
ghost use Rattle.report_text.specs.Report.{session_line};
ghost use Rattle.report_text.specs.Lines.{room, Puts, text_in};

use crate::line::Line;
use crate::pieces::{append, begin_line, end_line, put_named, put_number, put_word};
use crate::session::session_text;
use key_texts::CallRule;
use plain_map::Pair;
use std::alloc::AllocError;

/// What the head line of `flows` tells: its settings.
#[derive(Clone, Copy, PartialEq, Eq)]
pub struct FlowsHead {
    /// 1 to 8.
    pub seats: u32,
    /// Items per bucket, 1 to 16.
    pub items: u32,
    /// The greatest depth, 0 to 12.
    pub depth: u32,
    /// Of the hash.
    pub seed: u64,
    /// Which calls packets make.
    pub calls: CallRule,
    /// After how many packets there is a block again and again; `None` where there is one at the end alone.
    pub every: Option<u64>,
}

/// What a block counts, of all packets from the first one on.
#[derive(Clone, Copy, PartialEq, Eq)]
pub struct FlowCounts {
    /// Packets that were read whole and served.
    pub packets: u64,
    pub calls: u64,
    /// Packets that made no call.
    pub passed: u64,
    /// Of the calls, those with each reply.
    pub new: u64,
    pub old: u64,
    pub noroom: u64,
    pub gone: u64,
    pub found: u64,
    pub absent: u64,
    pub sum: u64,
}

/// Appends the head line.
pub fn flows_head_text(out: &mut Vec<u8>, head: &FlowsHead) -> Result<(), AllocError>
    ensures appended { OnOk result (out.new.items ≡ out.old.items ++ flows_head head.now) }
    ensures kept { OnErr result (out.new.items ≡ out.old.items) }
{
    let mut line = Line::new();
    put_head(&mut line, head);
    append(out, &line)
}

/// Appends a block: that it stands behind so many packets, the sessions that are left then, in the order of their keys,
/// and the counts.
///
/// The only error is want of memory, after which the text is what it was.
pub fn flows_block_text(
    out: &mut Vec<u8>,
    at: u64,
    pairs: &[Pair],
    counts: &FlowCounts,
) -> Result<(), AllocError>
    requires { All (λ pair. HasText pair.key) pairs.now }
    ensures appended { OnOk result (out.new.items ≡ out.old.items ++ flows_block at pairs.now counts.now) }
    ensures kept { OnErr result (out.new.items ≡ out.old.items) }
{
    let start = out.len();
    if let Err(failed) = put_block(out, at, pairs, counts) {
        out.truncate(start);
        return Err(failed);
    }
    Ok(())
}

// Appends a block. After want of memory some of its lines may stand there.
fn put_block(
    out: &mut Vec<u8>,
    at: u64,
    pairs: &[Pair],
    counts: &FlowCounts,
) -> Result<(), AllocError>
    requires { All (λ pair. HasText pair.key) pairs.now }
    ensures appended { OnOk result (out.new.items ≡ out.old.items ++ flows_block at pairs.now counts.now) }
    ensures begun { OnErr result ((lines : List ℕ) × (out.new.items ≡ out.old.items ++ lines)) }
{
    let mut line = Line::new();
    put_at(&mut line, at);
    append(out, &line)?;
    put_sessions(out, &mut line, pairs)?;
    line.clear();
    put_count(&mut line, counts);
    append(out, &line)
}

// Appends a line for each session. After want of memory some of them may stand there.
fn put_sessions(out: &mut Vec<u8>, line: &mut Line, pairs: &[Pair]) -> Result<(), AllocError>
    requires { All (λ pair. HasText pair.key) pairs.now }
    ensures appended { OnOk result (out.new.items ≡ out.old.items ++ flat_map session_line pairs.now) }
    ensures begun { OnErr result ((lines : List ℕ) × (out.new.items ≡ out.old.items ++ lines)) }
{
    for pair in pairs {
        session_text(out, line, pair)?;
    }
    Ok(())
}

// Appends the head line.
fn put_head(out: &mut Line, head: &FlowsHead)
    requires { 256 ≤ room out.old }
    ensures { text_in out.new ≡ text_in out.old ++ flows_head head.now }
{
    begin_line(out, b"flowdir");
    put_word(out, b"flows");
    put_named(out, b"seats", head.seats);
    put_named(out, b"items", head.items);
    put_named(out, b"depth", head.depth);
    put_named(out, b"seed", head.seed);
    put_calls(out, head.calls);
    put_every(out, head.every);
    end_line(out);
}

// Appends which calls packets make, where these are not counts.
#[tactic(auto, using(crate::proofs::LineLemmas::puts_none))]
fn put_calls(out: &mut Line, calls: CallRule)
    requires { 15 ≤ room out.old }
    ensures puts { Puts (text_in out.old) (calls_words calls) (text_in out.new) }
    ensures taken { room out.old ≤ room out.new + 15 }
{
    match calls {
        CallRule::Sessions => {
            put_word(out, b"calls");
            put_word(out, b"sessions");
        }
        CallRule::Flows => {}
    }
}

// Appends after how many packets there is a block again and again, where there is.
#[tactic(auto, using(crate::proofs::LineLemmas::puts_none))]
fn put_every(out: &mut Line, every: Option<u64>)
    requires { 27 ≤ room out.old }
    ensures puts { Puts (text_in out.old) (every_words every) (text_in out.new) }
    ensures taken { room out.old ≤ room out.new + 27 }
{
    match every {
        Some(every) => put_named(out, b"every", every),
        None => {}
    }
}

// Appends how many packets there are so far.
fn put_at(out: &mut Line, at: u64)
    requires { 24 ≤ room out.old }
    ensures { text_in out.new ≡ text_in out.old ++ at_line at }
{
    begin_line(out, b"at");
    put_number(out, at);
    end_line(out);
}

// Appends the counts of packets, of calls and of replies.
fn put_count(out: &mut Line, counts: &FlowCounts)
    requires { 288 ≤ room out.old }
    ensures { text_in out.new ≡ text_in out.old ++ flow_count_line counts.now }
{
    begin_line(out, b"count");
    put_named(out, b"packets", counts.packets);
    put_named(out, b"calls", counts.calls);
    put_named(out, b"passed", counts.passed);
    put_named(out, b"new", counts.new);
    put_named(out, b"old", counts.old);
    put_named(out, b"noroom", counts.noroom);
    put_named(out, b"gone", counts.gone);
    put_named(out, b"found", counts.found);
    put_named(out, b"absent", counts.absent);
    put_named(out, b"sum", counts.sum);
    end_line(out);
}
