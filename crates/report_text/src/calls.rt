//! The line of an answered, a refused or a pending call.

ghost use Rattle.std.specs.Prelude.{◌≡◌, ℕ, ◌+◌, ◌<◌, ◌≤◌, [], ◌∷◌, ◌++◌, decimal, length, slice_index, OnOk, OnErr};
ghost use Rattle.batch_history.specs.Batches.{gone_on, seen_on, with_counts};
ghost use Rattle.key_texts.specs.FlowText.{HasText};
ghost use Rattle.plain_map.specs.Calls.{key_in};
ghost use Rattle.trace_share.specs.declared.outcome.Outcome.TheVariants.{Answered, Refused};
ghost use Rattle.report_text.specs.Report.{after_words, amount_words, call_in, call_words, full_words, outcome_line, outcome_on, pending_line, reply_words, short_word, value_in, verb_word};
ghost use Rattle.report_text.specs.Lines.{counts_word, room, Puts, text_in};

use crate::line::Line;
use crate::pieces::{
    append, begin_line, end_line, put_key, put_named, put_number, put_text, put_word,
};
use plain_map::{Call, Full, FullKind, Pending, Record, Reply, Seen};
use std::alloc::AllocError;
use trace_share::Outcome;

/// Appends the line of a call: its caller's seat, and how the call ended. It is written in `line` first.
///
/// Of the counts that the call saw, those of the first `seats` seats are told, each after what its seat had answered in
/// `before`: nothing from the end of that on.
#[inline]
pub fn outcome_text(
    out: &mut Vec<u8>,
    line: &mut Line,
    seats: u32,
    before: &[u32],
    seat: u32,
    outcome: &Outcome,
) -> Result<(), AllocError>
    requires seats { seats ≤ 8 }
    requires key { HasText (key_in (call_in outcome.now)) }
    ensures appended { OnOk result (out.new.items
        ≡ out.old.items ++ outcome_line seats seat (outcome_on before.now outcome.now)) }
    ensures kept { OnErr result (out.new.items ≡ out.old.items) }
{
    line.clear();
    match outcome {
        Outcome::Answered(answer) => put_answered(line, seats, before, seat, answer),
        Outcome::Refused { packet, call, full } => put_refused(line, *packet, seat, call, full),
    }
    append(out, line)
}

/// Appends the line of a call that had begun and was not answered. It is written in `line` first.
///
/// Of the counts that the call saw, those of the first `seats` seats are told.
pub fn pending_text(
    out: &mut Vec<u8>,
    line: &mut Line,
    seats: u32,
    pending: &Pending,
) -> Result<(), AllocError>
    requires seats { seats ≤ 8 }
    requires key { HasText (key_in pending.now.call) }
    ensures appended { OnOk result (out.new.items ≡ out.old.items ++ pending_line seats pending.now) }
    ensures kept { OnErr result (out.new.items ≡ out.old.items) }
{
    line.clear();
    put_pending(line, seats, pending);
    append(out, line)
}

// Appends the line of a pending call.
fn put_pending(out: &mut Line, seats: u32, pending: &Pending)
    requires seats { seats ≤ 8 }
    requires key { HasText (key_in pending.now.call) }
    requires space { 384 ≤ room out.old }
    ensures { text_in out.new ≡ text_in out.old ++ pending_line seats pending.now }
{
    begin_line(out, b"pending");
    put_call(out, pending.packet, pending.seat, &pending.call);
    put_after(out, seats, &[], &pending.seen);
    end_line(out);
}

// Appends the line of an answered call.
#[inline(always)]
fn put_answered(out: &mut Line, seats: u32, before: &[u32], seat: u32, answer: &Record)
    requires seats { seats ≤ 8 }
    requires key { HasText (key_in answer.now.call) }
    requires space { 384 ≤ room out.old }
    ensures { text_in out.new ≡ text_in out.old ++ outcome_line seats seat (Answered (gone_on before.now answer.now)) }
{
    begin_line(out, b"call");
    put_call(out, answer.packet, seat, &answer.call);
    put_reply(out, &answer.call, answer.reply);
    put_named(out, b"steps", answer.steps);
    put_after(out, seats, before, &answer.seen);
    end_line(out);
}

// Appends the line of a refused call.
fn put_refused(out: &mut Line, packet: u32, seat: u32, call: &Call, full: &Full)
    requires key { HasText (key_in call.now) }
    requires space { 384 ≤ room out.old }
    ensures { (seats : ℕ) → text_in out.new ≡ text_in out.old
        ++ outcome_line seats seat (Refused packet call.now full.now) }
{
    begin_line(out, b"call");
    put_call(out, packet, seat, call);
    put_word(out, b"full");
    put_word(out, short_word(full.what));
    put_number(out, full.left);
    put_number(out, full.need);
    end_line(out);
}

// Appends which call it is.
#[inline(always)]
fn put_call(out: &mut Line, packet: u32, seat: u32, call: &Call)
    requires key { HasText (key_in call.now) }
    requires space { 166 ≤ room out.old }
    ensures puts { Puts (text_in out.old) (call_words packet seat call.now) (text_in out.new) }
    ensures taken { room out.old ≤ room out.new + 166 }
{
    put_number(out, packet);
    put_named(out, b"seat", seat);
    put_word(out, verb_word(call));
    put_key(out, call.key());
    put_amount(out, call);
}

// Appends the bytes that a tally or a count brings. Another call brings none.
#[tactic(auto, using(crate::proofs::LineLemmas::puts_none))]
#[inline(always)]
fn put_amount(out: &mut Line, call: &Call)
    requires { 24 ≤ room out.old }
    ensures puts { Puts (text_in out.old) (amount_words call.now) (text_in out.new) }
    ensures taken { room out.old ≤ room out.new + 24 }
{
    match call {
        Call::Tally(_, amount) | Call::Count(_, _, amount) => put_named(out, b"by", *amount),
        Call::Insert(_, _) | Call::Remove(_) | Call::Lookup(_) | Call::Put(_, _) => {}
    }
}

// The word for what a call asks.
#[inline(always)]
fn verb_word(call: &Call) -> &'static [u8]
    ensures word { result.now ≡ verb_word call.now }
    ensures short { length result.now ≤ 6 }
{
    match call {
        Call::Insert(_, _) => b"insert",
        Call::Remove(_) => b"remove",
        Call::Lookup(_) => b"lookup",
        Call::Tally(_, _) => b"tally",
        Call::Count(_, _, _) => b"count",
        Call::Put(_, _) => b"put",
    }
}

// Appends the reply to a call.
#[inline(always)]
fn put_reply(out: &mut Line, call: &Call, reply: Reply)
    requires { 27 ≤ room out.old }
    ensures puts { Puts (text_in out.old) (reply_words call.now reply) (text_in out.new) }
    ensures taken { room out.old ≤ room out.new + 27 }
{
    match reply {
        Reply::New => put_named(out, b"new", value_in(call)),
        Reply::Old(value) => put_named(out, b"old", value),
        Reply::NoRoom => put_word(out, b"noroom"),
        Reply::Gone(value) => put_named(out, b"gone", value),
        Reply::Found(value) => put_named(out, b"found", value),
        Reply::Absent => put_word(out, b"absent"),
        Reply::Sum(total) => put_named(out, b"sum", total),
    }
}

// The value that a call brings.
#[inline(always)]
fn value_in(call: &Call) -> u64
    ensures { result ≡ value_in call.now }
{
    match call {
        Call::Insert(_, value) | Call::Count(_, value, _) | Call::Put(_, value) => *value,
        Call::Remove(_) | Call::Lookup(_) | Call::Tally(_, _) => 0,
    }
}

// Appends what a call saw as it began, where the seats had answered so many calls before.
#[inline(always)]
pub fn put_after(out: &mut Line, seats: u32, before: &[u32], seen: &Seen)
    requires seats { seats ≤ 8 }
    requires space { 103 ≤ room out.old }
    ensures puts { Puts (text_in out.old) (after_words seats (seen_on before.now seen.now)) (text_in out.new) }
    ensures taken { room out.old ≤ room out.new + 103 }
{
    put_word(out, b"after");
    put_text(out, b" ");
    put_counts(out, seats, before, seen);
}

// Appends the counts of the first seats with commas between.
#[inline(always)]
fn put_counts(out: &mut Line, seats: u32, before: &[u32], seen: &Seen)
    requires seats { seats ≤ 8 }
    requires space { 88 ≤ room out.old }
    ensures appended { text_in out.new
        ≡ text_in out.old ++ counts_word seats (with_counts before.now seen.now.counts) }
    ensures taken { room out.old ≤ room out.new + 88 }
{
    if seats != 0 {
        out.put_digits(count_on(before, seen, 0));
        for seat in 1..seats as usize {
            put_text(out, b",");
            out.put_digits(count_on(before, seen, seat));
        }
    }
}

// How many calls of a seat a call saw, where the seats had answered so many before.
#[inline(always)]
fn count_on(before: &[u32], seen: &Seen, seat: usize) -> u64
    requires seat { seat < 8 }
    ensures count { result ≡ slice_index (with_counts before.now seen.now.counts) seat }
    ensures known { seat < length (with_counts before.now seen.now.counts) }
    ensures short { length (decimal result) ≤ 10 }
{
    let count = u64::from(seen.counts[seat]);
    match before.get(seat) {
        Some(gone) => u64::from(*gone) + count,
        None => count,
    }
}

// The word for what there is too little of.
fn short_word(what: FullKind) -> &'static [u8]
    ensures word { result.now ≡ short_word what }
    ensures short { length result.now ≤ 11 }
{
    match what {
        FullKind::OpRows => b"oprows",
        FullKind::BucketRows => b"bucketrows",
        FullKind::BucketWords => b"bucketwords",
        FullKind::DirRows => b"dirrows",
    }
}
