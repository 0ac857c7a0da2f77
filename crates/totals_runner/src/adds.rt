//! The lines of a report of totals.

ghost use Rattle.std.specs.Prelude.{◌≡◌, ◌+◌, ◌<◌, ◌≤◌, [], ◌∷◌, ◌++◌, length, slice_index, OnOk, OnErr};
ghost use Rattle.batch_history.specs.Batches.{seen_on};
ghost use Rattle.totals_runner.specs.Adds.{add_line, add_steps_line, added_on, class_word, total_line, totals_head, totals_tail};
ghost use Rattle.capture_faults.specs.Endings.{IsEnding};
ghost use Rattle.report_text.specs.Lines.{room, Puts, text_in};

use capture_faults::Ending;
use plain_map::Seen;
use report_text::{
    Line, append, begin_line, end_line, put_after, put_batch, put_input, put_named, put_number,
    put_word,
};
use sim_steps::{Added, Totals};
use std::alloc::AllocError;

/// What the last lines of a report of totals tell.
#[derive(Clone, Copy, PartialEq, Eq)]
pub struct TotalsTail {
    pub totals: Totals,
    pub ending: Ending,
    /// The most steps of an add, or 0.
    pub most: u64,
    /// The most that one may take.
    pub bound: u64,
}

/// Appends the head line.
pub fn totals_head_text(out: &mut Vec<u8>, seats: u32, batch: u32) -> Result<(), AllocError>
    ensures appended { OnOk result (out.new.items ≡ out.old.items ++ totals_head seats batch) }
    ensures kept { OnErr result (out.new.items ≡ out.old.items) }
{
    let mut line = Line::new();
    put_head(&mut line, seats, batch);
    append(out, &line)
}

/// Appends the line of an add. It is written in `line` first.
///
/// Of the counts that the add saw, those of the first `seats` seats are told, each after what its seat had added in
/// `before`.
#[inline]
pub fn add_text(
    out: &mut Vec<u8>,
    line: &mut Line,
    seats: u32,
    before: &[u32],
    added: &Added,
) -> Result<(), AllocError>
    requires seats { seats ≤ 8 }
    ensures appended { OnOk result (out.new.items ≡ out.old.items ++ add_line seats (added_on before.now added.now)) }
    ensures kept { OnErr result (out.new.items ≡ out.old.items) }
{
    line.clear();
    put_add(line, seats, before, added);
    append(out, line)
}

/// Appends the last lines.
pub fn totals_tail_text(out: &mut Vec<u8>, tail: &TotalsTail) -> Result<(), AllocError>
    requires { IsEnding tail.now.ending }
    ensures appended { OnOk result (out.new.items ≡ out.old.items ++ totals_tail tail.now) }
    ensures kept { OnErr result (out.new.items ≡ out.old.items) }
{
    let mut lines = Line::new();
    put_tail(&mut lines, tail);
    append(out, &lines)
}

// Appends the head line.
fn put_head(out: &mut Line, seats: u32, batch: u32)
    requires { 64 ≤ room out.old }
    ensures { text_in out.new ≡ text_in out.old ++ totals_head seats batch }
{
    begin_line(out, b"flowdir");
    put_word(out, b"totals");
    put_named(out, b"seats", seats);
    put_batch(out, batch);
    end_line(out);
}

// Appends the line of an add.
#[inline(always)]
fn put_add(out: &mut Line, seats: u32, before: &[u32], added: &Added)
    requires seats { seats ≤ 8 }
    requires space { 256 ≤ room out.old }
    ensures { text_in out.new ≡ text_in out.old ++ add_line seats (added_on before.now added.now) }
{
    let seen = Seen { counts: added.seen };
    begin_line(out, b"add");
    put_number(out, added.add.packet);
    put_named(out, b"seat", added.seat);
    put_word(out, class_word(added.add.class));
    put_number(out, added.add.length);
    put_named(out, b"count", added.count);
    put_named(out, b"steps", added.steps);
    put_after(out, seats, before, &seen);
    end_line(out);
}

// The word for a class.
#[inline(always)]
fn class_word(class: u32) -> &'static [u8]
    ensures word { result.now ≡ class_word class }
    ensures short { length result.now ≤ 6 }
{
    match class {
        0 => b"tcp",
        1 => b"udp",
        _ => b"passed",
    }
}

// Appends the last lines.
fn put_tail(out: &mut Line, tail: &TotalsTail)
    requires format { IsEnding tail.now.ending }
    requires space { 512 ≤ room out.old }
    ensures { text_in out.new ≡ text_in out.old ++ totals_tail tail.now }
{
    put_total(out, 0, &tail.totals);
    put_total(out, 1, &tail.totals);
    put_total(out, 2, &tail.totals);
    put_input(out, &tail.ending);
    put_steps(out, tail);
}

// Appends the totals of a class.
fn put_total(out: &mut Line, class: u32, totals: &Totals)
    requires class { class < 3 }
    requires space { 56 ≤ room out.old }
    ensures appended { text_in out.new ≡ text_in out.old ++ total_line class totals.now }
    ensures taken { room out.old ≤ room out.new + 56 }
{
    begin_line(out, b"total");
    put_word(out, class_word(class));
    put_number(out, totals.counts[class as usize]);
    put_number(out, totals.bytes[class as usize]);
    end_line(out);
}

// Appends the greatest numbers of steps.
fn put_steps(out: &mut Line, tail: &TotalsTail)
    requires { 64 ≤ room out.old }
    ensures { text_in out.new ≡ text_in out.old ++ add_steps_line tail.now.most tail.now.bound }
{
    begin_line(out, b"steps");
    put_named(out, b"add", tail.most);
    put_named(out, b"bound", tail.bound);
    end_line(out);
}
