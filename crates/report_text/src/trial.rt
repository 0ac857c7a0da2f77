//! The text of a trial.

ghost use Rattle.std.specs.Prelude.{◌≡◌, ◌+◌, ◌≤◌, ◌++◌, OnOk, OnErr};
ghost use Rattle.report_text.specs.Trials.{answers_line, sessions_line, trial_line, trial_lines};
ghost use Rattle.report_text.specs.Lines.{room, text_in};

use crate::head::put_batch;
use crate::line::Line;
use crate::pieces::{append, begin_line, end_line, put_named, put_number, put_word};
use std::alloc::AllocError;

/// What a trial tells: its settings, how the calls of the made capture were answered, and what is left.
#[derive(Clone, Copy, PartialEq, Eq)]
pub struct Trial {
    /// What the capture was made of.
    pub number: u64,
    pub packets: u64,
    pub seats: u32,
    pub items: u32,
    pub depth: u32,
    pub start: u32,
    pub seed: u64,
    /// How many packets a batch had.
    pub batch: u32,
    pub calls: u64,
    /// Of the calls, those with each reply.
    pub new: u64,
    pub old: u64,
    pub noroom: u64,
    pub gone: u64,
    pub found: u64,
    pub absent: u64,
    /// Refused calls.
    pub full: u64,
    /// Pairs that are left.
    pub sessions: u64,
}

/// Appends the three lines of a trial.
pub fn trial_text(out: &mut Vec<u8>, trial: &Trial) -> Result<(), AllocError>
    ensures appended { OnOk result (out.new.items ≡ out.old.items ++ trial_lines trial.now) }
    ensures kept { OnErr result (out.new.items ≡ out.old.items) }
{
    let mut lines = Line::new();
    put_trial(&mut lines, trial);
    put_answers(&mut lines, trial);
    put_sessions(&mut lines, trial);
    append(out, &lines)
}

// Appends the settings of a trial.
fn put_trial(out: &mut Line, trial: &Trial)
    requires { 182 ≤ room out.old }
    ensures appended { text_in out.new ≡ text_in out.old ++ trial_line trial.now }
    ensures taken { room out.old ≤ room out.new + 182 }
{
    begin_line(out, b"flowdir");
    put_word(out, b"trial");
    put_named(out, b"number", trial.number);
    put_named(out, b"packets", trial.packets);
    put_named(out, b"seats", trial.seats);
    put_named(out, b"items", trial.items);
    put_named(out, b"depth", trial.depth);
    put_named(out, b"start", trial.start);
    put_named(out, b"seed", trial.seed);
    put_batch(out, trial.batch);
    end_line(out);
}

// Appends how the calls were answered.
fn put_answers(out: &mut Line, trial: &Trial)
    requires { 212 ≤ room out.old }
    ensures appended { text_in out.new ≡ text_in out.old ++ answers_line trial.now }
    ensures taken { room out.old ≤ room out.new + 212 }
{
    begin_line(out, b"calls");
    put_number(out, trial.calls);
    put_named(out, b"new", trial.new);
    put_named(out, b"old", trial.old);
    put_named(out, b"noroom", trial.noroom);
    put_named(out, b"gone", trial.gone);
    put_named(out, b"found", trial.found);
    put_named(out, b"absent", trial.absent);
    put_named(out, b"full", trial.full);
    end_line(out);
}

// Appends how many sessions are left.
fn put_sessions(out: &mut Line, trial: &Trial)
    requires { 30 ≤ room out.old }
    ensures { text_in out.new ≡ text_in out.old ++ sessions_line trial.now }
{
    begin_line(out, b"sessions");
    put_number(out, trial.sessions);
    end_line(out);
}
