//! A report, read.

ghost use Rattle.std.specs.Prelude.{◌≡◌, [], List, ℕ, None, IfOk, length, ◌≤◌, ◌<◌, ◌-◌, ◌^◌};
ghost use Rattle.step_counts.specs.Made.{IsMadeOf};
ghost use Rattle.step_counts.specs.declared.settings.Settings.{Settings as ASettings};
ghost use Rattle.step_counts.specs.StepCounts.{step_bound};
ghost use Rattle.report_text.specs.declared.parts.Head.{Head as AHead};
ghost use Rattle.report_told.specs.Told.{Entry};
ghost use Rattle.report_told.specs.Rules.{IsHead, IsSettingsOf};
ghost use Rattle.report_lines.specs.Lines.{session_at};
ghost use Rattle.report_lines.proofs.Machine.{Body, begun_with, body};
ghost use Rattle.report_reading.specs.Entries.{Holds};
ghost use Rattle.report_reading.specs.Kept.{IsReadingOf};
ghost use Rattle.report_reading.specs.Steps.{At, NoEntry, with_entries, with_pairs};

use crate::entries::Entries;
use crate::kept::Kept;
use crate::sessions::sessions;
use crate::steps::Part;
use crate::tail::tail;
use plain_map::Pair;
use report_lines::head_line;
use report_text::Head;
use std::alloc::{AllocError, Global};
use step_counts::{Settings, bound, need};

/// The most bytes of a text that is read.
pub const TEXT_LIMIT: usize = 4_294_967_295;

/// What a text is.
#[derive(Drop)]
pub enum Reading {
    /// A report.
    Report(Kept),
    /// No report; this is the first line, from 1, with which none begins.
    BadLine { line: u32 },
}

/// Reads a text: what it tells, where it is a report, else its first bad line. The only error is want of memory.
pub fn read(alloc: Global, text: &[u8]) -> Result<Reading, AllocError>
    requires { length text.now ≤ TEXT_LIMIT }
    ensures { IfOk result (IsReadingOf text.now) }
{
    match head_line(text) {
        Some((head, rest)) => behind_head(alloc, head, rest),
        None => Ok(Reading::BadLine { line: 1 }),
    }
}

// Behind the head line.
fn behind_head(alloc: Global, head: Head, bytes: &[u8]) -> Result<Reading, AllocError>
    ensures { (text : List ℕ) → IsHead head → At text (body (begun_with head)) bytes.now 1 →
        length text ≤ 4294967295 → IfOk result (IsReadingOf text) }
{
    match Settings::new(head.seats, head.items, head.depth, head.start) {
        Ok(settings) => behind_settings(alloc, head, &settings, bytes),
        Err(_) => Ok(Reading::BadLine { line: 1 }),
    }
}

// The same, with the settings of the head.
fn behind_settings(
    alloc: Global,
    head: Head,
    settings: &Settings,
    bytes: &[u8],
) -> Result<Reading, AllocError>
    ensures { (text : List ℕ) → IsHead head → At text (body (begun_with head)) bytes.now 1 →
        IsSettingsOf head settings.now → length text ≤ 4294967295 → IfOk result (IsReadingOf text) }
{
    let mut entries = Entries::new(alloc, head, need(settings));
    match entries.read(bytes, settings.seats)? {
        Part::Whole { rest, lines } => behind_entries(alloc, entries, bound(settings), rest, lines),
        Part::Bad { line } => Ok(Reading::BadLine { line }),
    }
}

// Behind the lines of entries.
fn behind_entries(
    alloc: Global,
    kept: Entries,
    bound: u64,
    bytes: &[u8],
    lines: u32,
) -> Result<Reading, AllocError>
    ensures { (text : List ℕ) (head : AHead) (entries : List Entry) → Holds kept head entries →
        length entries < 2 ^ 32 - 1 →
        At text (body (with_entries head entries)) bytes.now lines → NoEntry (with_entries head entries) bytes.now →
        ((s : ASettings) → IsSettingsOf head s → bound ≡ step_bound s) → length text ≤ 4294967295 →
        IfOk result (IsReadingOf text) }
{
    let mut pairs = Vec::new(alloc);
    match sessions(bytes, lines, &mut pairs)? {
        Part::Whole { rest, lines } => Ok(behind_sessions(kept, bound, pairs, rest, lines)),
        Part::Bad { line } => Ok(Reading::BadLine { line }),
    }
}

// Behind the lines of sessions.
fn behind_sessions(kept: Entries, bound: u64, pairs: Vec<Pair>, bytes: &[u8], lines: u32) -> Reading
    ensures { (text : List ℕ) (head : AHead) (entries : List Entry) → Holds kept head entries →
        length entries < 2 ^ 32 - 1 →
        At text (body (with_pairs (with_entries head entries) pairs.items)) bytes.now lines →
        session_at bytes.now ≡ None → (pairs.items ≡ [] → NoEntry (with_entries head entries) bytes.now) →
        ((s : ASettings) → IsSettingsOf head s → bound ≡ step_bound s) → length text ≤ 4294967295 →
        IsReadingOf text result }
{
    match tail(bytes, lines, bound) {
        Ok(()) => Reading::Report(kept.kept(bound, pairs)),
        Err(line) => Reading::BadLine { line },
    }
}
