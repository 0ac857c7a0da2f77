//! The last lines: the leaves, the input, the counts and the steps.

ghost use Rattle.std.specs.Prelude.{◌≡◌, ◌+◌, ◌<◌, ◌≤◌, false, [], ◌∷◌, ◌++◌, codes, decimal, length, OnOk, OnErr};
ghost use Rattle.std.specs.Fmt.{digit_glyph};
ghost use Rattle.report_text.specs.Report.{capture_words, count_line, ending_words, fault_words, input_line, leaves_line, steps_line, tail_lines};
ghost use Rattle.capture_faults.specs.Endings.{IsCaptureFault, IsEnding, IsFormatFault};
ghost use Rattle.report_text.specs.Lines.{hexadecimal, room, Puts, text_in};

use crate::line::Line;
use crate::parts::Tail;
use crate::pieces::{
    append, begin_line, end_line, put_digits, put_named, put_number, put_text, put_word,
};
use capture_faults::{AnyFault, CaptureFault, Ending, MOST_INTERFACES, MOST_OTHERS};
use std::alloc::AllocError;

// The digits of numbers below 16.
const HEX_DIGITS: &[u8; 16] = b"0123456789abcdef";

/// Appends the last lines.
pub fn tail_text(out: &mut Vec<u8>, tail: &Tail) -> Result<(), AllocError>
    requires { IsEnding tail.now.ending }
    ensures appended { OnOk result (out.new.items ≡ out.old.items ++ tail_lines tail.now) }
    ensures kept { OnErr result (out.new.items ≡ out.old.items) }
{
    let mut lines = Line::new();
    put_tail(&mut lines, tail);
    append(out, &lines)
}

/// Appends the line that says how the input came to its end.
pub fn input_text(out: &mut Vec<u8>, ending: &Ending) -> Result<(), AllocError>
    requires { IsEnding ending.now }
    ensures appended { OnOk result (out.new.items ≡ out.old.items ++ input_line ending.now) }
    ensures kept { OnErr result (out.new.items ≡ out.old.items) }
{
    let mut line = Line::new();
    put_input(&mut line, ending);
    append(out, &line)
}

// Appends the last lines.
fn put_tail(out: &mut Line, tail: &Tail)
    requires format { IsEnding tail.now.ending }
    requires space { 512 ≤ room out.old }
    ensures { text_in out.new ≡ text_in out.old ++ tail_lines tail.now }
{
    put_leaves(out, tail);
    put_input(out, &tail.ending);
    put_count(out, tail);
    put_steps(out, tail);
}

// Appends how many leaves the last table has.
fn put_leaves(out: &mut Line, tail: &Tail)
    requires { 46 ≤ room out.old }
    ensures appended { text_in out.new ≡ text_in out.old ++ leaves_line tail.now }
    ensures taken { room out.old ≤ room out.new + 46 }
{
    begin_line(out, b"leaves");
    put_number(out, tail.leaves);
    put_named(out, b"depth", tail.depth);
    end_line(out);
}

// Appends how the input came to its end.
pub fn put_input(out: &mut Line, ending: &Ending)
    requires format { IsEnding ending.now }
    requires space { 74 ≤ room out.old }
    ensures appended { text_in out.new ≡ text_in out.old ++ input_line ending.now }
    ensures taken { room out.old ≤ room out.new + 74 }
{
    begin_line(out, b"input");
    put_ending(out, ending);
    end_line(out);
}

// Appends the kind of an ending, and what is to be told of it.
fn put_ending(out: &mut Line, ending: &Ending)
    requires format { IsEnding ending.now }
    requires space { 68 ≤ room out.old }
    ensures puts { Puts (text_in out.old) (ending_words ending.now) (text_in out.new) }
    ensures taken { room out.old ≤ room out.new + 68 }
{
    match ending {
        Ending::Done { rest } => {
            put_word(out, b"done");
            put_named(out, b"rest", *rest);
        }
        Ending::ReadFault => put_word(out, b"read-fault"),
        Ending::Limit { limit } => put_named(out, b"limit", *limit),
        Ending::Fault(fault) => {
            put_word(out, b"fault");
            put_fault(out, fault);
        }
    }
}

// Appends a fault of an input's format: its name, where it is, and what was found.
fn put_fault(out: &mut Line, fault: &AnyFault)
    requires format { IsFormatFault fault.now }
    requires space { 62 ≤ room out.old }
    ensures puts { Puts (text_in out.old) (fault_words fault.now) (text_in out.new) }
    ensures taken { room out.old ≤ room out.new + 62 }
{
    match fault {
        AnyFault::Capture(fault) => put_capture_fault(out, fault),
        AnyFault::ByteOrder { offset, bytes } => {
            put_place(out, b"byte-order", *offset);
            put_hexadecimal(out, bytes);
        }
        AnyFault::BlockLength { offset, found } => {
            put_place(out, b"block-length", *offset);
            put_number(out, *found);
        }
        AnyFault::Trailer { offset, found } => {
            put_place(out, b"trailer", *offset);
            put_number(out, *found);
        }
        AnyFault::SectionVersion {
            offset,
            major,
            minor,
        } => {
            put_place(out, b"section-version", *offset);
            put_version(out, *major, *minor);
        }
        AnyFault::Interface { offset, found } => {
            put_place(out, b"interface", *offset);
            put_number(out, *found);
        }
        AnyFault::CapturedLength { offset, found } => {
            put_place(out, b"captured-length", *offset);
            put_number(out, *found);
        }
        AnyFault::Interfaces { offset } => {
            put_place(out, b"interfaces", *offset);
            put_number(out, MOST_INTERFACES as u32 + 1);
        }
        AnyFault::Blocks { offset } => {
            put_place(out, b"blocks", *offset);
            put_number(out, MOST_OTHERS + 1);
        }
    }
}

// Appends a fault of a savefile.
fn put_capture_fault(out: &mut Line, fault: &CaptureFault)
    requires format { IsCaptureFault fault.now }
    requires space { 62 ≤ room out.old }
    ensures puts { Puts (text_in out.old) (capture_words fault.now) (text_in out.new) }
    ensures taken { room out.old ≤ room out.new + 62 }
{
    match fault {
        CaptureFault::ShortHeader { have } => {
            put_place(out, b"short-header", 0);
            put_number(out, *have);
        }
        CaptureFault::Magic { bytes } => {
            put_place(out, b"magic", 0);
            put_hexadecimal(out, bytes);
        }
        CaptureFault::Version { major, minor } => {
            put_place(out, b"version", 4);
            put_version(out, *major, *minor);
        }
        CaptureFault::LinkType { found } => {
            put_place(out, b"link", 20);
            put_number(out, *found);
        }
        CaptureFault::RecordLength { offset, found } => {
            put_place(out, b"length", *offset);
            put_number(out, *found);
        }
        // No ending has one of these.
        CaptureFault::ReadFault | CaptureFault::Memory => {}
    }
}

// Appends the name of a fault and its place in the file, and says that something was found there.
fn put_place(out: &mut Line, name: &[u8], offset: u64)
    requires { length name.now + 31 ≤ room out.old }
    ensures puts { Puts (text_in out.old) (name.now ∷ codes "at" ∷ decimal offset ∷ codes "found" ∷ [])
        (text_in out.new) }
    ensures taken { room out.old ≤ room out.new + length name.now + 31 }
{
    put_word(out, name);
    put_named(out, b"at", offset);
    put_word(out, b"found");
}

// Appends a version.
fn put_version(out: &mut Line, major: u16, minor: u16)
    requires { 12 ≤ room out.old }
    ensures puts { Puts (text_in out.old) ((decimal major ++ (codes "." ++ decimal minor)) ∷ []) (text_in out.new) }
    ensures taken { room out.old ≤ room out.new + 12 }
{
    put_text(out, b" ");
    put_digits(out, major);
    put_text(out, b".");
    put_digits(out, minor);
}

// Appends bytes in hexadecimal digits, as a word.
fn put_hexadecimal(out: &mut Line, bytes: &[u8; 4])
    requires { 9 ≤ room out.old }
    ensures puts { Puts (text_in out.old) (hexadecimal bytes.now ∷ []) (text_in out.new) }
    ensures taken { room out.old ≤ room out.new + 9 }
{
    put_text(out, b" ");
    put_pairs(out, bytes);
}

// Appends two hexadecimal digits for each byte.
#[tactic(auto, unfolding(crate::specs::Lines::hexadecimal))]
fn put_pairs(out: &mut Line, bytes: &[u8])
    requires few { length bytes.now ≤ 4 }
    requires space { 8 ≤ room out.old }
    ensures appended { text_in out.new ≡ text_in out.old ++ hexadecimal bytes.now }
    ensures taken { room out.old ≤ room out.new + 8 }
{
    for byte in bytes {
        put_text(out, &[hex_digit(byte >> 4), hex_digit(byte & 15)]);
    }
}

// The hexadecimal digit of a number below 16, in lower case.
fn hex_digit(value: u8) -> u8
    requires { value < 16 }
    ensures { result ≡ digit_glyph false value }
{
    HEX_DIGITS[usize::from(value)]
}

// Appends the counts of packets and calls.
fn put_count(out: &mut Line, tail: &Tail)
    requires { 184 ≤ room out.old }
    ensures appended { text_in out.new ≡ text_in out.old ++ count_line tail.now }
    ensures taken { room out.old ≤ room out.new + 184 }
{
    begin_line(out, b"count");
    put_named(out, b"packets", tail.packets);
    put_named(out, b"calls", tail.calls);
    put_named(out, b"passed", tail.passed);
    put_named(out, b"full", tail.full);
    put_named(out, b"pending", tail.pending);
    put_named(out, b"unbegun", tail.unbegun);
    end_line(out);
}

// Appends the greatest numbers of steps.
fn put_steps(out: &mut Line, tail: &Tail)
    requires { 90 ≤ room out.old }
    ensures { text_in out.new ≡ text_in out.old ++ steps_line tail.now }
{
    begin_line(out, b"steps");
    put_named(out, b"update", tail.update);
    put_named(out, b"bound", tail.bound);
    put_named(out, b"lookup", tail.lookup);
    end_line(out);
}
