//! What the program says on standard error of how a run ended.

use capture_faults::{AnyFault, CaptureFault, MOST_INTERFACES, MOST_OTHERS};
use command_line::{Mode, read_words, wrong_word};
use std::alloc::AllocError;
use std::io;
use step_counts::{MOST_DEPTH, MOST_ITEMS};
use trace_runner::Status;

/// How a run ended, and what else is said of it.
#[derive(Clone, Copy)]
pub struct Ended<'a> {
    pub status: Status,
    /// The words after the program's name.
    pub words: &'a [String],
    /// Where the first packet that was not served begins.
    pub beyond: Option<u64>,
    /// How many calls were answered `noroom`, by the last counts of a report of flows.
    pub no_room: Option<u64>,
}

/// Says how a run ended, if there is anything to say. Of words that ask for no plan it is which of them is wrong. Of a
/// capture's fault it is what the report's line has of it, and for another link type what to give; of one with too many
/// packets it is where the first of these begins.
pub fn complain(rt: &HostRuntime, ended: &Ended<'_>) -> io::Result<()> {
    match ended.status {
        Status::Usage => say_words(rt, ended)?,
        Status::BadCapture { fault } => say_capture(rt, ended.status, fault)?,
        _ => say_status(rt, ended.status)?,
    }
    if let Some(place) = ended.beyond {
        eprintln!(rt; "flowdir: the first packet not served begins at byte {place}")?;
    }
    say_no_room(rt, ended)
}

/// Says which word is wrong.
fn say_words(rt: &HostRuntime, ended: &Ended<'_>) -> io::Result<()> {
    match wrong_word(rt.alloc(), ended.words) {
        Ok(Some(wrong)) => eprintln!(rt; "flowdir: {wrong}"),
        Ok(None) | Err(AllocError) => say_status(rt, ended.status),
    }
}

/// Says what the status alone says.
pub fn say_status(rt: &HostRuntime, status: Status) -> io::Result<()> {
    match status.complaint() {
        Some(complaint) => match complaint.number {
            Some(number) => eprintln!(rt; "{}{number}{}", complaint.text, complaint.rest),
            None => eprintln!(rt; "{}", complaint.text),
        },
        None => Ok(()),
    }
}

/// Says the fault of a capture, and of one that is packed how to unpack it.
fn say_capture(rt: &HostRuntime, status: Status, fault: AnyFault) -> io::Result<()> {
    if status.complaint().is_some() {
        return say_status(rt, status);
    }
    any_fault(rt, fault)?;
    match packed(fault) {
        Some((packer, unpacker)) => {
            eprintln!(rt; "flowdir: this is packed by {packer}: {unpacker} FILE | flowdir ..")
        }
        None => Ok(()),
    }
}

/// By what an input is packed, and by what it is unpacked, as its first bytes say.
///
/// Source: RFC 1952, section 2.3.1; the .xz file format, section 2.1.1.1; RFC 8878, section 3.1.1; bzip2's own manual.
fn packed(fault: AnyFault) -> Option<(&'static str, &'static str)> {
    let AnyFault::Capture(CaptureFault::Magic { bytes }) = fault else {
        return None;
    };
    match bytes {
        [0x1f, 0x8b, _, _] => Some(("gzip", "zcat")),
        [0xfd, b'7', b'z', b'X'] => Some(("xz", "xzcat")),
        [0x28, 0xb5, 0x2f, 0xfd] => Some(("zstd", "zstdcat")),
        [b'B', b'Z', b'h', _] => Some(("bzip2", "bzcat")),
        _ => None,
    }
}

/// Says how many calls of `flows` found no room, and which options give more.
fn say_no_room(rt: &HostRuntime, ended: &Ended<'_>) -> io::Result<()> {
    let Some(calls) = ended.no_room else {
        return Ok(());
    };
    if calls == 0 {
        return Ok(());
    }
    let Ok(plan) = read_words(rt.alloc(), ended.words) else {
        return Ok(());
    };
    if plan.mode != Mode::Flows {
        return Ok(());
    }
    let items = plan.items < MOST_ITEMS;
    let depth = plan.depth < MOST_DEPTH;
    match (items, depth) {
        (true, true) => eprintln!(rt;
            "flowdir: {calls} calls found no room; --items {MOST_ITEMS} and --depth {MOST_DEPTH} give more"
        ),
        (true, false) => eprintln!(rt;
            "flowdir: {calls} calls found no room; --items {MOST_ITEMS} gives more"
        ),
        (false, true) => eprintln!(rt;
            "flowdir: {calls} calls found no room; --depth {MOST_DEPTH} gives more"
        ),
        (false, false) => eprintln!(rt;
            "flowdir: {calls} calls found no room; no option gives more"
        ),
    }
}

/// A fault of an input: its name, where it is, and what was found there.
fn any_fault(rt: &HostRuntime, fault: AnyFault) -> io::Result<()> {
    match fault {
        AnyFault::Capture(fault) => capture_fault(rt, fault),
        AnyFault::ByteOrder { offset, bytes } => found_bytes(rt, "byte-order", offset, bytes),
        AnyFault::BlockLength { offset, found } => found_number(rt, "block-length", offset, found),
        AnyFault::Trailer { offset, found } => found_number(rt, "trailer", offset, found),
        AnyFault::SectionVersion {
            offset,
            major,
            minor,
        } => found_version(rt, "section-version", offset, major, minor),
        AnyFault::Interface { offset, found } => found_number(rt, "interface", offset, found),
        AnyFault::CapturedLength { offset, found } => found_number(
            rt,
            "captured-length",
            offset,
            found,
        ),
        AnyFault::Interfaces { offset } => {
            found_number(rt, "interfaces", offset, MOST_INTERFACES as u32 + 1)
        }
        AnyFault::Blocks { offset } => found_number(rt, "blocks", offset, MOST_OTHERS + 1),
    }
}

/// A fault of a savefile.
fn capture_fault(rt: &HostRuntime, fault: CaptureFault) -> io::Result<()> {
    match fault {
        CaptureFault::ShortHeader { have } => found_number(rt, "short-header", 0, have),
        CaptureFault::Magic { bytes } => found_bytes(rt, "magic", 0, bytes),
        CaptureFault::Version { major, minor } => found_version(rt, "version", 4, major, minor),
        CaptureFault::LinkType { found } => found_number(rt, "link", 20, u32::from(found)),
        CaptureFault::RecordLength { offset, found } => found_number(rt, "length", offset, found),
        // No report ends with one of these.
        CaptureFault::ReadFault | CaptureFault::Memory => Ok(()),
    }
}

fn found_number(rt: &HostRuntime, name: &str, place: u64, found: u32) -> io::Result<()> {
    eprintln!(rt; "flowdir: fault {name} at {place} found {found}")
}

fn found_bytes(rt: &HostRuntime, name: &str, place: u64, bytes: [u8; 4]) -> io::Result<()> {
    let found = u32::from_be_bytes(bytes);
    eprintln!(rt; "flowdir: fault {name} at {place} found {found:08x}")
}

fn found_version(
    rt: &HostRuntime,
    name: &str,
    place: u64,
    major: u16,
    minor: u16,
) -> io::Result<()> {
    eprintln!(rt; "flowdir: fault {name} at {place} found {major}.{minor}")
}
