//! The faults of an input's format.

ghost use Rattle.std.specs.Prelude.{◌≡◌};
ghost use Rattle.line_fields.specs.Reading.{Gives};
ghost use Rattle.report_lines.specs.Fields.{capture_at, fault_at, four_at, order_bytes_at, packet_fault_at, place_at, section_at, version_at};

use capture_faults::{AnyFault, CaptureFault};
use line_fields::{hexadecimal, number, text};

/// A fault of a savefile or of pcapng at the front, and the bytes behind it.
#[tactic(auto, unfolding(crate::specs::Fields::fault_at))]
pub(crate) fn fault(bytes: &[u8]) -> Option<(AnyFault, &[u8])>
    ensures { Gives (λ x. (x.0, x.1.now)) result (fault_at bytes.now) }
{
    if let Some(rest) = text(bytes, b"byte-order at ") {
        let ((offset, bytes), rest) = order_bytes(rest)?;
        return Some((AnyFault::ByteOrder { offset, bytes }, rest));
    }
    if let Some(rest) = text(bytes, b"block-length at ") {
        let ((offset, found), rest) = place(rest)?;
        return Some((AnyFault::BlockLength { offset, found }, rest));
    }
    if let Some(rest) = text(bytes, b"trailer at ") {
        let ((offset, found), rest) = place(rest)?;
        return Some((AnyFault::Trailer { offset, found }, rest));
    }
    if let Some(rest) = text(bytes, b"section-version at ") {
        let ((offset, (major, minor)), rest) = section(rest)?;
        let fault = AnyFault::SectionVersion {
            offset,
            major,
            minor,
        };
        return Some((fault, rest));
    }
    packet_fault(bytes)
}

// A fault of a packet's block, or of too many blocks, or of a savefile.
#[tactic(auto, unfolding(crate::specs::Fields::packet_fault_at))]
fn packet_fault(bytes: &[u8]) -> Option<(AnyFault, &[u8])>
    ensures { Gives (λ x. (x.0, x.1.now)) result (packet_fault_at bytes.now) }
{
    if let Some(rest) = text(bytes, b"interface at ") {
        let ((offset, found), rest) = place(rest)?;
        return Some((AnyFault::Interface { offset, found }, rest));
    }
    if let Some(rest) = text(bytes, b"captured-length at ") {
        let ((offset, found), rest) = place(rest)?;
        return Some((AnyFault::CapturedLength { offset, found }, rest));
    }
    if let Some(rest) = text(bytes, b"interfaces at ") {
        let (offset, rest) = number(rest, u64::MAX)?;
        let rest = text(rest, b" found 257")?;
        return Some((AnyFault::Interfaces { offset }, rest));
    }
    if let Some(rest) = text(bytes, b"blocks at ") {
        let (offset, rest) = number(rest, u64::MAX)?;
        let rest = text(rest, b" found 4000001")?;
        return Some((AnyFault::Blocks { offset }, rest));
    }
    let (fault, rest) = capture_fault(bytes)?;
    Some((AnyFault::Capture(fault), rest))
}

// A fault of a savefile.
#[tactic(auto, unfolding(crate::specs::Fields::capture_at))]
fn capture_fault(bytes: &[u8]) -> Option<(CaptureFault, &[u8])>
    ensures { Gives (λ x. (x.0, x.1.now)) result (capture_at bytes.now) }
{
    if let Some(rest) = text(bytes, b"short-header at 0 found ") {
        let (have, rest) = number(rest, 4_294_967_295)?;
        return Some((CaptureFault::ShortHeader { have: have as u32 }, rest));
    }
    if let Some(rest) = text(bytes, b"magic at 0 found ") {
        let (bytes, rest) = four_bytes(rest)?;
        return Some((CaptureFault::Magic { bytes }, rest));
    }
    if let Some(rest) = text(bytes, b"version at 4 found ") {
        let ((major, minor), rest) = version(rest)?;
        return Some((CaptureFault::Version { major, minor }, rest));
    }
    if let Some(rest) = text(bytes, b"link at 20 found ") {
        let (found, rest) = number(rest, 65_535)?;
        let fault = CaptureFault::LinkType {
            found: found as u16,
        };
        return Some((fault, rest));
    }
    let rest = text(bytes, b"length at ")?;
    let ((offset, found), rest) = place(rest)?;
    Some((CaptureFault::RecordLength { offset, found }, rest))
}

// Where something begins, and the number that stands there.
#[tactic(auto, unfolding(crate::specs::Fields::place_at))]
fn place(bytes: &[u8]) -> Option<((u64, u32), &[u8])>
    ensures { Gives (λ x. (x.0, x.1.now)) result (place_at bytes.now) }
{
    let (offset, rest) = number(bytes, u64::MAX)?;
    let rest = text(rest, b" found ")?;
    let (found, rest) = number(rest, 4_294_967_295)?;
    Some(((offset, found as u32), rest))
}

// Where a section begins, and its version.
#[tactic(auto, unfolding(crate::specs::Fields::section_at))]
fn section(bytes: &[u8]) -> Option<((u64, (u16, u16)), &[u8])>
    ensures { Gives (λ x. (x.0, x.1.now)) result (section_at bytes.now) }
{
    let (offset, rest) = number(bytes, u64::MAX)?;
    let rest = text(rest, b" found ")?;
    let (version, rest) = version(rest)?;
    Some(((offset, version), rest))
}

// Where a section begins, and the bytes in place of its byte order.
#[tactic(auto, unfolding(crate::specs::Fields::order_bytes_at))]
fn order_bytes(bytes: &[u8]) -> Option<((u64, [u8; 4]), &[u8])>
    ensures { Gives (λ x. (x.0, x.1.now)) result (order_bytes_at bytes.now) }
{
    let (offset, rest) = number(bytes, u64::MAX)?;
    let rest = text(rest, b" found ")?;
    let (four, rest) = four_bytes(rest)?;
    Some(((offset, four), rest))
}

// Both numbers of a version.
#[tactic(auto, unfolding(crate::specs::Fields::version_at))]
fn version(bytes: &[u8]) -> Option<((u16, u16), &[u8])>
    ensures { Gives (λ x. (x.0, x.1.now)) result (version_at bytes.now) }
{
    let (major, rest) = number(bytes, 65_535)?;
    let rest = text(rest, b".")?;
    let (minor, rest) = number(rest, 65_535)?;
    Some(((major as u16, minor as u16), rest))
}

// Four bytes, as two hexadecimal digits each.
#[tactic(auto, unfolding(crate::specs::Fields::four_at))]
fn four_bytes(bytes: &[u8]) -> Option<([u8; 4], &[u8])>
    ensures { Gives (λ x. (x.0, x.1.now)) result (four_at bytes.now) }
{
    let (one, rest) = hexadecimal(bytes)?;
    let (two, rest) = hexadecimal(rest)?;
    let (three, rest) = hexadecimal(rest)?;
    let (four, rest) = hexadecimal(rest)?;
    Some(([one, two, three, four], rest))
}
