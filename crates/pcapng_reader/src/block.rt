//! What the bytes from a block's start on show.
//!
//! Source: draft-ietf-opsawg-pcapng, 3.1 and 4.1 to 4.4.

ghost use Rattle.std.specs.Prelude.{◌≡◌, ◌≤◌, true, false, length, take, drop, IfSome, IfNone};
ghost use Rattle.pcap_reader.specs.declared.order.Order.{Order as AnOrder};
ghost use Rattle.pcap_reader.specs.Capture.{spelling};
ghost use Rattle.pcapng_reader.specs.Clocks.{looked_size};
ghost use Rattle.pcapng_reader.specs.Blocks.{HasKind, IsBlockLength, IsSection, IsTooLong, Sees, SeesCaptured, SeesEnhanced, SeesInterface, SeesKind, SeesOther, SeesSection, SeesSimple, SeesSize, byte_order_magic, given_length, least_length, simple_length, total_length};

use crate::clock::{Clock, FRONT_LOOKED_AT, clock_in};
use crate::{Interface, Section};
use capture_faults::{AnyFault, MOST_INTERFACES, MOST_OTHERS};
use pcap_reader::{MAXIMUM_CAPTURED, Order};

/// The longest block, in bytes, which is also that of libpcap.
pub const LONGEST_BLOCK: u32 = 16_777_216;

/// The type of an enhanced packet block.
const ENHANCED: u32 = 6;

/// How many bytes of a block, besides its packet, are looked at.
pub const BLOCK_FRONT: usize = 28;

/// What a block is for, by its type.
#[derive(Clone, Copy, PartialEq, Eq)]
pub enum Kind {
    Section,
    Interface,
    Enhanced,
    Simple,
    Other,
}

/// What the bytes from a block's start on show. A size is that of the whole block, in bytes.
#[derive(Clone, Copy, PartialEq, Eq)]
pub enum Seen {
    /// The block is not whole, or no byte is left.
    Cut,
    /// It breaks a rule.
    Fault(AnyFault),
    /// A whole block with a packet, of which the `count` bytes from the place `at` are given.
    Packet {
        size: usize,
        at: usize,
        count: usize,
    },
    /// A whole block that begins a section.
    Section {
        size: usize,
        order: Order,
    },
    /// A whole block with an interface.
    Interface {
        size: usize,
        interface: Interface,
    },
    /// A whole block of another kind.
    Other {
        size: usize,
    },
}

/// What the bytes from a block's start on show. Nearly each block is an enhanced packet, so that is asked first.
pub fn look(section: &Section, offset: u64, bytes: &[u8]) -> Seen
    ensures { Sees section.now offset bytes.now result }
{
    if bytes.len() < 8 {
        return Seen::Cut;
    }
    let order = section.order();
    if order.read_u32(bytes) == ENHANCED {
        return look_by(section, offset, order, Kind::Enhanced, bytes);
    }
    if begins_section(bytes) {
        look_at_section(section, offset, bytes)
    } else {
        look_at_other(section, offset, bytes)
    }
}

/// Whether the bytes begin with a section's type.
pub fn begins_section(bytes: &[u8]) -> bool
    ensures found { result ≡ true → IsSection bytes.now }
    ensures none { result ≡ false → ¬ IsSection bytes.now }
{
    match bytes {
        [0x0a, 0x0d, 0x0d, 0x0a, ..] => true,
        _ => false,
    }
}

/// What the bytes show where they begin with a section's type.
fn look_at_section(section: &Section, offset: u64, bytes: &[u8]) -> Seen
    requires section { IsSection bytes.now }
    ensures { Sees section.now offset bytes.now result }
{
    if bytes.len() < 12 {
        return Seen::Cut;
    }
    match order_of(&bytes[8..]) {
        Some(order) => look_by(section, offset, order, Kind::Section, bytes),
        None => Seen::Fault(AnyFault::ByteOrder {
            offset,
            bytes: [bytes[8], bytes[9], bytes[10], bytes[11]],
        }),
    }
}

/// What the bytes show where they begin with another type.
fn look_at_other(section: &Section, offset: u64, bytes: &[u8]) -> Seen
    requires long { 8 ≤ length bytes.now }
    requires other { ¬ IsSection bytes.now }
    ensures { Sees section.now offset bytes.now result }
{
    let order = section.order();
    let kind = kind_of(order.read_u32(bytes));
    look_by(section, offset, order, kind, bytes)
}

/// The order in which the first four bytes are the byte-order magic.
///
/// `None` comes exactly where they are it in neither order.
pub fn order_of(bytes: &[u8]) -> Option<Order>
    ensures found { IfSome result (λ order. take 4 bytes.now ≡ spelling order 4 byte_order_magic) }
    ensures none { IfNone result ((order : AnOrder) → ¬ (take 4 bytes.now ≡ spelling order 4 byte_order_magic)) }
{
    match bytes {
        [0x4d, 0x3c, 0x2b, 0x1a, ..] => Some(Order::Little),
        [0x1a, 0x2b, 0x3c, 0x4d, ..] => Some(Order::Big),
        _ => None,
    }
}

/// The kind of a block by its type.
pub fn kind_of(block_type: u32) -> Kind
    ensures { HasKind block_type result }
{
    match block_type {
        0x0a0d_0d0a => Kind::Section,
        1 => Kind::Interface,
        ENHANCED => Kind::Enhanced,
        3 => Kind::Simple,
        _ => Kind::Other,
    }
}

/// The least length of a block of that kind.
fn least(kind: Kind) -> u32
    ensures { result ≡ least_length kind }
{
    match kind {
        Kind::Section => 28,
        Kind::Interface => 20,
        Kind::Enhanced => 32,
        Kind::Simple => 16,
        Kind::Other => 12,
    }
}

/// Whether a block of that kind may have that length.
pub fn is_block_length(kind: Kind, length: u32) -> bool
    ensures right { result ≡ true → IsBlockLength kind length }
    ensures wrong { result ≡ false → ¬ IsBlockLength kind length }
{
    length % 4 == 0 && length <= LONGEST_BLOCK && least(kind) <= length
}

/// What the bytes show of a block whose numbers are in that order, and which is of that kind.
fn look_by(section: &Section, offset: u64, order: Order, kind: Kind, bytes: &[u8]) -> Seen
    requires { 8 ≤ length bytes.now }
    ensures { SeesSize section.now offset order kind (total_length order bytes.now) bytes.now result }
{
    let found = order.read_u32(&bytes[4..]);
    if !is_block_length(kind, found) {
        return Seen::Fault(AnyFault::BlockLength { offset, found });
    }
    look_whole(section, offset, order, kind, found, bytes)
}

/// What they show where its length is right.
fn look_whole(
    section: &Section,
    offset: u64,
    order: Order,
    kind: Kind,
    found: u32,
    bytes: &[u8],
) -> Seen
    requires { IsBlockLength kind found }
    ensures { SeesSize section.now offset order kind found bytes.now result }
{
    let size = found as usize;
    if bytes.len() < size {
        return Seen::Cut;
    }
    let second = order.read_u32(&bytes[size - 4..]);
    if second != found {
        return Seen::Fault(AnyFault::Trailer {
            offset,
            found: second,
        });
    }
    look_inside(section, offset, order, kind, size, bytes)
}

/// What a whole block of that kind and size shows, by the bytes that it begins with.
pub fn look_inside(
    section: &Section,
    offset: u64,
    order: Order,
    kind: Kind,
    size: usize,
    bytes: &[u8],
) -> Seen
    requires { least_length kind ≤ length bytes.now }
    ensures { SeesKind section.now offset order kind size bytes.now result }
{
    match kind {
        Kind::Section => {
            let major = order.read_u16(&bytes[12..]);
            let minor = order.read_u16(&bytes[14..]);
            see_section(section, offset, order, major, minor, size)
        }
        Kind::Interface => {
            let link = order.read_u16(&bytes[8..]);
            let snapshot = order.read_u32(&bytes[12..]);
            let clock = clock_in(order, options_in(size, bytes));
            see_interface(section, offset, link, snapshot, clock, size)
        }
        Kind::Enhanced => {
            let place = order.read_u32(&bytes[8..]);
            let captured = order.read_u32(&bytes[20..]);
            see_enhanced(section, offset, place, captured, size)
        }
        Kind::Simple => {
            let original = order.read_u32(&bytes[8..]);
            see_simple(section, offset, original, size)
        }
        Kind::Other => see_other(section, offset, Seen::Other { size }),
    }
}

/// What a section of that version shows.
fn see_section(
    section: &Section,
    offset: u64,
    order: Order,
    major: u16,
    minor: u16,
    size: usize,
) -> Seen
    ensures { SeesSection section.now offset order major minor size result }
{
    if major != 1 {
        return Seen::Fault(AnyFault::SectionVersion {
            offset,
            major,
            minor,
        });
    }
    see_other(section, offset, Seen::Section { size, order })
}

/// The options of an interface's block of that size, as far as they are looked at.
fn options_in(size: usize, bytes: &[u8]) -> &[u8]
    requires { 20 ≤ length bytes.now }
    ensures { result.now ≡ drop 16 (take (looked_size size) bytes.now) }
{
    let end = FRONT_LOOKED_AT.min(size.saturating_sub(4)).min(bytes.len());
    let front = &bytes[..end];
    &front[end.min(16)..]
}

/// What an interface shows.
fn see_interface(
    section: &Section,
    offset: u64,
    link: u16,
    snapshot: u32,
    clock: Clock,
    size: usize,
) -> Seen
    ensures { SeesInterface section.now offset link snapshot clock size result }
{
    if section.interfaces() >= MOST_INTERFACES {
        return Seen::Fault(AnyFault::Interfaces { offset });
    }
    let interface = Interface {
        is_asked: link == section.link(),
        snapshot,
        clock,
    };
    see_other(section, offset, Seen::Interface { size, interface })
}

/// What an enhanced packet of the interface with that number shows.
fn see_enhanced(section: &Section, offset: u64, place: u32, captured: u32, size: usize) -> Seen
    ensures { SeesEnhanced section.now offset place captured size result }
{
    if section.interfaces() <= place as usize {
        return Seen::Fault(AnyFault::Interface {
            offset,
            found: place,
        });
    }
    see_packet(
        offset,
        section.interface(place as usize),
        captured,
        28,
        size,
    )
}

/// What a simple packet of that original length shows.
fn see_simple(section: &Section, offset: u64, original: u32, size: usize) -> Seen
    ensures { SeesSimple section.now offset original size result }
{
    if section.interfaces() == 0 {
        return Seen::Fault(AnyFault::Interface { offset, found: 0 });
    }
    let interface = section.interface(0);
    see_packet(
        offset,
        interface,
        simple_captured(interface, original),
        12,
        size,
    )
}

/// What a block without a packet shows, which sets that.
fn see_other(section: &Section, offset: u64, sets: Seen) -> Seen
    ensures { SeesOther section.now offset sets result }
{
    if section.others() >= MOST_OTHERS {
        return Seen::Fault(AnyFault::Blocks { offset });
    }
    sets
}

/// The captured length of a simple packet.
pub fn simple_captured(interface: Interface, original: u32) -> u32
    ensures { result ≡ simple_length interface original }
{
    if interface.snapshot == 0 {
        return original;
    }
    if interface.snapshot < original {
        interface.snapshot
    } else {
        original
    }
}

/// What a packet of that captured length shows, from that place on in a block of that size.
fn see_packet(offset: u64, interface: Interface, captured: u32, at: usize, size: usize) -> Seen
    requires { at ≤ 28 }
    ensures { SeesCaptured offset interface captured at size result }
{
    if is_too_long(captured, at, size) {
        return Seen::Fault(AnyFault::CapturedLength {
            offset,
            found: captured,
        });
    }
    Seen::Packet {
        size,
        at,
        count: given(interface, captured as usize),
    }
}

/// Whether a packet is above the limit, or does not fit its block.
fn is_too_long(captured: u32, at: usize, size: usize) -> bool
    requires { at ≤ 28 }
    ensures long { result ≡ true → IsTooLong captured at size }
    ensures fits { result ≡ false → ¬ IsTooLong captured at size }
{
    captured > MAXIMUM_CAPTURED || size < at + (captured as usize + 3) / 4 * 4 + 4
}

/// How many bytes of a packet of that captured length are given.
fn given(interface: Interface, captured: usize) -> usize
    ensures { result ≡ given_length interface captured }
{
    if interface.is_asked { captured } else { 0 }
}
