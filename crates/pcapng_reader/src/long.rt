//! A block that is too long to be held whole: its first bytes are kept, and those behind them dropped as they come.

ghost use Rattle.std.specs.Prelude.{◌≡◌, ◌≤◌, ◌<◌, ◌+◌, ℕ, length, drop, IfOk, IfNone, IfSome, OnErr, OnOk};
ghost use Rattle.edge_traits.specs.Edge.{Rose, count_after};
ghost use Rattle.byte_window.specs.Window.{buffer_length};
ghost use Rattle.pcap_reader.specs.Reading.{Took};
ghost use Rattle.pcapng_reader.specs.Blocks.{HasKind, IsReadIn, Sees, block_type, least_length};
ghost use Rattle.pcapng_reader.specs.Waiting.{AwaitsNone, AwaitsTo, CoversPacket, IsLong, SeesLong};

use crate::Section;
use crate::block::{
    BLOCK_FRONT, Kind, Seen, begins_section, is_block_length, kind_of, look_inside, order_of,
    simple_captured,
};
use crate::clock::FRONT_LOOKED_AT;
use crate::dropping::drop_behind;
use byte_window::{MOST_HELD, Window};
use capture_faults::AnyFault;
use edge_traits::{Failed, Source};
use pcap_reader::{MAXIMUM_CAPTURED, Order};

/// What a block shows that comes next, how many of its bytes were dropped, and where it starts.
#[derive(Clone, Copy)]
pub struct Awaited {
    pub seen: Seen,
    pub dropped: usize,
    pub offset: u64,
}

/// A block that is too long to be held whole, of which so many first bytes are kept.
#[derive(Clone, Copy)]
pub struct Long {
    pub order: Order,
    pub kind: Kind,
    pub size: usize,
    pub kept: usize,
}

/// The block that the bytes begin, where it is too long to be held whole.
///
/// Where there is none, a cut block has room.
pub fn long_block(section: &Section, bytes: &[u8]) -> Option<Long>
    ensures long { IfSome result (IsLong section.now bytes.now) }
    ensures none { IfNone result ((offset : ℕ) → Sees section.now offset bytes.now Seen.Cut →
        length bytes.now ≤ MOST_HELD) }
{
    if bytes.len() < BLOCK_FRONT {
        return None;
    }
    if begins_section(bytes) {
        match order_of(&bytes[8..]) {
            Some(order) => long_by(section, order, bytes),
            None => None,
        }
    } else {
        long_by(section, section.order(), bytes)
    }
}

/// The same, where its numbers are in that order.
fn long_by(section: &Section, order: Order, bytes: &[u8]) -> Option<Long>
    requires front { BLOCK_FRONT ≤ length bytes.now }
    requires read { IsReadIn section.now order bytes.now }
    ensures long { IfSome result (IsLong section.now bytes.now) }
    ensures none { IfNone result ((offset : ℕ) → Sees section.now offset bytes.now Seen.Cut →
        length bytes.now ≤ MOST_HELD) }
{
    let kind = kind_of(order.read_u32(bytes));
    let length = order.read_u32(&bytes[4..]);
    if !is_block_length(kind, length) {
        return None;
    }
    if length as usize <= MOST_HELD {
        return None;
    }
    Some(Long {
        order,
        kind,
        size: length as usize,
        kept: kept_of(section, order, kind, bytes),
    })
}

/// How many first bytes of a block are kept, its packet among them, and what is looked at of options.
fn kept_of(section: &Section, order: Order, kind: Kind, bytes: &[u8]) -> usize
    requires { BLOCK_FRONT ≤ length bytes.now }
    ensures few { result ≤ 262172 }
    ensures least { BLOCK_FRONT ≤ result }
    ensures covers { CoversPacket section.now order kind bytes.now result }
{
    match kind {
        Kind::Enhanced => BLOCK_FRONT + order.read_u32(&bytes[20..]).min(MAXIMUM_CAPTURED) as usize,
        Kind::Simple => {
            if section.interfaces() == 0 {
                return BLOCK_FRONT;
            }
            let captured = simple_captured(section.interface(0), order.read_u32(&bytes[8..]));
            (12 + captured.min(MAXIMUM_CAPTURED) as usize).max(BLOCK_FRONT)
        }
        Kind::Interface => FRONT_LOOKED_AT,
        Kind::Section | Kind::Other => BLOCK_FRONT,
    }
}

/// Reads a block that is too long to be held whole: its first bytes are kept, those behind them dropped, up to its
/// second length.
pub fn await_long<S: Source>(
    window: &mut Window,
    section: &Section,
    offset: u64,
    long: Long,
    source: &mut S,
) -> Result<Awaited, Failed>
    requires { IsLong section.now window.old.unread long }
    ensures awaits { IfOk result (λ awaited. Took (S.left source.old) (S.left source.new)
        (AwaitsTo section.now offset window.old.unread window.new.unread awaited.seen awaited.dropped
        (S.left source.old))) }
    ensures place { IfOk result (λ awaited. awaited.offset ≡ offset) }
    ensures none { OnErr result (Took (S.left source.old) (S.left source.new)
        (AwaitsNone section.now offset window.old.unread window.new.unread)) }
    ensures room { length window.new.unread ≤ buffer_length }
    ensures failed { OnErr result (Rose (S.faults source.old) (S.faults source.new)) }
    ensures counted { S.faults source.old ≤ S.faults source.new }
    ensures one_failed { OnErr result (S.failed source.new ≡ count_after (S.failed source.old) 1) }
    ensures none_failed { OnOk result (S.failed source.new ≡ S.failed source.old) }
{
    if !window.hold(long.kept, source)? {
        return Ok(cut(offset, 0));
    }
    let gap = long.size - 4 - long.kept;
    let dropped = drop_behind(window, long.kept, gap, source)?;
    if dropped < gap {
        return Ok(cut(offset, dropped));
    }
    if !window.hold(long.kept + 4, source)? {
        return Ok(cut(offset, dropped));
    }
    Ok(Awaited {
        seen: look_at_long(section, offset, long, window.unread()),
        dropped,
        offset,
    })
}

/// A block that is cut, of which so many bytes were dropped.
fn cut(offset: u64, dropped: usize) -> Awaited
    ensures { result ≡ record { seen = Seen.Cut; dropped = dropped; offset = offset } }
{
    Awaited {
        seen: Seen::Cut,
        dropped,
        offset,
    }
}

/// What a long block shows, of which these bytes are left: the first that are kept, and its second length behind them.
fn look_at_long(section: &Section, offset: u64, long: Long, bytes: &[u8]) -> Seen
    requires whole { long.kept + 4 ≤ length bytes.now }
    requires least { 28 ≤ long.kept }
    ensures { SeesLong section.now offset long bytes.now result }
{
    let second = long.order.read_u32(&bytes[long.kept..]);
    if second as usize != long.size {
        return Seen::Fault(AnyFault::Trailer {
            offset,
            found: second,
        });
    }
    look_inside(section, offset, long.order, long.kind, long.size, bytes)
}
