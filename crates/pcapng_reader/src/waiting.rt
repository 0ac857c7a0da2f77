//! Waits for the block that comes next, in whatever pieces its bytes come.

ghost use Rattle.std.specs.Prelude.{◌≡◌, ◌≤◌, ◌<◌, ◌+◌, ◌-◌, ◌*◌, ◌^◌, false, true, length, IfOk, IfNone, IfSome, OnErr, OnOk};
ghost use Rattle.edge_traits.specs.Edge.{Rose, count_after};
ghost use Rattle.byte_window.specs.Window.{buffer_length};
ghost use Rattle.pcap_reader.specs.Reading.{Took};
ghost use Rattle.pcapng_reader.specs.Blocks.{Sees, after};
ghost use Rattle.pcapng_reader.specs.Reading.{HoldsPacket, OfBlocks};
ghost use Rattle.pcapng_reader.specs.Waiting.{AwaitsNone, AwaitsTo, HasRoom, IsLastSeen, IsPassed, PassesNone, PassesTo};

use crate::Section;
use crate::block::{Seen, look};
use crate::long::{Awaited, await_long, long_block};
use byte_window::Window;
use edge_traits::{Failed, Source};

/// Reads on to the next packet, or to a fault or a cut block, and passes the blocks before it.
pub fn await_packet<S: Source>(
    window: &mut Window,
    section: &mut Section,
    offset: u64,
    source: &mut S,
) -> Result<Awaited, Failed>
    requires few { section.old.others ≤ 4000000 }
    requires place { offset + (4000000 - section.old.others) * 16777216 < 2 ^ 64 }
    ensures passes { IfOk result (λ awaited. Took (S.left source.old) (S.left source.new)
        (PassesTo section.old offset window.old.unread section.new window.new.unread awaited.offset awaited.seen
        awaited.dropped (S.left source.old))) }
    ensures last { IfOk result (λ awaited. IsLastSeen awaited.seen) }
    ensures others { (section.old.others ≤ section.new.others) × (section.new.others ≤ 4000000) }
    ensures near { IfOk result (λ awaited.
        awaited.offset ≤ offset + (section.new.others - section.old.others) * 16777216) }
    ensures none { OnErr result (Took (S.left source.old) (S.left source.new)
        (PassesNone section.old offset window.old.unread section.new window.new.unread)) }
    ensures room { length window.new.unread ≤ buffer_length }
    ensures failed { OnErr result (Rose (S.faults source.old) (S.faults source.new)) }
    ensures counted { S.faults source.old ≤ S.faults source.new }
    ensures one_failed { OnErr result (S.failed source.new ≡ count_after (S.failed source.old) 1) }
    ensures none_failed { OnOk result (S.failed source.new ≡ S.failed source.old) }
    ensures unasked { HoldsPacket (OfBlocks section.old) offset window.old.unread → source.new ≡ source.old }
{
    let mut offset = offset;
    'passed: loop {
        let awaited = await_block(window, section, offset, source)?;
        let Some(size) = set_by(section, awaited.seen) else {
            return Ok(awaited);
        };
        window.skip(size - awaited.dropped);
        offset += size as u64;
    }
}

/// Sets what a block without a packet sets, and answers its size.
fn set_by(section: &mut Section, seen: Seen) -> Option<usize>
    requires { HasRoom section.old seen }
    ensures passed { IfSome result (IsPassed seen) }
    ensures last { IfNone result (IsLastSeen seen) }
    ensures set { section.new ≡ after section.old seen }
{
    match seen {
        Seen::Section { size, order } => {
            section.begin(order);
            Some(size)
        }
        Seen::Interface { size, interface } => {
            section.add(interface);
            Some(size)
        }
        Seen::Other { size } => {
            section.count();
            Some(size)
        }
        Seen::Packet { .. } | Seen::Cut | Seen::Fault(_) => None,
    }
}

/// Reads until the held bytes show a whole block or a fault, or the source is at its end.
fn await_block<S: Source>(
    window: &mut Window,
    section: &Section,
    offset: u64,
    source: &mut S,
) -> Result<Awaited, Failed>
    ensures awaits { IfOk result (λ awaited. Took (S.left source.old) (S.left source.new)
        (AwaitsTo section.now offset window.old.unread window.new.unread awaited.seen awaited.dropped
        (S.left source.old))) }
    ensures place { IfOk result (λ awaited. awaited.offset ≡ offset) }
    ensures none { OnErr result (Took (S.left source.old) (S.left source.new)
        (AwaitsNone section.now offset window.old.unread window.new.unread)) }
    ensures room { length window.new.unread ≤ buffer_length }
    ensures failed { OnErr result (Rose (S.faults source.old) (S.faults source.new)) }
    ensures counted { S.faults source.old ≤ S.faults source.new }
    ensures one_failed { OnErr result (S.failed source.new ≡ count_after (S.failed source.old) 1) }
    ensures none_failed { OnOk result (S.failed source.new ≡ S.failed source.old) }
    ensures unasked { ¬ (Sees section.now offset window.old.unread Seen.Cut) → source.new ≡ source.old }
{
    'held: loop {
        let seen = look(section, offset, window.unread());
        if !is_cut(seen) {
            return Ok(Awaited {
                seen,
                dropped: 0,
                offset,
            });
        }
        match long_block(section, window.unread()) {
            Some(long) => {
                let awaited = await_long(window, section, offset, long, source)?;
                return Ok(awaited);
            }
            None => {
                if window.fill(source)? == 0 {
                    return Ok(Awaited {
                        seen: Seen::Cut,
                        dropped: 0,
                        offset,
                    });
                }
            }
        }
    }
}

/// Whether a block is cut.
fn is_cut(seen: Seen) -> bool
    ensures cut { result ≡ true → seen ≡ Seen.Cut }
    ensures other { result ≡ false → seen ≡ Seen.Cut → ⊥ }
{
    match seen {
        Seen::Cut => true,
        _ => false,
    }
}
