//! One step of reading the input: its head, the next packet, or how it ended.

ghost use Rattle.std.specs.Prelude.{◌≡◌, ◌≤◌, ℕ, List, [], false, length, Option, Some, None, Err, IfSome, IfNone, IfOk, IfErr, OnOk};
ghost use Rattle.edge_traits.specs.Edge.{Rose};
ghost use Rattle.pcap_reader.specs.Reading.{Took};
ghost use Rattle.pcapng_reader.specs.Reading.{GivesPacket, IsAtStart};
ghost use Rattle.capture_faults.specs.Endings.{IsEnding};
ghost use Rattle.capture_loop.specs.Endings.{ending_at, ending_in, ending_of, HasFailed, OnEnds, OnLimit, OnStep};
ghost use Rattle.capture_loop.specs.Input.{StopsAt};
ghost use Rattle.capture_loop.specs.Reading.{HaveCome, HaveEnded, MeetsEnd};

use capture_faults::{AnyFault, CaptureFault, Ending};
use edge_traits::Source;
use pcap_reader::{Item, MOST_PACKETS};
use pcapng_reader::{AnyReader, every_input, input_front};
use std::alloc::Global;

/// Why an input could not be opened.
#[derive(Clone, Copy)]
pub enum Unopened {
    Memory,
    /// It ends before its first packet.
    Ends(Ending),
}

/// Reads the head of an input, of which packets of this link type are looked at. If memory runs out, nothing is read.
pub fn open<S: Source>(alloc: Global, link: u16, source: &mut S) -> Result<AnyReader, Unopened>
    ensures start { IfOk result IsAtStart }
    ensures come { IfOk result (λ reader. HaveCome link (S.left source.old) (S.left source.new) reader []) }
    ensures ending { IfErr result (λ fault. OnEnds fault IsEnding) }
    ensures ended { IfErr result (λ fault. OnEnds fault (λ ending. (limit : ℕ) →
        HaveEnded limit link (S.left source.old) (S.left source.new) [] ending)) }
    ensures memory { result ≡ Err Unopened.Memory → source.new ≡ source.old }
    ensures read_fault { result ≡ Err (Unopened.Ends Ending.ReadFault) →
        Rose (S.faults source.old) (S.faults source.new) }
    ensures counted { S.faults source.old ≤ S.faults source.new }
    ensures none_failed { OnOk result (S.failed source.new ≡ S.failed source.old) }
    ensures failed { IfErr result (λ fault. OnEnds fault (λ ending.
        HasFailed (Some ending) (S.failed source.old) (S.failed source.new))) }
{
    match AnyReader::open(alloc, link, source) {
        Ok(reader) => Ok(reader),
        Err(fault) => match ending_at(fault) {
            Some(ending) => Err(Unopened::Ends(ending)),
            None => Err(Unopened::Memory),
        },
    }
}

/// How an input ends of which the head could not be read; `None` for want of memory.
fn ending_at(fault: AnyFault) -> Option<Ending>
    ensures { result ≡ ending_at fault }
{
    match fault {
        AnyFault::Capture(CaptureFault::Memory) => None,
        AnyFault::Capture(CaptureFault::ReadFault) => Some(Ending::ReadFault),
        fault => Some(Ending::Fault(fault)),
    }
}

/// Reads on to the next packet, or answers how the input ended.
pub fn read_on<S: Source>(reader: &mut AnyReader, source: &mut S) -> Option<Ending>
    requires going { reader.old.ended ≡ false }
    requires few { reader.old.given ≤ MOST_PACKETS }
    ensures packet { IfNone result
        (Took (S.left source.old) (S.left source.new) (GivesPacket reader.old reader.new)) }
    ensures ended { IfSome result (MeetsEnd reader.old reader.new (S.left source.old) (S.left source.new)) }
    ensures ending { IfSome result IsEnding }
    ensures read_fault { result ≡ Some Ending.ReadFault → Rose (S.faults source.old) (S.faults source.new) }
    ensures counted { S.faults source.old ≤ S.faults source.new }
    ensures failed { HasFailed result (S.failed source.old) (S.failed source.new) }
{
    match reader.next(source) {
        Ok(Item::Packet) => None,
        Ok(Item::End) => Some(Ending::Done { rest: 0 }),
        Ok(Item::Rest(rest)) => Some(Ending::Done { rest }),
        Err(fault) => Some(ending_of(fault)),
    }
}

/// What a step of reading came to.
#[derive(Clone, Copy)]
pub enum Step {
    /// The reader has the next packet.
    Packet,
    /// It holds no further whole packet, and nothing was read.
    Dry,
    Ended(Ending),
}

/// Goes on to the next packet. Unless the source may be waited for, only what the reader holds is looked at.
pub fn read_step<S: Source>(reader: &mut AnyReader, source: &mut S, may_wait: bool) -> Step
    requires going { reader.old.ended ≡ false }
    requires few { reader.old.given ≤ MOST_PACKETS }
    ensures packet { result ≡ Step.Packet →
        Took (S.left source.old) (S.left source.new) (GivesPacket reader.old reader.new) }
    ensures dry { result ≡ Step.Dry → (may_wait ≡ false) × (reader.new ≡ reader.old) }
    ensures none_read { may_wait ≡ false → source.new ≡ source.old }
    ensures ended { OnStep result (MeetsEnd reader.old reader.new (S.left source.old) (S.left source.new)) }
    ensures ending { OnStep result IsEnding }
    ensures read_fault { result ≡ Step.Ended Ending.ReadFault → Rose (S.faults source.old) (S.faults source.new) }
    ensures counted { S.faults source.old ≤ S.faults source.new }
    ensures failed { HasFailed (ending_in result) (S.failed source.old) (S.failed source.new) }
{
    if may_wait {
        return match read_on(reader, source) {
            None => Step::Packet,
            Some(ending) => Step::Ended(ending),
        };
    }
    if reader.next_held() {
        return Step::Packet;
    }
    Step::Dry
}

/// How an input ends whose next packet could not be read.
fn ending_of(fault: AnyFault) -> Ending
    ensures { result ≡ ending_of fault }
{
    match fault {
        AnyFault::Capture(CaptureFault::ReadFault) => Ending::ReadFault,
        fault => Ending::Fault(fault),
    }
}

/// Reads on behind the last of so many packets that are taken, which is how the input ends.
pub fn read_past<S: Source>(reader: &mut AnyReader, source: &mut S, limit: u64) -> Ending
    requires going { reader.old.ended ≡ false }
    requires few { reader.old.given ≤ MOST_PACKETS }
    ensures ended { (link : ℕ) (first : Option (List ℕ)) (packets : List (List ℕ)) →
        HaveCome link first (S.left source.old) reader.old packets → length packets ≡ limit →
        HaveEnded limit link first (S.left source.new) packets result }
    ensures beyond { (link : ℕ) (first : Option (List ℕ)) (packets : List (List ℕ)) →
        HaveCome link first (S.left source.old) reader.old packets → length packets ≡ limit →
        OnLimit result (StopsAt link limit first (S.left source.new) reader.new.start) }
    ensures ending { IsEnding result }
    ensures read_fault { result ≡ Ending.ReadFault → Rose (S.faults source.old) (S.faults source.new) }
    ensures counted { S.faults source.old ≤ S.faults source.new }
    ensures failed { HasFailed (Some result) (S.failed source.old) (S.failed source.new) }
{
    every_input();
    input_front();
    match read_on(reader, source) {
        Some(ending) => ending,
        None => Ending::Limit { limit },
    }
}
