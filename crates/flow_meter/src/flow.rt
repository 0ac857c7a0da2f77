//! The record of a flow: what a packet adds to it, and until when packets belong to it.

ghost use Rattle.std.specs.Prelude.{◌≡◌, ◌+◌, ◌<◌, ◌^◌, Some, None};
ghost use Rattle.flow_times.specs.Flows.{nothing as no_packets, begun, deadline, grown, has_flag, is_closed, is_told, opens, quiet, sent};
ghost use Rattle.flow_times.specs.Metered.{is_past, is_sooner, made_way, takes};
ghost use Rattle.flow_meter.specs.Models.{ended_of, flow_of, moment_of, side_of, times_of, use_of};
ghost use Rattle.flow_meter.specs.Passes.{is_due};
ghost use Rattle.flow_meter.specs.Records.{CanGrow, CanSend, HasSizes, MeetsFlow};

use crate::clock::Moment;
use crate::packet::{Packet, Timeouts};
use plain_map::Key;

/// FIN, of the flags of TCP.
const FIN: u8 = 1;
/// SYN.
const SYN: u8 = 2;
/// RST.
const RST: u8 = 4;
/// ACK.
const ACK: u8 = 16;

/// What an end of a flow has sent.
#[derive(Clone, Copy, PartialEq, Eq)]
pub struct SideRecord {
    pub packets: u64,
    pub payload: u128,
    pub octets: u128,
    /// All flags of TCP that it sent.
    pub flags: u8,
}

/// A flow: its key, its first packet, its times in nanoseconds, and what both ends have sent.
#[derive(Clone, Copy, PartialEq, Eq)]
pub struct FlowRecord {
    pub key: Key,
    /// The number of its first packet.
    pub number: u64,
    /// The higher endpoint sent the first packet.
    pub is_high: bool,
    pub stretch: u64,
    /// Where the clock stood at its first packet.
    pub began: u64,
    /// Where the clock stood at its last packet.
    pub seen: u64,
    /// The least of its packets' own times.
    pub first: u64,
    /// The greatest of its packets' own times.
    pub last: u64,
    pub is_tcp: bool,
    pub low: SideRecord,
    pub high: SideRecord,
}

/// The packet that a flow ended by.
#[derive(Clone, Copy, PartialEq, Eq)]
pub struct EndCause {
    pub number: u64,
    /// Where the clock stood at it.
    pub clock: u64,
    /// The packet began a flow of a class that was full. Else it is one of the flow's own key.
    pub is_room: bool,
}

/// A flow that has ended: by a packet, or with its deadline or its stretch.
#[derive(Clone, Copy, PartialEq, Eq)]
pub struct EndedFlow {
    pub flow: FlowRecord,
    pub by: Option<EndCause>,
}

/// What a packet made of the flow at a place.
#[derive(Clone, Copy, PartialEq, Eq)]
pub enum Met {
    /// The packet belongs to the flow.
    Grown,
    /// The flow has ended, and the packet began another one at its place.
    Renewed(EndedFlow),
    /// No flow of the packet's key is there.
    Lost,
}

// The flags have this one.
fn has(flags: u8, flag: u8) -> bool
    ensures { result ≡ has_flag flags flag }
{
    flags & flag != 0
}

// The packet is a SYN without ACK.
fn begins_anew(packet: &Packet) -> bool
    ensures { result ≡ opens (use_of packet.now) }
{
    packet.is_tcp && has(packet.flags, SYN) && !has(packet.flags, ACK)
}

impl SideRecord {
    // Nothing yet.
    fn nothing() -> SideRecord
        ensures { side_of result ≡ no_packets }
    {
        SideRecord {
            packets: 0,
            payload: 0,
            octets: 0,
            flags: 0,
        }
    }

    // What the first packet brings.
    fn first(packet: &Packet) -> SideRecord
        ensures { side_of result ≡ sent no_packets (use_of packet.now) }
    {
        SideRecord {
            packets: 1,
            payload: u128::from(packet.payload),
            octets: u128::from(packet.octets),
            flags: packet.flags,
        }
    }

    // What a packet brings is added. A sum that has reached its most stays there.
    fn add(&mut self, packet: &Packet)
        ensures { CanSend self.old packet.now → side_of self.new ≡ sent (side_of self.old) (use_of packet.now) }
    {
        self.packets = self.packets.saturating_add(1);
        self.payload = self.payload.saturating_add(u128::from(packet.payload));
        self.octets = self.octets.saturating_add(u128::from(packet.octets));
        self.flags |= packet.flags;
    }
}

impl FlowRecord {
    /// The flow that a packet begins.
    pub fn begun(packet: &Packet) -> FlowRecord
        ensures begun { flow_of result ≡ begun (use_of packet.now) }
        ensures sizes { HasSizes packet.now }
    {
        packet.has_sizes();
        let sent = SideRecord::first(packet);
        let none = SideRecord::nothing();
        FlowRecord {
            key: packet.key,
            number: packet.number,
            is_high: packet.is_high,
            stretch: packet.moment.stretch,
            began: packet.moment.clock,
            seen: packet.moment.clock,
            first: packet.time,
            last: packet.time,
            is_tcp: packet.is_tcp,
            low: if packet.is_high { none } else { sent },
            high: if packet.is_high { sent } else { none },
        }
    }

    /// A packet of the flow is added to it. A sum that has reached its most stays there.
    pub fn grow(&mut self, packet: &Packet)
        ensures key { self.new.key ≡ self.old.key }
        ensures grown { CanGrow self.old packet.now → flow_of self.new ≡ grown (flow_of self.old) (use_of packet.now) }
        ensures sizes { HasSizes packet.now }
    {
        packet.has_sizes();
        self.seen = packet.moment.clock;
        self.first = self.first.min(packet.time);
        self.last = self.last.max(packet.time);
        if packet.is_high {
            self.high.add(packet);
        } else {
            self.low.add(packet);
        }
    }

    // TCP has told the flow's end.
    fn is_told(&self, one_way: bool) -> bool
        ensures { (times : Timeouts) → times.one_way ≡ one_way → result ≡ is_told (times_of times) (flow_of self.now) }
    {
        self.is_tcp
            && (has(self.low.flags | self.high.flags, RST)
                || (has(self.low.flags, FIN) && (one_way || has(self.high.flags, FIN))))
    }

    // So long it may be quiet.
    fn quiet(&self, times: &Timeouts) -> u64
        ensures { result ≡ quiet (times_of times.now) (flow_of self.now) }
    {
        match times.close {
            Some(close) if self.is_told(times.one_way) => close,
            _ => times.idle,
        }
    }

    // TCP has told its end, and that counts.
    fn is_closed(&self, times: &Timeouts) -> bool
        ensures { result ≡ is_closed (times_of times.now) (flow_of self.now) }
    {
        times.close.is_some() && self.is_told(times.one_way)
    }

    /// The last clock at which a packet still belongs to the flow.
    pub fn deadline(&self, times: &Timeouts) -> u128
        ensures { result ≡ deadline (times_of times.now) (flow_of self.now) }
    {
        let active = u128::from(self.began) + u128::from(times.active);
        let quiet = u128::from(self.seen) + u128::from(self.quiet(times));
        active.min(quiet)
    }

    /// A packet of its key belongs to the flow.
    pub fn takes(&self, times: &Timeouts, packet: &Packet) -> bool
        ensures { result ≡ takes (times_of times.now) (flow_of self.now) (use_of packet.now) }
    {
        packet.moment.stretch == self.stretch
            && u128::from(packet.moment.clock) <= self.deadline(times)
            && !(self.is_closed(times) && begins_anew(packet))
    }

    /// At this moment its deadline has passed, or its stretch.
    pub fn is_past(&self, times: &Timeouts, now: &Moment) -> bool
        ensures { result ≡ is_past (times_of times.now) (moment_of now.now) (flow_of self.now) }
    {
        self.stretch < now.stretch
            || (self.stretch == now.stretch && self.deadline(times) < u128::from(now.clock))
    }

    // The flow is past at this moment, or there is none.
    pub(crate) fn is_due(&self, times: &Timeouts, now: Option<Moment>) -> bool
        ensures { result ≡ is_due times.now now (flow_of self.now) }
    {
        match now {
            Some(now) => self.is_past(times, &now),
            None => true,
        }
    }

    /// The flow has the earlier deadline, or of one deadline the earlier first packet.
    pub fn is_sooner(&self, times: &Timeouts, other: &FlowRecord) -> bool
        ensures { result ≡ is_sooner (times_of times.now) (flow_of self.now) (flow_of other.now) }
    {
        if self.stretch != other.stretch {
            return self.stretch < other.stretch;
        }
        let own = self.deadline(times);
        let others = other.deadline(times);
        own < others || (own == others && self.number < other.number)
    }

    /// Takes a packet of its key if that belongs to it. If not, the flow has ended, and the packet begins another one
    /// in its place.
    pub fn meet(&mut self, times: &Timeouts, packet: &Packet) -> Met
        ensures met { MeetsFlow times.now self.old self.new packet.now result }
        ensures sizes { HasSizes packet.now }
    {
        if self.takes(times, packet) {
            self.grow(packet);
            return Met::Grown;
        }
        let ended = self.make_way(times, false, packet);
        *self = FlowRecord::begun(packet);
        Met::Renewed(ended)
    }

    /// The flow makes way for a packet. It ends by that one, if it had not ended before.
    pub fn make_way(&self, times: &Timeouts, is_room: bool, packet: &Packet) -> EndedFlow
        ensures { ended_of result ≡ made_way (times_of times.now) is_room (flow_of self.now) (use_of packet.now) }
    {
        let by = if self.is_past(times, &packet.moment) {
            None
        } else {
            Some(EndCause {
                number: packet.number,
                clock: packet.moment.clock,
                is_room,
            })
        };
        EndedFlow { flow: *self, by }
    }
}
