//! A packet as its flow sees it, and the time-outs.

ghost use Rattle.flow_meter.specs.Records.{HasSizes};

use crate::clock::Moment;
use plain_map::Key;

/// By which times flows end, in nanoseconds.
#[derive(Clone, Copy, PartialEq, Eq)]
pub struct Timeouts {
    /// A flow may be quiet so long.
    pub idle: u64,
    /// A flow may last so long.
    pub active: u64,
    /// A flow that TCP has closed may be quiet so long. `None` if the flags of TCP end nothing.
    pub close: Option<u64>,
    /// Each direction is a flow of its own.
    pub one_way: bool,
}

/// What a packet is to its flow.
#[derive(Clone, Copy, PartialEq, Eq)]
pub struct Packet {
    pub key: Key,
    /// From 1, in the order of the capture.
    pub number: u64,
    /// Where the clock stands behind this packet.
    pub moment: Moment,
    /// The packet's own time, in nanoseconds.
    pub time: u64,
    pub is_tcp: bool,
    /// The higher one of both endpoints sent it.
    pub is_high: bool,
    /// Bytes behind the heads.
    pub payload: u32,
    /// Bytes that count for the flow.
    pub octets: u32,
    /// The flags of TCP, or 0.
    pub flags: u8,
}

impl Packet {
    /// A packet's number and its bytes are numbers of their widths.
    pub fn has_sizes(&self)
        ensures { HasSizes self.now }
    {
        let _number = self.number;
        let _payload = self.payload;
        let _octets = self.octets;
    }
}
