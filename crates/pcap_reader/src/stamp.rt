//! When a packet was captured, and how long it was.
//!
//! Source: pcap-savefile(5), per-file header and per-packet header.

ghost use Rattle.std.specs.Prelude.{◌≡◌, ◌≤◌, length};
ghost use Rattle.pcap_reader.specs.Stamps.{nanoseconds_of, stamp_of};

use crate::Order;

/// When a packet was captured, and how long it was.
#[derive(Clone, Copy, PartialEq, Eq)]
pub struct Stamp {
    /// In nanoseconds since 1970, if its capture tells a time.
    pub time: Option<u64>,
    /// Its length before it was cut, in bytes.
    pub wire: u32,
}

/// What the fraction of a second is counted in, which the file's magic number tells.
#[derive(Clone, Copy, PartialEq, Eq)]
pub enum Fraction {
    Microseconds,
    Nanoseconds,
}

impl Fraction {
    /// How many nanoseconds one of it is.
    fn nanoseconds(self) -> u32
        ensures { result ≡ nanoseconds_of self }
    {
        match self {
            Fraction::Microseconds => 1_000,
            Fraction::Nanoseconds => 1,
        }
    }
}

/// What the head of a record tells of its packet. A fraction of a second or more is taken as it is.
pub fn stamp_in(order: Order, fraction: Fraction, head: &[u8]) -> Stamp
    requires { 16 ≤ length head.now }
    ensures { result ≡ stamp_of order fraction head.now }
{
    let seconds = u64::from(order.read_u32(head));
    let part = u64::from(order.read_u32(&head[4..]));
    Stamp {
        time: Some(seconds * 1_000_000_000 + part * u64::from(fraction.nanoseconds())),
        wire: order.read_u32(&head[12..]),
    }
}
