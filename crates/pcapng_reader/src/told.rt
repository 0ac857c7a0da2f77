//! What a packet's block tells beside its bytes, as it stands there.
//!
//! Source: draft-ietf-opsawg-pcapng, 4.3 and 4.4.

ghost use Rattle.std.specs.Prelude.{◌≡◌, ◌≤◌, ◌⊎◌, length};
ghost use Rattle.pcapng_reader.specs.Stamps.{stamp_told, told_by};

use crate::Section;
use crate::clock::Clock;
use pcap_reader::Stamp;

/// What a packet's block tells beside its bytes.
#[derive(Clone, Copy)]
pub struct Told {
    /// Its time in units of the clock; a simple packet has none.
    pub ticks: Option<u64>,
    pub clock: Clock,
    /// Its original length, in bytes.
    pub wire: u32,
}

impl Told {
    /// When the packet was captured, and how long it was.
    pub fn stamp(self) -> Stamp
        ensures { result ≡ stamp_told self }
    {
        Stamp {
            time: match self.ticks {
                Some(ticks) => Some(self.clock.time(ticks)),
                None => None,
            },
            wire: self.wire,
        }
    }
}

/// What the block tells whose packet starts at that place: an enhanced one at 28, and a simple one at 12.
pub fn told_in(section: &Section, at: usize, bytes: &[u8]) -> Told
    requires place { (at ≡ 28) ⊎ (at ≡ 12) }
    requires long { at ≤ length bytes.now }
    ensures { result ≡ told_by section.now at bytes.now }
{
    let order = section.order();
    if at == 28 {
        let upper = u64::from(order.read_u32(&bytes[12..]));
        let lower = u64::from(order.read_u32(&bytes[16..]));
        return Told {
            ticks: Some(upper * 0x1_0000_0000 + lower),
            clock: section.clock(order.read_u32(&bytes[8..]) as usize),
            wire: order.read_u32(&bytes[24..]),
        };
    }
    Told {
        ticks: None,
        clock: Clock::usual(),
        wire: order.read_u32(&bytes[8..]),
    }
}
