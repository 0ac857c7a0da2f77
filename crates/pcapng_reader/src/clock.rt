//! The clock of an interface, by the options of its block.
//!
//! Source: draft-ietf-opsawg-pcapng, 3.5 (options) and 4.2 (if_tsresol, if_tsoffset).

ghost use Rattle.std.specs.Prelude.{◌≡◌, ◌≤◌, ◌+◌, true, false, length, drop};
ghost use Rattle.pcapng_reader.specs.Clocks.{are_ended, clock_by, clock_with, nanoseconds_in, option_length, time_by, usual_clock};

use pcap_reader::Order;

/// How an interface counts the times of its packets.
#[derive(Clone, Copy, PartialEq, Eq)]
pub struct Clock {
    /// `if_tsresol`: a second has 10 to the power of it units, or, from 128 on, 2 to the power of what it is above 128.
    pub resolution: u8,
    /// `if_tsoffset`: so many seconds are added, in the bits of a signed number.
    pub offset: u64,
}

/// So many first bytes of an interface's block are looked at.
pub const FRONT_LOOKED_AT: usize = 4_096;
/// So many options have room there, and more.
pub const MOST_OPTIONS: u32 = 1_024;
/// The last time that is told, in nanoseconds.
const LAST_TIME: u128 = 0x7fff_ffff_ffff_ffff;
/// A second, in nanoseconds.
const SECOND: u128 = 1_000_000_000;
/// An offset from here on is one back.
const AHEAD: u64 = 0x8000_0000_0000_0000;
/// In units that are finer than 10 to the power of this there is no whole nanosecond.
const FINEST: u8 = 28;

impl Clock {
    /// Microseconds since 1970, where the options tell nothing else.
    pub fn usual() -> Clock
        ensures { result ≡ usual_clock }
    {
        Clock {
            resolution: 6,
            offset: 0,
        }
    }

    /// The time of so many ticks, in nanoseconds since 1970, cut to those from there on that are below 2^63.
    pub fn time(self, ticks: u64) -> u64
        ensures { result ≡ time_by self ticks }
    {
        let since = nanoseconds(self.resolution, ticks);
        let time = if self.offset < AHEAD {
            since + u128::from(self.offset) * SECOND
        } else {
            since.saturating_sub((2 * u128::from(AHEAD) - u128::from(self.offset)) * SECOND)
        };
        time.min(LAST_TIME) as u64
    }
}

/// So many ticks in nanoseconds, rounded down.
fn nanoseconds(resolution: u8, ticks: u64) -> u128
    ensures { result ≡ nanoseconds_in resolution ticks }
{
    let units = u128::from(ticks) * SECOND;
    if resolution >= 128 {
        return units >> (resolution - 128);
    }
    if resolution > FINEST {
        return 0;
    }
    units / 10u128.pow(u32::from(resolution))
}

/// What the options tell of the clock. Those that were told last count.
pub fn clock_in(order: Order, options: &[u8]) -> Clock
    ensures { result ≡ clock_by MOST_OPTIONS order options.now usual_clock }
{
    let mut rest = options;
    let mut clock = Clock::usual();
    for turn in 0..MOST_OPTIONS {
        if ends_options(order, rest) {
            return clock;
        }
        clock = with_option(order, rest, clock);
        rest = behind_option(order, rest);
    }
    clock
}

/// Whether no whole option stands there, or the one that ends them.
fn ends_options(order: Order, bytes: &[u8]) -> bool
    ensures { result ≡ are_ended order bytes.now }
{
    if bytes.len() < 4 {
        return true;
    }
    let size = usize::from(order.read_u16(&bytes[2..]));
    bytes.len() < 4 + size || order.read_u16(bytes) == 0
}

/// A clock with what the option tells that the bytes begin with.
fn with_option(order: Order, bytes: &[u8], clock: Clock) -> Clock
    requires { are_ended order bytes.now ≡ false }
    ensures { result ≡ clock_with order bytes.now clock }
{
    let code = order.read_u16(bytes);
    let size = order.read_u16(&bytes[2..]);
    if code == 9 && size == 1 {
        return Clock {
            resolution: bytes[4],
            offset: clock.offset,
        };
    }
    if code == 14 && size == 8 {
        return Clock {
            resolution: clock.resolution,
            offset: order.read_u64(&bytes[4..]),
        };
    }
    clock
}

/// The bytes behind the option that they begin with, and behind its padding.
fn behind_option(order: Order, bytes: &[u8]) -> &[u8]
    requires { are_ended order bytes.now ≡ false }
    ensures { result.now ≡ drop (option_length order bytes.now) bytes.now }
{
    let size = usize::from(order.read_u16(&bytes[2..]));
    let place = (4 + (size + 3) / 4 * 4).min(bytes.len());
    &bytes[place..]
}
