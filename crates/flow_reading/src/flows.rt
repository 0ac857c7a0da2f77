//! Keys, as they stand in a text.

ghost use Rattle.std.specs.Prelude.{◌≡◌, ◌<◌, ◌^◌, IfSome};
ghost use Rattle.line_fields.specs.Reading.{Gives};
ghost use Rattle.flow_reading.specs.Flows.{flow_at, in_order, protocol_at};

use crate::ends::{End, end_of};
use line_fields::text;
use plain_map::Key;

/// The key whose text stands at the front, its lower endpoint first, and the bytes behind it.
#[inline]
#[tactic(auto, unfolding(crate::specs::Flows::flow_at))]
pub fn flow(bytes: &[u8]) -> Option<(Key, &[u8])>
    ensures { Gives (λ x. (x.0, x.1.now)) result (flow_at bytes.now) }
{
    let (low, rest) = end_of(bytes)?;
    let rest = text(rest, b"-")?;
    let (high, rest) = end_of(rest)?;
    let (protocol, rest) = protocol(rest)?;
    if are_in_order(&low, &high) {
        let key = Key {
            k0: low.host.upper,
            k1: low.host.lower,
            k2: high.host.upper,
            k3: high.host.lower,
            k4: low.host.bit + low.port * 16_777_216 + high.port * 256 + protocol,
        };
        Some((key, rest))
    } else {
        None
    }
}

// Whether two ends are of one version, the lower one first.
#[inline]
fn are_in_order(low: &End, high: &End) -> bool
    ensures { result ≡ in_order low.now high.now }
{
    low.host.bit == high.host.bit
        && (low.host.upper < high.host.upper
            || (low.host.upper == high.host.upper
                && (low.host.lower < high.host.lower
                    || (low.host.lower == high.host.lower && low.port <= high.port))))
}

// The name of a protocol.
#[inline]
#[tactic(auto, unfolding(crate::specs::Flows::protocol_at))]
fn protocol(bytes: &[u8]) -> Option<(u64, &[u8])>
    ensures value { Gives (λ x. (x.0, x.1.now)) result (protocol_at bytes.now) }
    ensures small { IfSome result (λ x. x.0 < 2 ^ 8) }
{
    match text(bytes, b"/tcp") {
        Some(rest) => Some((6, rest)),
        None => {
            let rest = text(bytes, b"/udp")?;
            Some((17, rest))
        }
    }
}
