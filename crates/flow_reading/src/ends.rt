//! Endpoints, as they stand in a text.

ghost use Rattle.std.specs.Prelude.{◌≡◌, ◌⊎◌, ◌<◌, ◌^◌, IfSome};
ghost use Rattle.line_fields.specs.Reading.{Gives};
ghost use Rattle.flow_reading.specs.Flows.{address_at, end_at, ipv4_at, ipv6_at};

use crate::groups::groups;
use line_fields::{number, text};

/// The address of a host, as it stands in a text.
#[derive(Clone, Copy, PartialEq, Eq)]
pub struct Host {
    /// The bit by which a key of IPv6 differs, or 0 for IPv4.
    pub(crate) bit: u64,
    pub(crate) upper: u64,
    pub(crate) lower: u64,
}

/// An endpoint of a flow, as it stands in a text.
#[derive(Clone, Copy, PartialEq, Eq)]
pub struct End {
    pub(crate) host: Host,
    pub(crate) port: u64,
}

/// The address and the port at the front, and the bytes behind them.
#[inline]
#[tactic(auto, unfolding(crate::specs::Flows::end_at))]
pub(crate) fn end_of(bytes: &[u8]) -> Option<(End, &[u8])>
    ensures value { Gives (λ x. (x.0, x.1.now)) result (end_at bytes.now) }
    ensures bit { IfSome result (λ x. (x.0.host.bit ≡ 0) ⊎ (x.0.host.bit ≡ 2 ^ 40)) }
    ensures port { IfSome result (λ x. x.0.port < 2 ^ 16) }
{
    let (host, rest) = address(bytes)?;
    let rest = text(rest, b":")?;
    let (port, rest) = number(rest, 65_535)?;
    Some((End { host, port }, rest))
}

// An address of one of the two versions.
#[inline]
#[tactic(auto, unfolding(crate::specs::Flows::address_at))]
fn address(bytes: &[u8]) -> Option<(Host, &[u8])>
    ensures value { Gives (λ x. (x.0, x.1.now)) result (address_at bytes.now) }
    ensures bit { IfSome result (λ x. (x.0.bit ≡ 0) ⊎ (x.0.bit ≡ 2 ^ 40)) }
{
    match text(bytes, b"[") {
        Some(rest) => ipv6(rest),
        None => ipv4(bytes),
    }
}

// Four numbers with dots.
#[inline]
#[tactic(auto, unfolding(crate::specs::Flows::ipv4_at))]
fn ipv4(bytes: &[u8]) -> Option<(Host, &[u8])>
    ensures value { Gives (λ x. (x.0, x.1.now)) result (ipv4_at bytes.now) }
    ensures bit { IfSome result (λ x. x.0.bit ≡ 0) }
{
    let (first, rest) = number(bytes, 255)?;
    let rest = text(rest, b".")?;
    let (second, rest) = number(rest, 255)?;
    let rest = text(rest, b".")?;
    let (third, rest) = number(rest, 255)?;
    let rest = text(rest, b".")?;
    let (fourth, rest) = number(rest, 255)?;
    let host = Host {
        bit: 0,
        upper: 0,
        lower: first * 16_777_216 + second * 65_536 + third * 256 + fourth,
    };
    Some((host, rest))
}

// Eight groups with colons, behind a bracket, and the other bracket.
#[tactic(auto, unfolding(crate::specs::Flows::ipv6_at))]
fn ipv6(bytes: &[u8]) -> Option<(Host, &[u8])>
    ensures value { Gives (λ x. (x.0, x.1.now)) result (ipv6_at bytes.now) }
    ensures bit { IfSome result (λ x. x.0.bit ≡ 2 ^ 40) }
{
    let (upper, rest) = groups(bytes)?;
    let rest = text(rest, b":")?;
    let (lower, rest) = groups(rest)?;
    let rest = text(rest, b"]")?;
    let host = Host {
        bit: 1_099_511_627_776,
        upper,
        lower,
    };
    Some((host, rest))
}
