//! The heads of links: which packet captured bytes carry, and of which network.
//!
//! Source: the registry of link types, https://www.tcpdump.org/linktypes.html; RFC 1661 (PPP).

ghost use Rattle.packet_heads.specs.Links.{Carries, IsFamily, IsLoop, IsNull, IsPpp, IsPppBody, IsRaw, behind_control, ppp_number};
ghost use Rattle.packet_heads.specs.declared.framing.Network.{Network as ANetwork};
ghost use Rattle.std.specs.Prelude.{◌≡◌, List, ℕ, IfSome, IsSome};

use crate::ethernet::typed;
use crate::framing::{Carried, Framing, Link, Network};
use crate::numbers::{little_u32_at, u16_at, u32_at};

/// The packet that captured bytes carry, so framed.
///
/// `None` comes exactly where they carry none.
pub fn carried_by<'a>(framing: &Framing, bytes: &'a [u8]) -> Option<Carried<'a>>
    ensures found { IfSome result (λ carried. Carries framing.now bytes.now carried.network carried.packet.now) }
    ensures none { (network : ANetwork) (packet : List ℕ) → Carries framing.now bytes.now network packet →
        IsSome result }
{
    match framing.link {
        Link::Ethernet => typed(12, 14, framing.tags, bytes),
        Link::LinuxSll => typed(14, 16, framing.tags, bytes),
        Link::LinuxSll2 => typed(0, 20, framing.tags, bytes),
        Link::Raw | Link::Raw12 | Link::Raw14 => raw(bytes),
        Link::Null => null(bytes),
        Link::Loop => loopback(bytes),
        Link::Ppp => ppp(bytes),
        Link::Ipv4 => Some(Carried {
            network: Network::Ipv4,
            packet: bytes,
        }),
        Link::Ipv6 => Some(Carried {
            network: Network::Ipv6,
            packet: bytes,
        }),
    }
}

/// A packet without a head before it.
fn raw(bytes: &[u8]) -> Option<Carried<'_>>
    ensures found { IfSome result (λ carried. IsRaw bytes.now carried.network carried.packet.now) }
    ensures none { (network : ANetwork) (packet : List ℕ) → IsRaw bytes.now network packet → IsSome result }
{
    if bytes.is_empty() {
        return None;
    }
    let network = match bytes[0] / 16 {
        4 => Network::Ipv4,
        6 => Network::Ipv6,
        _ => return None,
    };
    Some(Carried {
        network,
        packet: bytes,
    })
}

/// The network of an address family.
fn network_of(family: u32) -> Option<Network>
    ensures found { IfSome result (λ network. IsFamily network family) }
    ensures none { (network : ANetwork) → IsFamily network family → IsSome result }
{
    match family {
        2 => Some(Network::Ipv4),
        24 | 28 | 30 => Some(Network::Ipv6),
        _ => None,
    }
}

/// A packet behind its family, the highest byte first.
fn loopback(bytes: &[u8]) -> Option<Carried<'_>>
    ensures found { IfSome result (λ carried. IsLoop bytes.now carried.network carried.packet.now) }
    ensures none { (network : ANetwork) (packet : List ℕ) → IsLoop bytes.now network packet → IsSome result }
{
    if bytes.len() < 4 {
        return None;
    }
    let network = network_of(u32_at(bytes, 0))?;
    Some(Carried {
        network,
        packet: &bytes[4..],
    })
}

/// A packet behind its family, in either order.
fn null(bytes: &[u8]) -> Option<Carried<'_>>
    ensures found { IfSome result (λ carried. IsNull bytes.now carried.network carried.packet.now) }
    ensures none { (network : ANetwork) (packet : List ℕ) → IsNull bytes.now network packet → IsSome result }
{
    if bytes.len() < 4 {
        return None;
    }
    let network = match network_of(little_u32_at(bytes, 0)) {
        Some(network) => network,
        None => network_of(u32_at(bytes, 0))?,
    };
    Some(Carried {
        network,
        packet: &bytes[4..],
    })
}

/// A packet of PPP, with or without address and control.
fn ppp(bytes: &[u8]) -> Option<Carried<'_>>
    ensures found { IfSome result (λ carried. IsPpp bytes.now carried.network carried.packet.now) }
    ensures none { (network : ANetwork) (packet : List ℕ) → IsPpp bytes.now network packet → IsSome result }
{
    ppp_body(behind_control(bytes))
}

/// What stands behind address and control, which may be left out.
fn behind_control(bytes: &[u8]) -> &[u8]
    ensures { result.now ≡ behind_control bytes.now }
{
    if bytes.len() < 2 {
        return bytes;
    }
    if bytes[0] != 0xff {
        return bytes;
    }
    if bytes[1] != 0x03 {
        return bytes;
    }
    &bytes[2..]
}

/// The network of a protocol's number in PPP.
fn ppp_network(number: u16) -> Option<Network>
    ensures found { IfSome result (λ network. number ≡ ppp_number network) }
    ensures none { (network : ANetwork) → number ≡ ppp_number network → IsSome result }
{
    match number {
        0x21 => Some(Network::Ipv4),
        0x57 => Some(Network::Ipv6),
        _ => None,
    }
}

/// A packet behind its protocol's number, of one byte where that is odd, else of two.
fn ppp_body(bytes: &[u8]) -> Option<Carried<'_>>
    ensures found { IfSome result (λ carried. IsPppBody bytes.now carried.network carried.packet.now) }
    ensures none { (network : ANetwork) (packet : List ℕ) → IsPppBody bytes.now network packet → IsSome result }
{
    if bytes.is_empty() {
        return None;
    }
    if let Some(network) = ppp_network(u16::from(bytes[0])) {
        return Some(Carried {
            network,
            packet: &bytes[1..],
        });
    }
    if bytes.len() < 2 {
        return None;
    }
    let network = ppp_network(u16_at(bytes, 0))?;
    Some(Carried {
        network,
        packet: &bytes[2..],
    })
}
