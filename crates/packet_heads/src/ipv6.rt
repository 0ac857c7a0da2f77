//! The IPv6 head, its extension heads, and what stands behind them.
//!
//! Source: RFC 8200, sections 3 and 4.

ghost use Rattle.packet_heads.specs.Heads.{HasWidths};
ghost use Rattle.packet_heads.specs.Ipv6.{HasIpv6, IsChain, IsExtension};
ghost use Rattle.packet_heads.specs.declared.packet.Heads.{Heads};
ghost use Rattle.std.specs.Prelude.{◌≡◌, ◌⊎◌, ◌+◌, ◌≤◌, List, ℕ, IfSome, IsSome, length};

use crate::numbers::{u16_at, u128_at};
use crate::packet::{Endpoint, Heads};
use crate::transport::{count_behind, protocol_at};

/// Where a transport head begins, and its number.
#[derive(Clone, Copy)]
struct Behind {
    place: usize,
    number: u8,
}

/// The size of the extension head with this number that begins at this place.
///
/// `None` comes exactly where none that is looked through begins there, or it was not captured whole.
fn extension_at(packet: &[u8], place: usize, number: u8) -> Option<usize>
    requires { place ≤ length packet.now }
    ensures found { IfSome result (IsExtension packet.now place number) }
    ensures none { (size : ℕ) → IsExtension packet.now place number size → IsSome result }
{
    if packet.len() - place < 8 {
        return None;
    }
    let size = match number {
        0 | 43 | 60 => 8 * (usize::from(packet[place + 1]) + 1),
        44 if u16_at(packet, place + 2) / 8 == 0 => 8,
        _ => return None,
    };
    if packet.len() - place < size {
        return None;
    }
    Some(size)
}

/// The head behind at most so many extension heads, of which the first has this number and begins at this place.
fn behind_extensions(packet: &[u8], most: u8, place: usize, number: u8) -> Behind
    requires { place ≤ length packet.now }
    ensures chain { (sizes : List ℕ) × (length sizes ≤ most)
        × IsChain packet.now sizes place number result.place result.number }
    ensures only { (sizes : List ℕ) (end last : ℕ) → length sizes ≤ most → (last ≡ 6) ⊎ (last ≡ 17) →
        IsChain packet.now sizes place number end last → (end ≡ result.place) × (last ≡ result.number) }
    ensures within { (place ≤ result.place) × (result.place ≤ length packet.now) }
{
    if most == 0 {
        return Behind { place, number };
    }
    match extension_at(packet, place, number) {
        Some(size) => behind_extensions(packet, most - 1, place + size, packet[place]),
        None => Behind { place, number },
    }
}

/// The endpoints and the protocol of an IPv6 packet, where at most so many extension heads are looked through.
///
/// `None` comes exactly where the packet does not begin with such heads.
pub fn ipv6(packet: &[u8], extensions: u8) -> Option<Heads>
    ensures found { IfSome result (HasIpv6 extensions packet.now) }
    ensures none { (heads : Heads) → HasIpv6 extensions packet.now heads → IsSome result }
    ensures widths { IfSome result HasWidths }
{
    if packet.len() < 40 {
        return None;
    }
    if packet[0] / 16 != 6 {
        return None;
    }
    let behind = behind_extensions(packet, extensions, 40, packet[6]);
    let count = count_behind(u16_at(packet, 4), behind.place - 40);
    let protocol = protocol_at(packet, behind.place, behind.number, count)?;
    let source = Endpoint {
        address: u128_at(packet, 8),
        port: u16_at(packet, behind.place),
    };
    let target = Endpoint {
        address: u128_at(packet, 24),
        port: u16_at(packet, behind.place + 2),
    };
    Some(Heads {
        version: 6,
        source,
        target,
        protocol,
    })
}
