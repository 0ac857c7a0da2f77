//! The protocol, the flags and the payload of the transport head, which stands behind a network head.
//!
//! Source: RFC 9293, section 3.1; RFC 768.

ghost use Rattle.packet_heads.specs.Transport.{HasProtocol, HasRoom, count_behind, datagram_behind, length_field, payload_behind};
ghost use Rattle.packet_heads.specs.declared.packet.Protocol.{Protocol};
ghost use Rattle.std.specs.Prelude.{◌≡◌, ◌≤◌, ◌↔◌, IsTrue, IfSome, IsSome, length};

use crate::numbers::u16_at;
use crate::packet::Protocol;

/// How many bytes stand behind a network head, by its length field, which counts so many bytes of the head itself.
///
/// `None` comes where the field is 0 and tells nothing.
pub fn count_behind(field: u16, head: usize) -> Option<u16>
    ensures { result ≡ count_behind field head }
{
    if field == 0 {
        None
    } else {
        Some(usize::from(field).saturating_sub(head) as u16)
    }
}

/// The protocol with this number, whose head begins after `head` bytes, where `count` bytes are told to stand.
///
/// `None` comes exactly where it is neither TCP with its flags nor UDP with its ports.
pub fn protocol_at(packet: &[u8], head: usize, number: u8, count: Option<u16>) -> Option<Protocol>
    ensures found { IfSome result (HasProtocol packet.now head number count) }
    ensures none { (protocol : Protocol) → HasProtocol packet.now head number count protocol → IsSome result }
{
    match number {
        6 if has_room(packet, head, count, 14) => Some(tcp_at(packet, head, count)),
        17 if has_room(packet, head, count, 4) => Some(udp_at(packet, head, count)),
        _ => None,
    }
}

/// Whether so many bytes of the head that begins after `head` bytes were captured, and are told to stand there.
fn has_room(packet: &[u8], head: usize, count: Option<u16>, need: u16) -> bool
    ensures { IsTrue result ↔ HasRoom packet.now head count need }
{
    if packet.len() < head || packet.len() - head < usize::from(need) {
        return false;
    }
    match count {
        Some(told) => need <= told,
        None => true,
    }
}

/// TCP with the flags of its head, and with its payload.
fn tcp_at(packet: &[u8], head: usize, count: Option<u16>) -> Protocol
    requires { HasRoom packet.now head count 14 }
    ensures { HasProtocol packet.now head 6 count result }
{
    Protocol::Tcp {
        flags: packet[head + 13],
        payload: payload_behind(packet[head + 12] / 16, count),
    }
}

/// How many bytes are told to stand behind a TCP head of so many units of four bytes.
fn payload_behind(units: u8, count: Option<u16>) -> u32
    ensures { result ≡ payload_behind units count }
{
    if units < 5 {
        return 0;
    }
    u32::from(count.unwrap_or(0)).saturating_sub(4 * u32::from(units))
}

/// UDP with its payload.
fn udp_at(packet: &[u8], head: usize, count: Option<u16>) -> Protocol
    requires { HasRoom packet.now head count 4 }
    ensures { HasProtocol packet.now head 17 count result }
{
    Protocol::Udp {
        payload: datagram_behind(length_field(packet, head), count),
    }
}

/// The length field of a UDP head; 0 where it was not captured.
fn length_field(packet: &[u8], head: usize) -> u16
    requires { head ≤ length packet.now }
    ensures { result ≡ length_field packet.now head }
{
    if packet.len() - head < 6 {
        return 0;
    }
    u16_at(packet, head + 4)
}

/// How many bytes are told to stand behind a UDP head with this length field.
fn datagram_behind(field: u16, count: Option<u16>) -> u32
    ensures { result ≡ datagram_behind field count }
{
    u32::from(
        field
            .saturating_sub(8)
            .min(count.unwrap_or(0).saturating_sub(8)),
    )
}
