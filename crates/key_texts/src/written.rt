//! The pieces of a key's text. Each is written from `start` on, and returns where it ends.

ghost use Rattle.std.specs.Prelude.{◌≡◌, ◌+◌, ◌^◌, ◌<◌, ◌≤◌, ◌++◌, false, length, take, codes, decimal};
ghost use Rattle.key_texts.specs.FlowText.{ipv4_text, address_text, endpoint_text, protocol_text};

use crate::groups::write_ipv6;
use crate::octets::{OCTETS, octet_length, port_length};
use itoa::write_digits;

/// Writes a text.
#[inline(always)]
pub(crate) fn write_text(text: &[u8], buffer: &mut [u8], start: usize) -> usize
    requires { start + length text.now ≤ length buffer.old }
    ensures text { take result buffer.new ≡ take start buffer.old ++ text.now }
    ensures end { result ≡ start + length text.now }
{
    let end = start + text.len();
    buffer[start..end].copy_from_slice(text);
    end
}

/// Writes one of the four numbers of an address. Dots stand behind it up to four bytes in all.
#[inline(always)]
pub(crate) fn write_octet(octet: u8, buffer: &mut [u8], start: usize) -> usize
    requires { start + 4 ≤ length buffer.old }
    ensures text { take result buffer.new ≡ take start buffer.old ++ decimal octet }
    ensures dotted { take (result + 1) buffer.new ≡ take start buffer.old ++ (decimal octet ++ codes ".") }
    ensures within { result ≤ start + 3 }
{
    let row = OCTETS[octet as usize];
    write_text(&row, buffer, start);
    start + octet_length(octet)
}

/// Writes a port.
#[inline(always)]
pub(crate) fn write_port(port: u16, buffer: &mut [u8], start: usize) -> usize
    requires { start + 5 ≤ length buffer.old }
    ensures text { take result buffer.new ≡ take start buffer.old ++ decimal port }
    ensures within { result ≤ start + 5 }
{
    let end = start + port_length(port);
    write_digits(u64::from(port), buffer, end);
    end
}

/// Writes an address of IPv4 as four numbers with dots.
#[inline(always)]
pub(crate) fn write_ipv4(address: u32, buffer: &mut [u8], start: usize) -> usize
    requires { start + 16 ≤ length buffer.old }
    ensures text { take result buffer.new ≡ take start buffer.old ++ ipv4_text address }
    ensures within { result ≤ start + 15 }
{
    let first_end = write_octet((address / 0x100_0000) as u8, buffer, start);
    let second_end = write_octet((address / 0x1_0000 % 0x100) as u8, buffer, first_end + 1);
    let third_end = write_octet((address / 0x100 % 0x100) as u8, buffer, second_end + 1);
    write_octet((address % 0x100) as u8, buffer, third_end + 1)
}

/// Writes an address of one of the two versions, its upper and its lower word.
#[inline(always)]
fn write_address(ipv6: bool, upper: u64, lower: u64, buffer: &mut [u8], start: usize) -> usize
    requires ipv4 { ipv6 ≡ false → lower < 2 ^ 32 }
    requires space { start + 41 ≤ length buffer.old }
    ensures text { take result buffer.new ≡ take start buffer.old ++ address_text ipv6 upper lower }
    ensures within { result ≤ start + 41 }
{
    if ipv6 {
        write_ipv6(upper, lower, buffer, start)
    } else {
        write_ipv4(lower as u32, buffer, start)
    }
}

/// Writes an endpoint, its address and its port.
#[inline(always)]
pub(crate) fn write_endpoint(
    ipv6: bool,
    upper: u64,
    lower: u64,
    port: u16,
    buffer: &mut [u8],
    start: usize,
) -> usize
    requires ipv4 { ipv6 ≡ false → lower < 2 ^ 32 }
    requires space { start + 47 ≤ length buffer.old }
    ensures text { take result buffer.new ≡ take start buffer.old ++ endpoint_text ipv6 upper lower port }
    ensures within { result ≤ start + 47 }
{
    let address_end = write_address(ipv6, upper, lower, buffer, start);
    let port_start = write_text(b":", buffer, address_end);
    write_port(port, buffer, port_start)
}

/// Writes the name of a protocol.
#[inline(always)]
pub(crate) fn write_protocol(number: u8, buffer: &mut [u8], start: usize) -> usize
    requires { start + 4 ≤ length buffer.old }
    ensures text { take result buffer.new ≡ take start buffer.old ++ protocol_text number }
    ensures within { result ≤ start + 4 }
{
    let name = if number == 6 { b"/tcp" } else { b"/udp" };
    write_text(name, buffer, start)
}
