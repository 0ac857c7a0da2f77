//! The text of a key.

ghost use Rattle.key_texts.specs.FlowText.{HasText, flow_text};
ghost use Rattle.std.specs.Prelude.{◌≡◌, ◌+◌, ◌≤◌, ◌++◌, length, take};

use crate::written::{write_endpoint, write_protocol, write_text};
use plain_map::Key;

/// Writes the text of a key from `start` on, and returns where it ends: its lower and its higher endpoint, and its
/// protocol. It takes at most 99 bytes, and up to five more may change behind it.
#[inline]
pub fn write_key(key: &Key, buffer: &mut [u8], start: usize) -> usize
    requires key { HasText key.now }
    requires space { start + 104 ≤ length buffer.old }
    ensures text { take result buffer.new ≡ take start buffer.old ++ flow_text key.now }
    ensures fits { result ≤ start + 99 }
{
    let is_ipv6 = key.k4 >= 0x100_0000_0000;
    let low_port = (key.k4 / 0x100_0000 % 0x1_0000) as u16;
    let high_port = (key.k4 / 0x100 % 0x1_0000) as u16;
    let low_end = write_endpoint(is_ipv6, key.k0, key.k1, low_port, buffer, start);
    let high_start = write_text(b"-", buffer, low_end);
    let high_end = write_endpoint(is_ipv6, key.k2, key.k3, high_port, buffer, high_start);
    write_protocol((key.k4 % 0x100) as u8, buffer, high_end)
}
