//! The groups of an address of IPv6. Each piece is written from `start` on, and returns where it ends.

ghost use Rattle.std.specs.Prelude.{◌≡◌, ◌+◌, ◌<◌, ◌≤◌, ◌++◌, false, length, take};
ghost use Rattle.std.specs.Fmt.{digit_glyph};
ghost use Rattle.key_texts.specs.FlowText.{group_text, groups_text, ipv6_text};

use crate::written::write_text;

/// A digit in hexadecimal notation.
fn digit_of(number: u16) -> u8
    requires { number < 16 }
    ensures { result ≡ digit_glyph false number }
{
    if number < 10 {
        b'0' + number as u8
    } else {
        b'a' - 10 + number as u8
    }
}

/// Writes a group of 16 bits, without leading zeros.
fn write_group(group: u16, buffer: &mut [u8], start: usize) -> usize
    requires { start + 4 ≤ length buffer.old }
    ensures text { take result buffer.new ≡ take start buffer.old ++ group_text group }
    ensures within { result ≤ start + 4 }
{
    let last = digit_of(group % 0x10);
    if group < 0x10 {
        return write_text(&[last], buffer, start);
    }
    let third = digit_of(group / 0x10 % 0x10);
    if group < 0x100 {
        return write_text(&[third, last], buffer, start);
    }
    let second = digit_of(group / 0x100 % 0x10);
    if group < 0x1000 {
        return write_text(&[second, third, last], buffer, start);
    }
    let first = digit_of(group / 0x1000);
    write_text(&[first, second, third, last], buffer, start)
}

/// Writes the four groups of a word, with colons between.
fn write_groups(word: u64, buffer: &mut [u8], start: usize) -> usize
    requires { start + 19 ≤ length buffer.old }
    ensures text { take result buffer.new ≡ take start buffer.old ++ groups_text word }
    ensures within { result ≤ start + 19 }
{
    let first_end = write_group((word / 0x1_0000_0000_0000) as u16, buffer, start);
    let second_start = write_text(b":", buffer, first_end);
    let second_end = write_group(
        (word / 0x1_0000_0000 % 0x1_0000) as u16,
        buffer,
        second_start,
    );
    let third_start = write_text(b":", buffer, second_end);
    let third_end = write_group((word / 0x1_0000 % 0x1_0000) as u16, buffer, third_start);
    let fourth_start = write_text(b":", buffer, third_end);
    write_group((word % 0x1_0000) as u16, buffer, fourth_start)
}

/// Writes an address of IPv6, its upper and its lower word, as eight groups in brackets.
pub(crate) fn write_ipv6(upper: u64, lower: u64, buffer: &mut [u8], start: usize) -> usize
    requires { start + 41 ≤ length buffer.old }
    ensures text { take result buffer.new ≡ take start buffer.old ++ ipv6_text upper lower }
    ensures within { result ≤ start + 41 }
{
    let upper_start = write_text(b"[", buffer, start);
    let upper_end = write_groups(upper, buffer, upper_start);
    let lower_start = write_text(b":", buffer, upper_end);
    let lower_end = write_groups(lower, buffer, lower_start);
    write_text(b"]", buffer, lower_end)
}
