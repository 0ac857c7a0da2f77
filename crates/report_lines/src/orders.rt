//! The lines of an order.

ghost use Rattle.std.specs.Prelude.{IfOk, []};
ghost use Rattle.std.specs.Option.{option_map};
ghost use Rattle.report_lines.specs.Fields.{packets_behind};
ghost use Rattle.report_lines.specs.Lines.{order_at, AddsOrder};

use line_fields::{number, text};
use std::alloc::AllocError;

/// The packets of an order's line at the front, 1 to 16, behind those of `packets`, and the bytes behind the line.
///
/// Where no such line stands there, something may stand behind the packets. The only error is want of memory.
#[tactic(auto, unfolding(crate::specs::Lines::order_at))]
pub fn order_line<'a>(
    bytes: &'a [u8],
    packets: &mut Vec<u32>,
) -> Result<Option<&'a [u8]>, AllocError>
    ensures { IfOk result (λ found.
        AddsOrder (order_at bytes.now) packets.old.items packets.new.items (option_map (λ x. x.now) found)) }
{
    let before = packets.len();
    let Some(rest) = text(bytes, b"order") else {
        return Ok(None);
    };
    let Some(rest) = packets_of(rest, packets)? else {
        return Ok(None);
    };
    let Some(rest) = text(rest, b"\n") else {
        return Ok(None);
    };
    if before < packets.len() {
        Ok(Some(rest))
    } else {
        Ok(None)
    }
}

// At most 16 packets, each behind a space.
fn packets_of<'a>(bytes: &'a [u8], packets: &mut Vec<u32>) -> Result<Option<&'a [u8]>, AllocError>
    ensures { IfOk result (λ found.
        AddsOrder (packets_behind 16 [] bytes.now) packets.old.items packets.new.items
        (option_map (λ x. x.now) found)) }
{
    let mut rest = bytes;
    for _ in 0..16u32 {
        let Some(behind) = text(rest, b" ") else {
            return Ok(Some(rest));
        };
        let Some((packet, behind)) = number(behind, 4_294_967_295) else {
            return Ok(None);
        };
        packets.push(packet as u32)?;
        rest = behind;
    }
    Ok(Some(rest))
}
