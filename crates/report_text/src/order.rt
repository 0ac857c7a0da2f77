//! The lines of an order.

ghost use Rattle.std.specs.Prelude.{◌≡◌, ◌+◌, ◌*◌, ◌≤◌, ◌++◌, decimal, length, map, OnOk, OnErr};
ghost use Rattle.report_text.specs.Report.{order_line, order_lines};
ghost use Rattle.report_text.specs.Lines.{room, Puts, text_in};

use crate::line::Line;
use crate::pieces::{append, begin_line, end_line, put_number};
use plain_map::CallId;
use std::alloc::AllocError;

// How many packet numbers a line has at most.
const ORDER_WIDTH: usize = 16;

/// Appends the lines of an order, and none where it is empty. Each is written in `line` first.
pub fn order_text(out: &mut Vec<u8>, line: &mut Line, order: &[CallId]) -> Result<(), AllocError>
    ensures appended { OnOk result (out.new.items ≡ out.old.items ++ order_lines order.now) }
    ensures kept { OnErr result (out.new.items ≡ out.old.items) }
{
    let start = out.len();
    for ids in order.chunks(ORDER_WIDTH) {
        line.clear();
        put_order(line, ids);
        if let Err(failed) = append(out, line) {
            out.truncate(start);
            return Err(failed);
        }
    }
    Ok(())
}

// Appends one line of an order.
#[inline]
fn put_order(out: &mut Line, ids: &[CallId])
    requires few { length ids.now ≤ 16 }
    requires space { 192 ≤ room out.old }
    ensures { text_in out.new ≡ text_in out.old ++ order_line ids.now }
{
    begin_line(out, b"order");
    put_packets(out, ids);
    end_line(out);
}

// Appends the packet numbers of calls.
#[inline]
fn put_packets(out: &mut Line, ids: &[CallId])
    requires few { length ids.now ≤ 16 }
    requires space { 176 ≤ room out.old }
    ensures puts { Puts (text_in out.old) (map (λ id. decimal id.packet) ids.now) (text_in out.new) }
    ensures taken { room out.old ≤ room out.new + 176 }
{
    for id in ids {
        put_number(out, id.packet);
    }
}
