//! Room for a piece behind the bytes that a window holds.

ghost use Rattle.std.specs.Prelude.{◌≡◌, ◌≤◌, ◌+◌, ◌-◌, take, slice_range, vec_capacity, vec_len};

use crate::window::{CAPACITY, MOST_HELD, PIECE};

/// So many bytes of the buffer are used at first. The memory behind them is touched only where an input is long.
pub const FIRST_LENGTH: usize = 2 * PIECE;

/// Moves the bytes from `start` to `end` to the front where there is no room for a piece behind
/// them, and answers where they begin and end now. Then twice as much of the buffer is used from now on.
pub fn make_room(buf: &mut Vec<u8>, start: usize, end: usize) -> (usize, usize)
    requires capacity { CAPACITY ≤ vec_capacity buf.old }
    requires few_used { vec_len buf.old ≤ CAPACITY }
    requires order { start ≤ end }
    requires inside { end ≤ vec_len buf.old }
    requires few { end - start ≤ MOST_HELD }
    ensures capacity { CAPACITY ≤ vec_capacity buf.new }
    ensures few_used { vec_len buf.new ≤ CAPACITY }
    ensures order { result.0 ≤ result.1 }
    ensures room { result.1 + PIECE ≤ vec_len buf.new }
    ensures bytes { slice_range buf.new.items result.0 result.1 ≡ slice_range buf.old.items start end }
{
    if PIECE <= buf.len() - end {
        return (start, end);
    }
    buf.copy_within(start..end, 0);
    use_more(buf, end - start + PIECE);
    (0, end - start)
}

/// Uses twice as much of the buffer, and at least so much, where it has more. It takes no memory.
fn use_more(buf: &mut Vec<u8>, least: usize)
    requires capacity { CAPACITY ≤ vec_capacity buf.old }
    requires few_used { vec_len buf.old ≤ CAPACITY }
    requires few { least ≤ CAPACITY }
    ensures capacity { CAPACITY ≤ vec_capacity buf.new }
    ensures few_used { vec_len buf.new ≤ CAPACITY }
    ensures enough { least ≤ vec_len buf.new }
    ensures more { vec_len buf.old ≤ vec_len buf.new }
    ensures bytes { take (vec_len buf.old) buf.new.items ≡ buf.old.items }
{
    let length = CAPACITY.min(2 * buf.len()).max(least);
    let Ok(()) = buf.resize(length, 0u8) else {
        unreachable!()
    };
}
