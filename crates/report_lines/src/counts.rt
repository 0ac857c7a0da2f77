//! What a caller had seen.

ghost use Rattle.std.specs.Prelude.{◌≡◌, ◌≤◌};
ghost use Rattle.line_fields.specs.Reading.{Gives};
ghost use Rattle.report_lines.specs.Fields.{counts_at};

use line_fields::{number, text};
use plain_map::{MOST_SEATS, Seen};

/// Counts for so many seats, with commas between, and the bytes behind them.
#[inline]
pub(crate) fn counts(bytes: &[u8], seats: u32) -> Option<(Seen, &[u8])>
    requires { (1 ≤ seats) × (seats ≤ 8) }
    ensures { Gives (λ x. (x.0, x.1.now)) result (counts_at seats bytes.now) }
{
    let (first, mut rest) = number(bytes, 4_294_967_295)?;
    let mut counts = [0; MOST_SEATS];
    counts[0] = first as u32;
    for seat in 1..seats as usize {
        let Some(behind) = text(rest, b",") else {
            return None;
        };
        let Some((count, behind)) = number(behind, 4_294_967_295) else {
            return None;
        };
        counts[seat] = count as u32;
        rest = behind;
    }
    Some((Seen { counts }, rest))
}
