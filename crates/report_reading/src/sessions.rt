//! The lines of sessions, read one after the other.

ghost use Rattle.std.specs.Prelude.{◌≡◌, [], List, ℕ, IfOk, length, ◌≤◌, ◌-◌, slice_get};
ghost use Rattle.report_told.specs.Rules.{IsHead};
ghost use Rattle.report_lines.proofs.Machine.{Body, body};
ghost use Rattle.report_reading.specs.Steps.{At, NoEntry, SessionsRead, key_follows};

use crate::steps::Part;
use plain_map::{Key, Pair};
use report_lines::session_line;
use std::alloc::AllocError;

/// Takes in the lines of sessions behind those of entries, while they come; so many lines stand before them.
pub(crate) fn sessions<'a>(
    bytes: &'a [u8],
    before: u32,
    pairs: &mut Vec<Pair>,
) -> Result<Part<'a>, AllocError>
    ensures { (text : List ℕ) (b : Body) → IsHead b.head → b.pairs ≡ [] → At text (body b) bytes.now before →
        NoEntry b bytes.now → pairs.old.items ≡ [] → length text ≤ 4294967295 →
        IfOk result (SessionsRead text b pairs.new.items) }
{
    let mut rest = bytes;
    let mut lines = before;
    for _ in 0..u64::MAX {
        let Some((pair, behind)) = session_line(rest) else {
            return Ok(Part::Whole { rest, lines });
        };
        if !follows(pairs, &pair.key) {
            let line = lines.saturating_add(1);
            return Ok(Part::Bad { line });
        }
        pairs.push(pair)?;
        rest = behind;
        lines = lines.saturating_add(1);
    }
    Ok(Part::Bad { line: 0 })
}

// Whether the key is above the last.
fn follows(pairs: &[Pair], key: &Key) -> bool
    ensures { result ≡ key_follows (slice_get pairs.now (length pairs.now - 1)) key.now }
{
    match pairs.last() {
        Some(last) => last.key < *key,
        None => true,
    }
}
