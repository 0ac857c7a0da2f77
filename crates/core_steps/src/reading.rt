//! What is read of the core where it is stopped.

ghost use Rattle.std.specs.Prelude.{◌≡◌, IfOk, IsPermutation, length, map};
ghost use Rattle.std.specs.List.Sorted.{IsSortedByKey};
ghost use Rattle.plain_map.specs.Keys.{key_cmp};
ghost use Rattle.word_rows.specs.LayoutView.{shape_of};
ghost use Rattle.table_model.specs.Closed.{closed_pairs};
ghost use Rattle.core_steps.specs.Moments.{pending_of_all};

use closed_words::{Starts, closed_pairs};
use plain_map::{Pair, Pending};
use seat_machine::SeatMachine;
use std::alloc::{AllocError, Global};

/// The calls that had begun, in the order of the seats.
pub(crate) fn begun_of(alloc: Global, seats: &[SeatMachine]) -> Result<Vec<Pending>, AllocError>
    ensures { IfOk result (λ begun. begun.items ≡ pending_of_all seats.now) }
{
    let mut begun = Vec::new(alloc);
    for machine in seats {
        if let Some(pending) = machine.pending() {
            begun.push(pending)?;
        }
    }
    Ok(begun)
}

/// The pairs, in the order of their keys.
pub(crate) fn pairs_of(
    alloc: Global,
    starts: &Starts,
    words: &Vec<u64>,
) -> Result<Vec<Pair>, AllocError>
    ensures held { IfOk result (λ pairs.
        IsPermutation (closed_pairs (shape_of starts.now.layout) words.now.items) pairs.items) }
    ensures sorted { IfOk result (λ pairs. IsSortedByKey (λ pair. pair.key) key_cmp pairs.items) }
{
    let mut pairs = closed_pairs(alloc, starts, words)?;
    pairs.sort_unstable_by_key(|pair| pair.key);
    Ok(pairs)
}
