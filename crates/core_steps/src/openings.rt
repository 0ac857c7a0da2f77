//! What a table opens with. The only error is want of memory.

ghost use Rattle.std.specs.Prelude.{◌≡◌, [], IfOk, map, replicate};
ghost use Rattle.word_rows.specs.LayoutView.{shape_of};
ghost use Rattle.core_steps.specs.Values.{setup_at};
ghost use Rattle.core_steps.specs.Moments.{AreResting};

use hash_bits::Hashing;
use plain_map::{Pair, Record};
use seat_machine::SeatMachine;
use std::alloc::{AllocError, Global};
use word_rows::Layout;

/// These pairs.
pub(crate) fn copied_pairs(alloc: Global, first: &[Pair]) -> Result<Vec<Pair>, AllocError>
    ensures { IfOk result (λ v. v.items ≡ first.now) }
{
    first.to_vec(alloc)
}

/// The seats, of which none has made a call.
pub(crate) fn first_seats(
    alloc: Global,
    layout: Layout,
    hashing: Hashing,
) -> Result<Vec<SeatMachine>, AllocError>
    ensures { IfOk result (λ seats. AreResting (setup_at (shape_of layout) hashing []) seats.items) }
{
    let settings = *layout.settings();
    let mut seats = Vec::new(alloc);
    for seat in 0..settings.seats {
        seats.push(SeatMachine::new(alloc, &settings, hashing, layout, seat)?)?;
    }
    Ok(seats)
}

/// For each seat no record.
pub(crate) fn first_logs(alloc: Global, seats: u32) -> Result<Vec<Vec<Record>>, AllocError>
    ensures { IfOk result (λ logs. map (λ log. log.items) logs.items ≡ replicate seats []) }
{
    let mut logs = Vec::new(alloc);
    for _ in 0..seats {
        logs.push(Vec::new(alloc))?;
    }
    Ok(logs)
}
