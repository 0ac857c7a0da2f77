//! The records of each seat.

ghost use Rattle.std.specs.Prelude.{◌≡◌, ◌++◌, ◌<◌, [], OnOk, length, map, slice_index_or, slice_set, vec_capacity, vec_len};
ghost use Rattle.core_steps.specs.Steps.{ended_in};
ghost use Rattle.core_steps.specs.Moments.{HasRoomFor};

use crate::values::Stepped;
use plain_map::Record;
use std::alloc::AllocError;

/// Room for one record more of a seat.
pub(crate) fn reserve_in(logs: &mut Vec<Vec<Record>>, seat: usize) -> Result<(), AllocError>
    requires { seat < length logs.old.items }
    ensures items { map (λ log. log.items) logs.new.items ≡ map (λ log. log.items) logs.old.items }
    ensures room { OnOk result (HasRoomFor logs.new.items seat) }
{
    logs[seat].reserve(1)
}

/// Keeps the record that an event ended with.
pub(crate) fn note(logs: &mut Vec<Vec<Record>>, seat: usize, stepped: &Stepped)
    requires inside { seat < length logs.old.items }
    requires room { HasRoomFor logs.old.items seat }
    ensures { map (λ log. log.items) logs.new.items ≡ slice_set (map (λ log. log.items) logs.old.items) seat
        (slice_index_or (map (λ log. log.items) logs.old.items) seat [] ++ ended_in stepped.now) }
{
    if let Stepped::Ended(record) = stepped {
        logs[seat].push_reserved(*record);
    }
}
