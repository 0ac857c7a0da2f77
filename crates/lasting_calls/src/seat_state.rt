//! What a seat keeps for itself between its calls.

ghost use Rattle.std.specs.Prelude.{◌≡◌, ◌≤◌, IfOk};
ghost use Rattle.lasting_model.specs.Plans.{least_rows};
ghost use Rattle.lasting_model.specs.Worlds.{opening_seat};
ghost use Rattle.lasting_calls.specs.Going.{Going};
ghost use Rattle.lasting_calls.specs.Desks.{IsOf};
ghost use Rattle.lasting_calls.specs.Seats.{IsSeatOf};

use crate::desk::Desk;
use crate::room::Room;
use own_rows::OwnRows;
use std::alloc::{AllocError, Global};

/// A seat's rows, how many updates it has answered, how often it has asked for a hold, and room for its tries.
#[derive(Drop)]
pub struct SeatState {
    pub rows: OwnRows,
    pub answered: u64,
    pub time: u64,
    pub room: Room,
}

impl SeatState {
    /// The seat as a table opens with it. All memory of its calls is taken here.
    ///
    /// The only error is want of memory.
    pub fn new(alloc: Global, desk: &Desk) -> Result<SeatState, AllocError>
        requires rows { least_rows desk.now.settings ≤ desk.now.rows }
        ensures { IfOk result (λ seat. (g : Going) → IsOf g desk.now → g.now ≡ opening_seat g.plan g.seat →
            IsSeatOf g seat) }
    {
        let seats = desk.settings.seats;
        let buckets = 1u32 << desk.settings.depth;
        let named = (buckets + (seats - 1 - desk.seat)) / seats;
        let rows = OwnRows::new(
            alloc,
            desk.seat * desk.rows,
            desk.rows,
            named,
            seats,
            desk.seat,
        )?;
        Ok(SeatState {
            rows,
            answered: 0,
            time: 0,
            room: Room::new(),
        })
    }
}
