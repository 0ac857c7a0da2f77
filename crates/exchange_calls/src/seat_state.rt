//! What a seat keeps for itself between its calls.

ghost use Rattle.std.specs.Prelude.{◌≡◌, ◌<◌, IfOk};
ghost use Rattle.exchange_model.specs.Worlds.{opening_seat};
ghost use Rattle.exchange_calls.specs.Desks.{IsOf};
ghost use Rattle.exchange_calls.specs.Going.{Going};
ghost use Rattle.exchange_calls.specs.Seats.{IsSeatOf};

use crate::desk::Desk;
use crate::hand::Hand;
use crate::own_rows::OwnRows;
use std::alloc::{AllocError, Global};

/// A seat's rows, room for its tries, how often it has asked for a hold, and how many of its announcements are over.
#[derive(Drop)]
pub struct SeatState {
    pub rows: OwnRows,
    pub hand: Hand,
    pub time: u64,
    pub posted: u64,
}

impl SeatState {
    /// The seat as a table opens with it. All memory of its calls is taken here.
    ///
    /// The only error is want of memory.
    pub fn new(alloc: Global, desk: &Desk) -> Result<SeatState, AllocError>
        requires seat { desk.now.holder < desk.now.sizes.seats }
        ensures { IfOk result (λ seat. (g : Going) → IsOf g desk.now → g.now ≡ opening_seat g.plan g.seat →
            IsSeatOf g seat) }
    {
        let spare = desk.sizes.spare as u64;
        let rows = OwnRows::new(alloc, desk.holder as u64 * spare, spare)?;
        let hand = Hand::new(alloc)?;
        Ok(SeatState {
            rows,
            hand,
            time: 0,
            posted: 0,
        })
    }
}
