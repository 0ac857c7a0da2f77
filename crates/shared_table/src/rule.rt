//! The rule of the table.

ghost use Rattle.std.specs.Prelude.{ℕ, List, []};
ghost use Rattle.shared_table.specs.SeatValues.{SeatValue};
ghost use Rattle.plain_map.specs.declared.calls.Call.{Call};
ghost use Rattle.shared_table.specs.Rule.{Holds, plain, acted};
ghost use Rattle.shared_table.specs.Readings.{entered, looked};
ghost use Rattle.shared_table.specs.Seating.{whole, no_call, others, foremost, together, spent};

use crate::view::View;
use atomic_table::{Join, Play, Split, TableRule};
use hash_bits::Hashing;
use plain_map::Pair;
use std::marker::{Brand, PhantomData};
use step_counts::{SeatRows, Settings};

/// What a table is opened with.
#[derive(Drop)]
pub struct Plan {
    pub settings: Settings,
    pub hashing: Hashing,
    pub rows: Vec<SeatRows>,
    pub first: Vec<Pair>,
}

pub struct OneRun;

impl TableRule<(), View, Plan> for OneRun {
    ghost holds = { λ plan. Holds (plain plan) };

    ghost first = { λ plan. whole (plain plan) };
}

/// The call that is being made. Each call picks it.
pub trait Asked {
    ghost asked: { ℕ × Call };

    // The seat as the call begins.
    ghost was: { List SeatValue };
}

impl Asked for Brand {
    ghost asked = { no_call };

    ghost was = { [] };
}

/// The call that a step is of, and how many steps are taken late with it. Each access picks them.
pub trait Access {
    ghost asked: { ℕ × Call };

    ghost late: { ℕ };
}

impl Access for Brand {
    ghost asked = { no_call };

    ghost late = { 0 };
}

/// One access of a seat: its step, and right before it those that it takes late.
pub struct Acts<A> {
    marker: PhantomData<A>,
}

impl<A: Access> Play<(), View> for Acts<A> {
    ghost then = { acted A.asked A.late };
}

/// One load of a reader.
pub struct Looks;

impl Play<(), View> for Looks {
    ghost then = { looked };
}

/// A new reader.
pub struct Enters;

impl Play<(), View> for Enters {
    ghost then = { entered };
}

/// The first seat of a view is cut off.
pub struct Deal;

impl Split<View> for Deal {
    ghost left = { others };

    ghost right = { foremost };
}

/// Two views are put together.
pub struct Gather;

impl Join<View> for Gather {
    ghost both = { together };

    ghost spent = { spent };
}
