//! The rule of the table: its words and its views are those of one list of events.

ghost use Rattle.sim_steps.specs.declared.adds.Add.{Add};
ghost use Rattle.sim_totals.specs.Rule.{ShowsRun, plain, whole, acted, others, foremost, together, spent, no_add};

use crate::view::View;
use atomic_table::{Join, Play, Split, TableRule};
use sim_steps::Totals;
use std::marker::{Brand, PhantomData};

/// What the table is told when it is made: how many adds each seat may make, and the first totals.
#[derive(Drop)]
pub struct Plan {
    pub adds: Vec<u32>,
    pub first: Totals,
}

pub struct OneRun;

impl TableRule<(), View, Plan> for OneRun {
    ghost holds = { λ plan. ShowsRun (plain plan) };

    ghost first = { λ plan. whole (plain plan) };
}

/// The add that is being made. Each call picks it.
pub trait Asked {
    ghost add: { Add };
}

impl Asked for Brand {
    ghost add = { no_add };
}

/// One step of a seat.
pub struct Acts<B> {
    marker: PhantomData<B>,
}

impl<B: Asked> Play<(), View> for Acts<B> {
    ghost then = { acted B.add };
}

/// The first seat of a view is cut off.
pub struct Deal;

impl Split<View> for Deal {
    ghost left = { others };

    ghost right = { foremost };
}

/// Two views are put together.
pub struct Gather;

impl Join<View> for Gather {
    ghost both = { together };

    ghost spent = { spent };
}
