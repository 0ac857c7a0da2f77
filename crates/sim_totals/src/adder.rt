//! An adder between two adds.

ghost use Rattle.std.specs.Prelude.{◌≡◌, ◌++◌, ◌∷◌, [], ◌+◌, ◌≤◌, length};
ghost use Rattle.sim_steps.specs.Totals.{IsAdd};
ghost use Rattle.sim_steps.specs.Layout.{desk_of, seats_of};
ghost use Rattle.sim_steps.specs.Program.{step_bound, resting};
ghost use Rattle.sim_steps.specs.Machine.{made_at};
ghost use Rattle.sim_totals.specs.Rule.{Adds, At, one};
ghost use Rattle.sim_totals.specs.Values.{HasRoom, IsOf, IsReached, IsSame, Sees, log_of};

use crate::steps::{Token, run_add};
use crate::table::TotalsTable;
use sim_steps::{Add, AddMachine, Added, Desk, laws};
use std::marker::{Brand, Model};

/// One seat of a table, which adds one packet after another.
#[derive(Drop)]
pub struct Adder {
    pub(crate) token: Token,
    pub(crate) machine: AddMachine,
    pub(crate) desk: Desk,
    pub(crate) number: usize,
}

impl Model for Adder {
    ghost use Rattle.sim_totals.specs.Values.{AdderValue};

    ghost Value = { AdderValue };

    ghost use Rattle.sim_totals.specs.Insides.{adder_value, IsKept};

    ghost view = { adder_value };

    ghost invariant = { IsKept };
}

impl Adder {
    /// Adds a packet to its class, and answers the class's new count.
    ///
    /// It always answers. **Steps:** at most `step_bound` of the seats, all of the adder's own and
    /// sequentially consistent; it waits for nobody and takes no memory.
    pub fn add(&mut self, table: &TotalsTable, add: &Add) -> Added
        requires table { IsOf table.now self.old }
        requires room { HasRoom self.old }
        requires add { IsAdd add.now }
        ensures same { IsSame self.old self.new }
        ensures added { Adds self.old.settings self.old.number add.now self.old.seat self.new.seat result }
        ensures about { result.add ≡ add.now }
        ensures log { log_of self.new ≡ log_of self.old ++ result ∷ [] }
        ensures reached { IsReached self.new }
        ensures sees { Sees result.steps self.old self.new }
        ensures bounded { result.steps ≤ step_bound (seats_of self.old.settings) }
    {
        laws::steps();
        run_add::<Brand>(
            &table.table.shared,
            &mut self.token,
            &self.desk,
            &mut self.machine,
            *add,
        )
    }
}

// An adder that has made no add.
pub(crate) fn seated(token: Token, machine: AddMachine, desk: Desk, number: usize) -> Adder
    requires token { token.me ≡ (one token.me.0.settings number resting [], []) }
    requires at { At number token.me }
    requires machine { machine ≡ made_at desk }
    requires desk { desk ≡ desk_of token.me.0.settings number }
    ensures { result ≡ record {
      table_id = token.table_id;
      settings = token.me.0.settings;
      number = number;
      seat = resting;
      seen = [];
    } }
{
    Adder {
        token,
        machine,
        desk,
        number,
    }
}

pub(crate) fn unseated(adder: Adder) -> Token
    ensures table { result.table_id ≡ adder.table_id }
    ensures me { result.me ≡ (one adder.settings adder.number adder.seat adder.seen, []) }
{
    let Adder {
        token,
        machine: _,
        desk: _,
        number: _,
    } = adder;
    token
}
