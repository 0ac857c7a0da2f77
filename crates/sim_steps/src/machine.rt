//! An adder's program, which asks for one atomic step at a time.
//!
//! Once it is made it takes no memory. It waits for nobody: whatever its steps tell it, an add ends
//! within `step_bound` steps.

ghost use Rattle.std.specs.Prelude.{◌≡◌, ◌≢◌, ◌+◌, ◌^◌, ◌<◌, ◌≤◌, IfOk, is_some};
ghost use Rattle.sim_steps.specs.Program.{Idle, is_idle, step_bound as most_steps};
ghost use Rattle.sim_steps.specs.Machine.{IsDesk, made_at, begins, asks, takes, answers, left};

use crate::adds::{Add, Added};
use crate::program::{Program, Stage};
use crate::words::{Ask, Desk};
use std::alloc::{AllocError, Global};
use std::marker::Model;

/// A seat's program, idle or in an add.
#[derive(Drop)]
pub struct AddMachine {
    program: Program,
}

impl Model for AddMachine {
    ghost use Rattle.sim_steps.specs.Machine.{Machine};

    ghost Value = { Machine };

    ghost use Rattle.sim_steps.specs.Inside.{value_of, IsWhole};

    ghost view = { value_of };

    ghost invariant = { IsWhole };
}

impl AddMachine {
    /// An idle machine, with the room that its adds need.
    pub fn new(alloc: Global, desk: Desk) -> Result<AddMachine, AllocError>
        requires { IsDesk desk }
        ensures { IfOk result (λ machine. machine ≡ made_at desk) }
    {
        Ok(AddMachine {
            program: Program::new(alloc, desk)?,
        })
    }

    /// Begins an add.
    pub fn begin(&mut self, add: Add)
        requires idle { self.old.phase ≡ Idle }
        requires number { self.old.caller.number + 1 < 2 ^ 32 }
        ensures { self.new ≡ begins add self.old }
    {
        self.program.begin(add);
    }

    /// Whether it is in no add.
    pub fn is_idle(&self) -> bool
        ensures idle { result ≡ is_idle self.now.phase }
        ensures bounded { self.now.steps + left self.now ≤ most_steps self.now.desk.seats }
    {
        matches!(self.program.stage, Stage::Idle)
    }

    /// The next step. An idle one asks for nothing that counts.
    pub fn next(&self) -> Ask
        ensures { result ≡ asks self.now }
    {
        self.program.next()
    }

    /// Goes on after its step, which told it this word: what it found, or what it stored. Answers where
    /// the add has ended with it.
    pub fn take(&mut self, word: u64) -> Option<Added>
        requires { self.old.phase ≢ Idle }
        ensures machine { self.new ≡ takes self.old word }
        ensures answer { result ≡ answers self.old }
        ensures ended { is_some result ≡ is_idle self.new.phase }
        ensures sooner { left self.new + 1 ≤ left self.old }
    {
        self.program.take(word)
    }
}

/// The most steps of an add at a table of so many seats.
pub fn step_bound(seats: u64) -> u64
    requires { seats ≤ 8 }
    ensures { result ≡ most_steps seats }
{
    5 * (7 + 2 * seats) + 9 * seats + 10
}
