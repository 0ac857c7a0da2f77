//! What an adder knows of the table.

ghost use Rattle.std.specs.Prelude.{ℕ, List};
ghost use Rattle.std.specs.Borrow.{ftrue};
ghost use Rattle.sim_steps.specs.Layout.{Settings};
ghost use Rattle.sim_steps.specs.Program.{Seat};
ghost use Rattle.sim_steps.specs.World.{Event};

use std::marker::Model;

/// Some seats of the table, each with its number, its state and what it has seen of the run, and the
/// settings of the run. No value of it is made.
pub struct View {
    pub ghost settings: { Settings },
    pub ghost bundle: { List (ℕ × Seat × List Event) },
}

impl Model for View {
    ghost also_owns = { λ _. ftrue };
}
