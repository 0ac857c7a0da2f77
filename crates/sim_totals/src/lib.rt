//! Totals on one root: three classes of packets, counted by adders that share atomic words.
#![tactic(auto)]

mod adder;
mod rule;
mod steps;
mod table;
mod view;

pub use adder::Adder;
pub use sim_steps::{Add, Added, Totals, step_bound};
pub use table::{ClosedTotals, TotalsTable};
