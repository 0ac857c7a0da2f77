//! The steps of wait-free totals on one root, and what holds after every list of events.
#![tactic(auto)]

mod adds;
pub mod laws;
mod machine;
mod program;
mod reading;
mod rows;
mod words;

pub use adds::{Add, Added, Op, Totals};
pub use machine::{AddMachine, step_bound};
pub use reading::{read_order_into, read_totals};
pub use words::{Address, Ask, Desk};
