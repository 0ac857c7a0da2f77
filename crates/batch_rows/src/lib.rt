//! The sizes that the table of a batch is opened with, from the batch's own keys.
#![tactic(auto)]

mod crowds;
mod demand;
mod hints;
mod keys;
mod rows;
mod splits;
mod telling;

pub use demand::Demand;
pub use rows::{CALL_LIMIT, Sizes, batch_rows, sizes_for, updates_of};
pub use telling::demand_of;
