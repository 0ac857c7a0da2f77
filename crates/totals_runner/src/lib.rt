//! Batches of packets, each added by adders in threads on a table of its own.
#![tactic(auto)]

mod adds;
mod batch;
mod counting;
mod dealing;
mod frames;
mod job;
mod laws;
mod lines;
mod mode;
mod running;
mod seats;

pub use batch::Dealt;
pub use counting::{Asked, Counting};
pub use frames::Frames;
pub use laws::counted_laws;
pub use mode::count;
pub use running::count_input;
