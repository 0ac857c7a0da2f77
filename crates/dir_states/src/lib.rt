//! One directory: how the frozen buckets of announced calls become new leaves, and the directory of an opening.
#![tactic(auto)]

mod changes;
mod counts;
mod cuts;
mod directory;
mod leaves;
mod numbers;
mod openings;
mod opens;
mod parts;
mod steps;
mod values;

pub use changes::Change;
pub use directory::DirState;
pub use openings::{NoRoomAt, Opening};
pub use opens::opening;
pub use values::{Loaded, NewLeaf, base_of};
