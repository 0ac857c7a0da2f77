//! A bucket row, changed where its words stand.
#![tactic(auto)]

mod change;
mod hashed;
mod row;

pub use change::change_row;
pub use hashed::Hashed;
