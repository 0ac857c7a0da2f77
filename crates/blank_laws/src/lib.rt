//! The words of a seat's own bucket rows: who stores to them, and what they hold before.
#![tactic(auto)]

mod laws;

pub use laws::own_row_laws;
