//! Flows that end by time: what holds of their definition.
#![tactic(auto)]

mod laws;

pub use laws::{cut_laws, end_laws, key_laws, part_laws, pass_laws, time_laws};
