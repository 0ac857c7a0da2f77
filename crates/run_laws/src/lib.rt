//! The history at the opening, and so the central induction over every run.
#![tactic(auto)]

mod laws;

pub use laws::{own_step_laws, stuck_laws};
