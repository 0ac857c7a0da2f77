//! That a seat's program goes as its seat does, and that plays by a schedule are runs and end.
#![tactic(auto)]

mod laws;

pub use laws::{program_laws, schedule_laws};
