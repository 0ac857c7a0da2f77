//! Which reports are certified: those whose lines tell of one right order of all calls.
#![tactic(auto)]

mod fits;
mod laws;

pub use fits::{ending_fits, head_fits, tail_fits};
pub use laws::{call_laws, promise_laws};
