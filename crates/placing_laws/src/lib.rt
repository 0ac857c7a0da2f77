//! How the pieces of a closed table are placed, what their order is then, and when it answers as one thread would.
#![tactic(auto)]

mod laws;

pub use laws::{free_turns, one_thread_laws};
