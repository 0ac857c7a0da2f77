//! Batches on tables with the rows that their own calls can need, and batches that answer as one thread would.
#![tactic(auto)]

mod laws;

pub use laws::{room_laws, thread_laws};
