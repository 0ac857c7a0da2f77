//! What batches that were served are answered.
#![tactic(auto)]

mod laws;

pub use laws::answer_laws;
