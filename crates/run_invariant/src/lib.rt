//! The history beside a table's words: what no seat sees, and what it says at every moment of every run.
#![tactic(auto)]

mod laws;

pub use laws::frame_laws;
