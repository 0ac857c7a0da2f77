//! How many rows suffice where few keys come.
#![tactic(auto)]

mod laws;

pub use laws::key_laws;
