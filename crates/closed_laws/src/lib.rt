//! What the words of a closed table tell, and that those of every run are such a table.
#![tactic(auto)]

mod laws;

pub use laws::{cover_laws, listed_once};
