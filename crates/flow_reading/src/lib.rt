//! The text of a key, read.
#![tactic(auto)]

mod ends;
mod flows;
mod groups;

pub use flows::flow;
