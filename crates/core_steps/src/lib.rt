//! The core as one world: a table of any number of seats, whose events come one after the other as they are given.
#![tactic(auto)]

mod happening;
mod logs;
mod one_world;
mod openings;
mod reading;
#[cfg(test)]
mod tests;
mod values;
#[cfg(test)]
mod word_tests;

pub use one_world::CoreWorld;
pub use values::{CoreEnd, Stepped};
