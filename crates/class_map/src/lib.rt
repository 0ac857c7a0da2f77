//! The plain map as code; and the same with each class kept apart, so that a call touches the keys of its own class
//! alone.
#![tactic(auto)]

mod class_counts;
mod object;
mod pairs;
mod places;
mod rows;

pub use object::PlainMap;
pub use rows::ClassMap;
