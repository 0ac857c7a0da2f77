//! A report tested by itself: it is certified, or its first fault is named.
#![tactic(auto)]

mod early;
mod legal;
mod long;
mod places;
mod verdicts;
mod whole;

pub use verdicts::{check, judge};
