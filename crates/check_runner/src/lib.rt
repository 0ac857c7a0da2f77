//! A report is read whole and judged, and one line tells the verdict.
#![tactic(auto)]

mod checking;
mod lines;
mod mode;
mod reading;

pub use checking::{Checked, Stop, check_input};
pub use mode::check;
