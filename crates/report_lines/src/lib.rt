//! The lines of a report, read: each at the front of some bytes, and what is behind it is given back.
#![tactic(auto)]

mod calls;
mod counts;
mod faults;
mod heads;
mod inputs;
mod laws;
mod orders;
mod replies;
mod tails;

pub use calls::{call_line, pending_line};
pub use heads::head_line;
pub use inputs::input_line;
pub use laws::one_verdict;
pub use orders::order_line;
pub use tails::{Counts, Leaves, Steps, count_line, leaves_line, session_line, steps_line};
