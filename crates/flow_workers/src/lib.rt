//! Seats of a lasting table that each make the calls of their flows, in threads of their own.
#![tactic(auto)]

mod replies;
mod workers;

pub use replies::ReplyCounts;
pub use workers::FlowWorker;
