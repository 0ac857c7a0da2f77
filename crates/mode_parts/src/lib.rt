//! What the modes of the program share: how a run ended, the calls of packets, how a plan is served, lines of a report.
#![tactic(auto)]

mod calling;
mod pile;
mod planned;
mod printing;
mod status;
mod steps;

pub use calling::Calling;
pub use pile::CallPile;
pub use planned::{calling_of, head_of, service_of};
pub use printing::put_sessions;
pub use status::{Complaint, Status};
pub use steps::call_in;
