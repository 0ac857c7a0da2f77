//! Why a capture cannot be read, or cannot be read on: the faults alone, for whoever tells them and reads no capture.
#![tactic(auto)]

mod any_fault;
mod ending;
mod fault;
mod limits;

pub use any_fault::AnyFault;
pub use ending::Ending;
pub use fault::CaptureFault;
pub use limits::{MOST_INTERFACES, MOST_OTHERS};
