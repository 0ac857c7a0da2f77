//! Batches of packets, whose calls are made by callers in threads on one table that lasts.
#![tactic(auto)]

mod asked;
mod blocks;
mod classes;
mod flowing;
mod job;
mod mode;
mod pile;
mod running;

pub use asked::Asked;
pub use blocks::Block;
pub use classes::Classes;
pub use flowing::Flowing;
pub use mode::flow;
pub use pile::{FLOW_LIMIT, FlowPile};
pub use running::flow_input;
