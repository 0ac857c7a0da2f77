//! How calls are served, and how those of a batch are dealt to the seats before.
#![tactic(auto)]

mod dealing;
mod service;

pub use dealing::{Dealt, deal_batch};
pub use service::Service;
