//! A report, read: what it tells, or its first bad line.
#![tactic(auto)]

mod answers;
mod entries;
mod kept;
mod packets;
mod reading;
mod sessions;
mod steps;
mod tail;

pub use kept::Kept;
pub use reading::{Reading, TEXT_LIMIT, read};
