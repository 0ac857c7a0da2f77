//! What a report tells: its lines, its calls and its order; when it is right, and which verdict it deserves.
#![tactic(auto)]

mod laws;
mod told;
mod verdict;

pub use laws::verdict_laws;
pub use told::{CallLine, Ended, PendingLine};
pub use verdict::Verdict;
