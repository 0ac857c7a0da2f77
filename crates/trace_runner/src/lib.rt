//! The program behind its words: each mode by its own crate, and one call that does what the words ask for.
#![tactic(auto)]

mod making;
mod running;

pub use capture_loop::{BATCH, MOST_BATCH, PACKET_LIMIT};
pub use flows_runner::FLOW_LIMIT;
pub use mode_parts::Status;
pub use play_mode::{PLAY_LIMIT, playing_laws};
pub use running::run;
pub use serve_modes::serving_laws;
