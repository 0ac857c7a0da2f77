//! Mode `play`: the calls of a capture are made step by step, by one schedule.
#![tactic(auto)]

mod laws;
mod playing;

pub use laws::playing_laws;
pub use playing::{PLAY_LIMIT, play};
