//! Plays: seats make the calls that they are dealt, by a schedule, and each is stopped where it is to stop.
#![tactic(auto)]

mod counts;
mod ending;
mod hands;
mod playing;
mod slots;
mod turns;
mod values;

pub use counts::most_steps;
pub use playing::play;
pub use values::{Played, Segment};
