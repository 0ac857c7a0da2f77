//! The modes whose calls are served by seats in threads: `serve` of a capture, `trial` of a made one.
#![tactic(auto)]

mod laws;
mod progress;
mod serving;
mod telling;
mod trying;

pub use laws::serving_laws;
pub use serving::serve;
pub use trying::try_plan;
