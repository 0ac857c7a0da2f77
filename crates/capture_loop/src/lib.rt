//! One loop for every mode that goes through a capture batch by batch: what is read, in which
//! batches it is handed on, and what is put.
#![tactic(auto)]

mod intake;
mod job;
mod looping;
mod opening;
mod portions;
mod stop;

pub use intake::{Part, read_rest, take_held};
pub use job::{BATCH, Job, MOST_BATCH, Means, Opened, PACKET_LIMIT, Pile, Piles};
pub use looping::{mark, run_job};
pub use opening::{Step, Unopened, open, read_on, read_past, read_step};
pub use portions::Portions;
pub use stop::Stop;
