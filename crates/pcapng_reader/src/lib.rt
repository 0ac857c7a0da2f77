//! Reads the packets of a capture, be it a savefile or pcapng, in whatever pieces its bytes come.
#![tactic(auto)]

mod any;
mod block;
mod blocks;
mod clock;
mod dropping;
mod laws;
mod long;
mod section;
mod told;
mod waiting;

pub use any::AnyReader;
pub use laws::{every_input, input_front, one_input, one_stamp, reads_input, reads_stamps};
use section::{Interface, Section};
