//! A caller's call of a lasting table as straight code over steps: lookups, copies of a bucket, and updates.
//!
//! **Words:** a seat stores its own want and hold words; with an update also its op, its announcement and a free row of
//! its own, and it exchanges a bucket word. In a sweep it exchanges the hold word of a seat that asks. A reader stores
//! none.
//! **Keeps:** each step is the one that the definitions of `lasting_model` ask for, and leads to the state that they
//! give. A call ends with what its own steps tell, and what a seat keeps for itself is what they give it.
//! **Steps:** those of the run, at most `look_bound` or `update_bound` for a seat. A reader's are those of its tries,
//! which no law counts.
//! **Why it ends:** a seat has two tries, and the row that it holds then is written by nobody. A piece of a sweep looks
//! at three own rows, and at each other seat once. A reader has its tries.
#![tactic(auto)]

mod announcing;
mod attempt;
mod calls;
mod copies;
mod desk;
mod holding;
mod looks;
mod lookups;
mod ops;
mod own;
mod room;
mod rows;
mod runs;
mod seat_state;
mod steps;
mod sweeping;
mod tries;
mod updates;
mod words;

pub use calls::{MOST_ASKED, MOST_UPDATES, Spent, update};
pub use copies::{copy, look_at};
pub use desk::Desk;
pub use lookups::{lookup, peek};
pub use own::Own;
pub use room::{MOST_WORDS, Room};
pub use seat_state::SeatState;
pub use steps::Steps;
pub use updates::carry_out;
