//! The lasting table that threads share: its words, its seats and its readers.
//!
//! **Words:** announcements, want and hold words, ops, bucket words and rows, in the order of `lasting_model`.
//! **Keeps:** `OneRun`: there is a run of the lasting table that left these words, and what each seat and each reader
//! knows of it are its first events.
//! **Steps:** those of `lasting_calls`. A call begins in the run with its first access.
//! **Why it ends:** each call is straight code over its own steps; no loop waits for another thread.
#![tactic(auto)]

mod meeting;
mod reader;
mod rest;
mod rule;
mod running;
mod runs;
mod seat;
mod stage;
mod table;
mod view;

pub use lasting_calls::MOST_ASKED;
pub use reader::Reader;
pub use rest::Uncopied;
pub use rule::Opening;
pub use seat::Seat;
pub use table::{LastingTable, rows_for, words_for};
