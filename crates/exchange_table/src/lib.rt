//! The lasting table whose rows change owner at each exchange, on words that threads share: its words, its seats and
//! its readers.
//!
//! **Words:** what is pending, announcements, want and hold words, ops, bucket words and rows, in the order of
//! `exchange_model`.
//! **Keeps:** `OneRun`: there is a run of the table that left these words, and what each seat and each reader knows of
//! it are its first events.
//! **Steps:** those of `exchange_calls`. A call begins in the run with its first access.
//! **Why it ends:** each call is straight code over its own steps; no loop waits for another thread.
#![tactic(auto)]

mod holder;
mod limits;
mod meeting;
mod reader;
mod rest;
mod rule;
mod running;
mod runs;
mod seat;
mod stage;
mod table;
mod view;

pub use exchange_opening::words_for;
pub use holder::HoldingReader;
pub use limits::{MOST_ANNOUNCED, MOST_ASKED};
pub use reader::Reader;
pub use rest::Uncopied;
pub use rule::Opening;
pub use seat::{Seat, Unmade};
pub use table::{LastingTable, Opened};
