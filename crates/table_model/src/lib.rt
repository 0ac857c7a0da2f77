//! The definitions of the concurrent core: what each seat of a table does, and what the words are after any events.
#![tactic(auto)]

mod events;
mod rounds;

pub use events::{Action, Ask, Event, Put};
pub use rounds::{Aim, Round};
