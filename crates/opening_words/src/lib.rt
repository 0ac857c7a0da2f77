//! The words that a table opens with, written into words that are all 0, and cleared again.
#![tactic(auto)]

mod clearing;
mod opened;
mod opener;
mod writing;

pub use opened::first_words;
pub use opener::Opener;
