//! The text of a key, how long the text of a number is, and which calls packets make.
#![tactic(auto)]

mod digits;
mod groups;
mod octets;
mod rules;
mod texts;
mod written;

pub use digits::digit_count;
pub use rules::CallRule;
pub use texts::write_key;
