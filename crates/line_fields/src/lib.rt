//! The fields of a line of text: each is read at the front of some bytes, and what is behind it is given back.
#![tactic(auto)]

mod numbers;
mod texts;

pub use numbers::number;
pub use texts::{hex_digit, hexadecimal, text};
