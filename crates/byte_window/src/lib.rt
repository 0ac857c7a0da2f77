//! A buffer through which a reader looks at the bytes of a source, whatever their format.
#![tactic(auto)]

mod room;
mod window;

pub use window::{CAPACITY, MOST_HELD, PIECE, Window};
