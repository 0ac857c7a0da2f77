//! What the table whose rows change owner at each exchange opens with: its sizes, its words, and the bytes that it
//! takes. Which first pairs find no room is told before any is brought.
#![tactic(auto)]

mod first_pairs;
mod memory;
mod options;
mod words;

pub use first_pairs::which_find_no_room;
pub use memory::{Memory, memory_for};
pub use options::{
    MOST_DEPTH, MOST_ITEMS, MOST_READERS, MOST_SEATS, OptionFault, Options, sizes_for,
};
pub use words::{opening_words, words_for};
