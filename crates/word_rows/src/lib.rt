//! Which word of a table is what, and how ops, buckets and directories are spelled in words.
#![tactic(auto)]

mod addresses;
mod bases;
mod bucket_parts;
mod buckets;
mod closed;
mod directories;
mod keys;
mod layout;
mod memory;
mod ops;
mod places;
mod replies;
mod rows;

pub use addresses::Address;
pub use closed::ClosedRows;
pub use keys::{read_key, read_pair, write_pair};
pub use layout::Layout;
pub use memory::memory_laws;
pub use ops::{COUNT, INSERT, OpRow, PUT, REMOVE, TALLY, read_op, write_op};
pub use places::place_laws;
pub use replies::{ABSENT, GONE, NEW, NO_ROOM, OLD, SUM, reply_of, reply_word};
pub use rows::row_laws;
