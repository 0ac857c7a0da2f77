//! What the words of a closed table say, read where they stand: its rows, and which of them were ever published.
#![tactic(auto)]

mod held;
mod lists;
mod marks;
mod new_numbers;
mod published;
mod rows;
mod starts;
mod taken;
mod values;
mod walking;
mod words;

pub use held::{closed_buckets, closed_leaves, closed_pairs};
pub use marks::{meet, was_met};
pub use new_numbers::new_number;
pub use published::{
    bucket_line, bucket_rows, directory_line, directory_rows, entries, leaves_new_in, named_buckets,
};
pub use rows::{
    applied_at, closed_depth, directory_base, directory_depth, entry, entry_count, root_of,
    row_base, row_depth, row_of, row_prefix,
};
pub use starts::Starts;
pub use taken::effects;
pub use values::ClosedLeaf;
pub use walking::{first_row, is_exchanged};
pub use words::Words;
