//! What a change of the directory, and an opening, make of the buckets.
#![tactic(auto)]

mod laws;

pub use laws::{change_fold_laws, directory_laws, leaf_laws, opening_laws};
