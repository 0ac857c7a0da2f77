//! What a step of a run can be, how long calls take, how much of its rows a seat uses, and what a batch can need.
#![tactic(auto)]

mod laws;

pub use laws::{
    fits_laws, moment_laws, need_laws, new_leaf_laws, number_laws, row_laws, split_laws, step_laws,
};
