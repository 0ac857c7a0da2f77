//! One bucket: what it holds, and how the announced calls of all seats change it.
#![tactic(auto)]

mod bucket;
mod change;
mod items;
mod laws;
mod leaves;
mod ops;

pub use bucket::Bucket;
pub use laws::{answer_laws, fold_laws, kept_laws, taken_laws};
pub use ops::Op;
