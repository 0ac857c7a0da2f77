//! What a seat of a lasting table knows of its own rows, and of nobody else's.
//!
//! A row is free, or it was published in the word of a bucket. A sweep finds which of the published ones are free
//! again.
//! The lists of rows are rings of links in one array. So each step on them takes the same time, however many rows there
//! are, and nothing here takes memory after `new`.
#![tactic(auto)]

mod opening;
mod rows;

pub use rows::OwnRows;
