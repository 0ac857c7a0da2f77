//! Calls that are made class by class: each class as it was asked.
#![tactic(auto)]

mod laws;

pub use laws::class_laws;
