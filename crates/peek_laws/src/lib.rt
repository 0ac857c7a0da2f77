//! What readers without a seat see.
#![tactic(auto)]

mod laws;

pub use laws::glance_laws;
