//! Where each call of a run is answered, and the one order of every run that is closed.
#![tactic(auto)]

mod laws;

pub use laws::{end_laws, lookup_laws, one_order_laws, reopen_laws, reply_laws, warrant_laws};
