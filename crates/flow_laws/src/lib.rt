//! What holds of the calls of several seats on a lasting table, where each key's calls are made by one seat, or each
//! class's.
#![tactic(auto)]

mod laws;

pub use laws::{class_order_laws, flow_order_laws, part_laws};
