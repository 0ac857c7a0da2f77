//! What calls mean key by key: orders that agree on each key's calls hold the same.
#![tactic(auto)]

mod by_key;

pub use by_key::{by_key_laws, room_laws};
