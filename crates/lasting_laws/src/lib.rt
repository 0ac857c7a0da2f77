//! What holds in every run of a lasting table.
#![tactic(auto)]

mod laws;

pub use laws::{
    call_laws, count_laws, hold_laws, ordered_laws, peek_laws, pool_laws, rest_laws, shown_facts,
    step_laws, turn_laws, update_laws, word_laws,
};
