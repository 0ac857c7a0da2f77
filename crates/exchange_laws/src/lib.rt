//! What holds in every run of a table whose rows change owner at each exchange.
#![tactic(auto)]

mod laws;

pub use laws::{
    bound_laws, call_laws, held_laws, kept_laws, load_laws, look_laws, order_laws, peek_laws,
    pending_laws, place_laws, progress_laws, rest_laws, row_laws, spent_laws, try_laws, turn_laws,
    word_laws,
};
