//! What helping gives in every run: what the rows, the tries and the rounds of the seats have of the announced updates.
#![tactic(auto)]

mod laws;

pub use laws::{announced_laws, help_laws, line_laws, published_row_laws, round_laws};
