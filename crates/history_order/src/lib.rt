//! The one order of the calls of a closed table, made by turns on tables.
#![tactic(auto)]

mod calls;
mod columns;
mod finding;
mod laws;
mod leaves;
mod moves;
mod ready;
mod row_columns;
mod run_order;
mod tables;
mod turns;
mod unit_lists;
mod versions;

pub use laws::turns_reach;
pub use run_order::order;
pub use tables::Tables;
