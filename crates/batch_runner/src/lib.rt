//! Batches of calls, each served by seats in threads on a table of its own.
#![tactic(auto)]

mod batch;
mod counts;
mod laws;
mod ordering;
mod outcomes;
mod text;
mod totals;
mod workers;
mod workspace;

pub use batch::{Asked, Batch, OpenBatch, close_counted, close_logged, open_batch};
pub use counts::go_on;
pub use laws::served_laws;
pub use text::{Untold, lines_text};
pub use totals::{Replies, Totals};
pub use workers::SeatWorker;
pub use workspace::Workspace;
