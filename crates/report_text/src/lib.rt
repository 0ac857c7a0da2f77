//! The lines of the report.
#![tactic(auto)]

mod calls;
mod flows;
mod head;
mod line;
mod order;
mod parts;
mod pieces;
mod session;
mod tail;
mod trial;

pub use calls::{outcome_text, pending_text, put_after};
pub use flows::{FlowCounts, FlowsHead, flows_block_text, flows_head_text};
pub use head::{head_text, put_batch};
pub use line::Line;
pub use order::order_text;
pub use parts::{Head, Tail};
pub use pieces::{Number, append, begin_line, end_line, put_named, put_number, put_word};
pub use session::session_text;
pub use tail::{input_text, put_input, tail_text};
pub use trial::{Trial, trial_text};
