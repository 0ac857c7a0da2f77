//! What a command line asks for: the words after the program's name, read as a plan.
#![tactic(auto)]

mod plan;
mod plays;
mod words;
mod wrong;

pub use plan::{Mode, Plan};
pub use plays::{Schedule, Segment, Stops};
pub use words::{WordsFault, command_line_laws, read_words, wrong_word};
pub use wrong::{Choice, WrongWord};
