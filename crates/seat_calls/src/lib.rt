//! A seat's call as straight code over steps.
//!
//! **Words:** the seat's own announcement, done word, op rows, bucket rows, bucket words and directory rows are stored
//! by this seat alone; the root and the bucket words of the table change by exchanges.
//! **Keeps:** each step is the one that the definition of the core asks for, and leads to the state that it gives.
//! **Steps:** a lookup's are 6, one for each seat and seven for each item of its row; an update's are told by its
//! record.
//! **Why it ends:** a round has three looks at a bucket and two directory tries at most, and there are two rounds. No
//! loop waits for a word.
#![tactic(auto)]

mod announcing;
mod asking;
mod desk;
mod directories;
mod directory_tries;
mod finding;
mod last_looks;
mod limits;
mod loading;
mod looking;
mod lookups;
mod ops;
mod own;
mod room;
mod rounds;
mod rows;
mod runs;
mod steps;
mod storing;
mod tries;
mod updates;
mod words;

pub use desk::Desk;
pub use limits::MOST_WORDS;
pub use lookups::{glance, lookup};
pub use room::Room;
pub use steps::Steps;
pub use updates::update;
