//! A caller's call of a table whose rows change owner at each exchange, as straight code over steps: lookups, copies of
//! a bucket, and updates.
//!
//! **Words:** who can hold stores its own want and hold words. An update stores a free row of its seat, and exchanges a
//! bucket word; with a lost try it stores the seat's op and announcement. A scan exchanges hold words of others. A
//! reader that cannot hold stores none.
//! **Keeps:** each step is the one that the definitions of `exchange_model` ask for, and leads to the state that they
//! give. A call ends with what its own steps tell, and what a seat keeps for itself is what they give it.
//! **Why it ends:** a lookup has two tries, and the row that is held then is written by nobody. A reader has its tries.
//! An update has three, each of which goes through one row and through the seats once. The row that it holds then has
//! its reply.
#![tactic(auto)]

mod announcing;
mod attempts;
mod changes;
mod copies;
mod desk;
mod hand;
mod held;
mod holding;
mod looks;
mod lookups;
mod marks;
mod ops;
mod own;
mod own_rows;
mod rows;
mod runs;
mod scans;
mod seat_state;
mod sizes;
mod steps;
mod tries;
mod updates;

pub use copies::{copy, look_at};
pub use desk::Desk;
pub use lookups::{lookup, peek};
pub use seat_state::SeatState;
pub use sizes::TableSizes;
pub use steps::Steps;
pub use updates::{Updated, update};
