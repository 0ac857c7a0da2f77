//! The directory that threads share: its words, its seats, and their calls.
#![tactic(auto)]

mod accesses;
mod blank;
mod caller;
mod closed;
mod directory;
mod glancing;
mod in_place;
mod laws;
mod reader;
mod rooms;
mod rule;
mod running;
mod seat;
mod view;
mod zeros;

pub use blank::Blank;
pub use caller::Caller;
pub use closed::{depth_in, leaves_in, pairs_in};
pub use directory::Directory;
pub use glancing::Glancing;
pub use in_place::ClosedTable;
pub use laws::order_laws;
pub use reader::Reader;
pub use running::Running;
pub use seat::Seat;
