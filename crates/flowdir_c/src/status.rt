//! The statuses of calls.

/// It was done.
pub(crate) const OK: u32 = 0;

/// Memory is wanting; nothing happened.
pub(crate) const MEMORY: u32 = 1;

/// A number is out of its range; nothing happened.
pub(crate) const BAD: u32 = 2;

/// The first pairs of a class are more than it has room for; nothing happened.
pub(crate) const NO_ROOM: u32 = 3;

/// The rows of the seat are used up; nothing happened.
pub(crate) const FULL: u32 = 4;

/// No seat is left, or a seat or a reader is out; nothing happened.
pub(crate) const BUSY: u32 = 5;

/// Each try of a peek was disturbed.
pub(crate) const AGAIN: u32 = 6;
