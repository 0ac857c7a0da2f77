//! How often one may ask, and a seat announce.

/// Who can hold asks for a row less than so many times.
pub const MOST_ASKED: u64 = 1 << 62;

/// The numbers of a seat's announcements are below it, and one more.
pub const MOST_ANNOUNCED: u64 = 1 << 43;
