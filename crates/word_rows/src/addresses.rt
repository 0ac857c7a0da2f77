//! The names of a table's words.

/// What a word of a table is. Seats, buckets, rows and the words of a row are numbered from 0.
#[derive(Clone, Copy, PartialEq, Eq)]
pub enum Address {
    /// The number of the directory row in use.
    Root,
    /// One more than the number of the op row that the seat announced last, or 0.
    Announcement(u64),
    /// How many calls the seat has finished.
    Done(u64),
    /// The number of the bucket's row in use.
    BucketWord(u64),
    /// A word of an op row: the row, and which one of its words.
    OpWord(u64, u64),
    /// A word of a bucket row.
    BucketRowWord(u64, u64),
    /// A word of a directory row.
    DirectoryWord(u64, u64),
}
