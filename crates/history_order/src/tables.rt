//! The tables by which the turns are made: what the words tell, and how far the turns are.

use plain_map::MOST_SEATS;
use std::alloc::Global;

/// What is placed at once. A lookup is known by its call.
#[derive(Clone, Copy, PartialEq, Eq)]
pub(crate) enum Unit {
    Lookup,
    /// A bucket row that was published by an exchange of a bucket word.
    Row(u64),
    /// A directory row, by its place among the versions.
    Version(usize),
}

/// A directory row, with the first rows of its new leaves.
#[derive(Drop)]
pub(crate) struct Version {
    pub row: u64,
    /// By seat, whether one of its updates is new in these rows.
    pub callers: [bool; MOST_SEATS],
    pub firsts: Vec<u64>,
    /// The rows that these were made from.
    pub bases: Vec<u64>,
}

/// The bucket rows that were published by an exchange of a bucket word, and the columns that are written with each.
#[derive(Drop)]
pub(crate) struct Columns {
    /// Bucket by bucket, from its row in use back.
    pub rows: Vec<u64>,
    /// As in `Found`.
    pub bases: Vec<Option<u64>>,
    /// As in `Found`.
    pub next: Vec<Option<u64>>,
    /// As in `Found`.
    pub callers: Vec<[bool; MOST_SEATS]>,
    /// As in `Found`, of the calls of these rows alone.
    pub units: Vec<Vec<Option<Unit>>>,
}

/// What the words tell. No turn changes it.
#[derive(Drop)]
pub(crate) struct Found {
    /// By bucket row: the bucket row that it was made from, where it was exchanged.
    pub bases: Vec<Option<u64>>,
    /// By bucket row: the bucket row that was made from it by an exchange.
    pub next: Vec<Option<u64>>,
    /// By bucket row and seat, whether the seat's update is new in it, where the row was exchanged.
    pub callers: Vec<[bool; MOST_SEATS]>,
    /// By seat and number: the unit of the call. The first call has number 1, and place 0.
    pub units: Vec<Vec<Option<Unit>>>,
    /// The directory rows, from the opening on. Each was made from the one before it.
    pub versions: Vec<Version>,
}

/// How far the turns are.
#[derive(Drop)]
pub(crate) struct Progress {
    /// By bucket row.
    pub placed: Vec<bool>,
    /// By bucket row: its answered lookups that are not placed.
    pub looks: Vec<u64>,
    /// So many versions are placed: the first ones.
    pub latest: usize,
    /// Bucket rows without calls that may have their base.
    pub aside: Vec<u64>,
}

/// The tables of an order. They can be kept from one order to the next, which then fills the same memory. What they
/// hold between two orders tells nothing.
#[derive(Drop)]
pub struct Tables {
    pub(crate) found: Found,
    pub(crate) progress: Progress,
}

impl Tables {
    /// None yet. They become as large as an order needs.
    pub fn new(alloc: Global) -> Tables {
        Tables {
            found: Found {
                bases: Vec::new(alloc),
                next: Vec::new(alloc),
                callers: Vec::new(alloc),
                units: Vec::new(alloc),
                versions: Vec::new(alloc),
            },
            progress: Progress {
                placed: Vec::new(alloc),
                looks: Vec::new(alloc),
                latest: 0,
                aside: Vec::new(alloc),
            },
        }
    }
}
