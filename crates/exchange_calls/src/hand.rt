//! What a try has at hand of a row.

ghost use Rattle.std.specs.Prelude.{◌≤◌, vec_capacity};

use crate::marks::Mark;
use plain_map::Pair;
use std::alloc::{AllocError, Global};

/// The most items and entries of a row.
const MOST_ITEMS: usize = 16;

const MOST_ENTRIES: usize = 64;

/// The items and the entries of a row that was loaded, and the entries of the row that is made of it. All memory is
/// taken at the opening.
#[derive(Drop)]
pub struct Hand {
    pub items: Vec<Pair>,
    pub marks: Vec<Mark>,
    pub next: Vec<Mark>,
    pub ghost item_room: { 16 ≤ vec_capacity items },
    pub ghost mark_room: { 64 ≤ vec_capacity marks },
    pub ghost next_room: { 64 ≤ vec_capacity next },
}

impl Hand {
    /// Room for any row. The only error is want of memory.
    pub fn new(alloc: Global) -> Result<Hand, AllocError> {
        let items = Vec::with_capacity(alloc, MOST_ITEMS)?;
        let marks = Vec::with_capacity(alloc, MOST_ENTRIES)?;
        let next = Vec::with_capacity(alloc, MOST_ENTRIES)?;
        Ok(Hand { items, marks, next })
    }
}
