//! What is kept from one batch to the next, so that a batch takes little memory anew.

use history_order::Tables;
use shared_table::{Blank, ClosedTable};
use std::alloc::Global;

/// Memory that batches use, one after the other. What it holds between them tells nothing.
#[derive(Drop)]
pub struct Workspace {
    /// The words of a table.
    pub(crate) blank: Blank,
    /// The tables of an order.
    pub(crate) tables: Tables,
}

// A block of so many words is larger than any that a batch commonly takes.
const LARGE_BLOCK: usize = 1 << 20;

// So many words are about those of the table of a full batch at the default settings.
const TABLE_WORDS: usize = 1 << 16;

impl Workspace {
    /// Makes the C library ready to give large blocks, and the words that the first tables are copied from. Where there
    /// is no memory for either, nothing is lost.
    ///
    /// The library gives a large block back to the system as soon as it is dropped, so that the next one has to be
    /// mapped and cleared page by page, and learns from the first such block to keep those of its size. So one is taken
    /// here, left unused and dropped.
    pub fn new(alloc: Global) -> Workspace {
        if let Ok(block) = Vec::with_capacity(alloc, LARGE_BLOCK) {
            give_back(block);
        }
        let mut blank = Blank::new(alloc);
        blank.prepare(TABLE_WORDS);
        Workspace {
            blank,
            tables: Tables::new(alloc),
        }
    }

    /// Takes a closed table of which nothing more is wanted, so that its words serve the next one.
    pub fn keep(&mut self, closed: ClosedTable) {
        self.blank.keep(closed);
    }
}

// Drops a block. It is a call of its own, since a compiler may leave out a block that is taken and dropped at once.
#[inline(never)]
fn give_back(_block: Vec<u64>) {}
