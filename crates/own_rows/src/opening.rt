//! The rows of a seat at the opening of its table.

ghost use Rattle.std.specs.Prelude.{◌+◌, ◌^◌, ◌<◌, ◌≤◌, IfOk};
ghost use Rattle.own_rows.specs.Rows.{HasOpened};
ghost use Rattle.own_rows.specs.Opening.{AreFrom, AreOpened};

use crate::rows::OwnRows;
use std::alloc::{AllocError, Global};

// So many numbers from this one on.
fn numbers_from(alloc: Global, first: u32, count: usize) -> Result<Vec<u32>, AllocError>
    requires few { first + count ≤ 2 ^ 24 }
    ensures { IfOk result (AreFrom first count) }
{
    let mut all = vec![in alloc; 0u32; count]?;
    for i in 0..count {
        all[i] = first + i as u32;
    }
    Ok(all)
}

// Each number alone in a ring.
fn unlinked(alloc: Global, first: u32, rows: u32) -> Result<OwnRows, AllocError>
    requires few { first + rows + 4 ≤ 2 ^ 24 }
    ensures { IfOk result (AreOpened first rows 0 0 0 0) }
{
    let count = rows as usize + 4;
    Ok(OwnRows {
        first,
        rows,
        next: numbers_from(alloc, first, count)?,
        back: numbers_from(alloc, first, count)?,
        buckets: vec![in alloc; 0u32; count]?,
        generations: vec![in alloc; 0u64; count]?,
        lost: vec![in alloc; 0u64; count]?,
        sweeps: 1,
    })
}

impl OwnRows {
    /// The rows of a seat as they are opened: the first `named` of them stand for each seats-th bucket.
    ///
    /// The only error is want of memory.
    pub fn new(
        alloc: Global,
        first: u32,
        rows: u32,
        named: u32,
        seats: u32,
        seat: u32,
    ) -> Result<OwnRows, AllocError>
        requires few { first + rows + 4 ≤ 2 ^ 24 }
        requires named { named ≤ rows }
        requires seat { seat < seats }
        requires seats { seats ≤ 8 }
        ensures { IfOk result (HasOpened first rows named seats seat) }
    {
        let mut own = unlinked(alloc, first, rows)?;
        for i in 0..named {
            own.name_new(first + i, i * seats + seat);
        }
        for i in named..rows {
            own.free_new(first + i);
        }
        Ok(own)
    }
}
