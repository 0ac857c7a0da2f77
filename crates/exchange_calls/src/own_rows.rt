//! The rows of a seat that stand in no bucket's word.

ghost use Rattle.std.specs.Prelude.{◌≡◌, ◌+◌, ◌^◌, ◌<◌, ◌≤◌, ◌∷◌, ◌++◌, [], IfOk, drop, length, vec_capacity};
ghost use Rattle.std.specs.List.{range_with_len};
ghost use Rattle.exchange_model.specs.Goes.{alone, without};
ghost use Rattle.exchange_calls.specs.Rows.{first_of};

use std::alloc::{AllocError, Global};
use std::mem;

/// The free rows, of which the next is used first, and the others. All memory is taken at the opening.
#[derive(Drop)]
pub struct OwnRows {
    pub(crate) free: Vec<u64>,
    pub(crate) next: usize,
    pub(crate) kept: Vec<u64>,
    pub ghost inside: { next ≤ length free.items },
    pub ghost room: { length free.items + length kept.items ≤ vec_capacity free + next },
    pub ghost same_room: { length free.items + length kept.items ≤ vec_capacity kept + next },
}

impl OwnRows {
    ghost use Rattle.exchange_calls.specs.OwnRowsView.{free_of, kept_of};

    /// So many rows, the first of which has this number. All are free.
    ///
    /// The only error is want of memory.
    pub fn new(alloc: Global, first: u64, rows: u64) -> Result<OwnRows, AllocError>
        requires { first + rows < 2 ^ 64 }
        ensures free { IfOk result (λ r. free_of r ≡ range_with_len first rows) }
        ensures kept { IfOk result (λ r. kept_of r ≡ []) }
    {
        let mut free = Vec::with_capacity(alloc, rows as usize)?;
        for i in 0..rows {
            free.push_reserved(first + i);
        }
        let kept = Vec::with_capacity(alloc, rows as usize)?;
        Ok(OwnRows {
            free,
            next: 0,
            kept,
        })
    }

    /// The row that is written next, if one is free.
    #[inline(always)]
    pub fn first(&self) -> Option<u64>
        ensures { result ≡ first_of (free_of self.now) }
    {
        if self.next < self.free.len() {
            Some(self.free[self.next])
        } else {
            None
        }
    }

    /// The first free row was put in a bucket's word in place of this one.
    #[inline(always)]
    pub fn give(&mut self, row: u64)
        requires some { 1 ≤ length (free_of self.old) }
        ensures free { free_of self.new ≡ drop 1 (free_of self.old) }
        ensures kept { kept_of self.new ≡ kept_of self.old ++ row ∷ [] }
    {
        self.next += 1;
        self.kept.push_reserved(row);
    }

    /// No row is free. All others are looked for in the hold words.
    pub fn begin_scan(&mut self)
        requires none { free_of self.old ≡ [] }
        ensures free { free_of self.new ≡ kept_of self.old }
        ensures kept { kept_of self.new ≡ [] }
        ensures next { self.new.next ≡ 0 }
    {
        self.free.clear();
        self.next = 0;
        mem::swap(&mut self.free, &mut self.kept);
    }

    /// This row is held.
    pub fn keep(&mut self, row: u64)
        requires next { self.old.next ≡ 0 }
        ensures free { free_of self.new ≡ without row (free_of self.old) }
        ensures kept { kept_of self.new ≡ kept_of self.old ++ alone row (free_of self.old) }
        ensures next { self.new.next ≡ 0 }
    {
        let mut i = 0;
        for _turn in 0..self.free.len() {
            if self.free[i] == row {
                self.free.remove(i);
                self.kept.push_reserved(row);
            } else {
                i += 1;
            }
        }
    }
}
