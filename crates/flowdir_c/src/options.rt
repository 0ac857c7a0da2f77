//! What a table is opened with, for C.

ghost use Rattle.std.specs.Prelude.{◌≡◌, ◌^◌, IfSome, None, Some};
ghost use Rattle.word_rows.specs.Shape.{AreBelow};
ghost use Rattle.flowdir_c.specs.Asked.{AreOptions, rows_of};
ghost use Rattle.flowdir_c.specs.Fit.{AreFit};

use crate::opening::rows_in_range;
use step_counts::{SeatRows, Settings};

/// What a table is opened with.
#[repr(C)]
#[derive(Clone, Copy)]
pub struct Options {
    /// 1 to 8.
    pub seats: u32,
    /// Room of a class of keys, 1 to 16.
    pub items: u32,
    /// Hash bits that tell classes apart, 0 to 12.
    pub depth: u32,
    /// The depth that the table begins with, 0 to the greatest.
    pub start: u32,
    /// Of the hash.
    pub seed: u64,
    /// Of each seat.
    pub rows: Rows,
}

/// The rows of each seat.
#[repr(C)]
#[derive(Clone, Copy)]
pub struct Rows {
    pub op_rows: u64,
    pub bucket_rows: u64,
    pub bucket_words: u64,
    pub directory_rows: u64,
}

impl Options {
    /// The settings, if they are in their ranges.
    pub(crate) fn settings(&self) -> Option<Settings>
        ensures { AreOptions self.now result }
    {
        Settings::new(self.seats, self.items, self.depth, self.start).ok()
    }

    /// The settings and the rows of each seat, if all are in their ranges.
    pub(crate) fn fit(&self) -> Option<(Settings, SeatRows)>
        ensures settings { IfSome result (λ it. AreOptions self.now (Some it.0)) }
        ensures rows { IfSome result (λ it. it.1 ≡ rows_of self.now.rows) }
        ensures small { IfSome result (λ it. AreBelow (2 ^ 32) it.1) }
        ensures fit { IfSome result (λ _. AreFit self.now) }
        ensures unfit { result ≡ None → AreFit self.now → ⊥ }
    {
        let settings = self.settings()?;
        let rows = rows_in_range(self.rows.to_rows())?;
        Some((settings, rows))
    }
}

impl Rows {
    /// The rows as the table has them.
    pub(crate) fn to_rows(&self) -> SeatRows
        ensures { result ≡ rows_of self.now }
    {
        SeatRows {
            op_rows: self.op_rows,
            bucket_rows: self.bucket_rows,
            bucket_words: self.bucket_words,
            directory_rows: self.directory_rows,
        }
    }

    /// Rows as C has them.
    pub(crate) fn of_rows(rows: &SeatRows) -> Rows
        ensures { rows_of result ≡ rows.now }
    {
        Rows {
            op_rows: rows.op_rows,
            bucket_rows: rows.bucket_rows,
            bucket_words: rows.bucket_words,
            directory_rows: rows.directory_rows,
        }
    }
}
