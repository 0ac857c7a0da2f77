//! How large a table is.

ghost use Rattle.std.specs.Prelude.{◌≤◌};

/// How many seats, readers that can hold, keys of a class and bits of a class a table has, and how many rows each seat.
#[derive(Clone, Copy)]
pub struct TableSizes {
    /// 1 to 64.
    pub seats: u32,
    /// How many readers can hold, at most 64.
    pub readers: u32,
    /// 1 to 16.
    pub items: u32,
    /// 0 to 20.
    pub depth: u32,
    /// How many rows each seat has beside those in the buckets.
    pub spare: u32,
    /// How many bits of a bucket word tell its row, at most 21.
    pub row_bits: u32,
    pub ghost few_seats: { seats ≤ 64 },
    pub ghost few_readers: { readers ≤ 64 },
    pub ghost few_items: { items ≤ 16 },
    pub ghost low: { depth ≤ 20 },
    pub ghost few_spare: { spare ≤ 256 },
    pub ghost few_bits: { row_bits ≤ 21 },
}
