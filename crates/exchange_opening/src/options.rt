//! What a table is asked for, and the sizes that it gets by that.

ghost use Rattle.std.specs.Prelude.{◌≡◌, ◌↔◌, ◌+◌, ◌*◌, ◌^◌, ◌<◌, ◌≤◌, Err, IfOk, IsOk};
ghost use Rattle.hash_bits.specs.declared.hashing.Hashing.{Hashing};
ghost use Rattle.step_counts.specs.Ranges.{IsOutside, IsWithin};
ghost use Rattle.exchange_model.specs.Plans.{IsPlan};
ghost use Rattle.exchange_opening.specs.Openings.{plan_of};
ghost use Rattle.exchange_opening.specs.Options.{AreFit, AreSizesFor, IsLeastBits};

use exchange_calls::TableSizes;
use thiserror::Error;

/// The most seats.
pub const MOST_SEATS: u32 = 64;

/// The most readers that can hold a row.
pub const MOST_READERS: u32 = 64;

/// The most keys of a class.
pub const MOST_ITEMS: u32 = 16;

/// The most bits of a hash that tell a key's class.
pub const MOST_DEPTH: u32 = 20;

// The most bits of a bucket word that tell its row.
const MOST_ROW_BITS: u32 = 21;

/// What a table is asked for.
#[derive(Clone, Copy, Debug, PartialEq, Eq)]
pub struct Options {
    /// Who updates, 1 to 64.
    pub seats: u32,
    /// Readers that can hold a row, 0 to 64.
    pub readers: u32,
    /// The most keys of a class, 1 to 16.
    pub items: u32,
    /// The bits of a hash that tell a key's class, 0 to 20.
    pub depth: u32,
}

/// The first number that is out of its range.
#[derive(Clone, Copy, Debug, PartialEq, Eq, Error)]
pub enum OptionFault {
    /// The number of seats is not 1 to 64.
    #[error("the number of seats is not 1 to 64")]
    Seats,
    /// There are more than 64 readers that can hold.
    #[error("the number of readers that can hold is not 0 to 64")]
    Readers,
    /// The number of items is not 1 to 16.
    #[error("the number of items is not 1 to 16")]
    Items,
    /// The depth is above 20.
    #[error("the depth is not 0 to 20")]
    Depth,
}

/// The sizes of a table with these options, if each is in its range.
///
/// Faults: `Seats`, `Readers`, `Items`, `Depth`, each exactly where that number is the first, in this order, that is
/// out of its range.
pub fn sizes_for(options: Options) -> Result<TableSizes, OptionFault>
    ensures ok { IsOk result ↔ AreFit options }
    ensures sizes { IfOk result (AreSizesFor options) }
    ensures plan { IfOk result (λ sizes. (hashing : Hashing) → IsPlan (plan_of sizes hashing)) }
    ensures seats { (result ≡ Err OptionFault.Seats) ↔ IsOutside 1 MOST_SEATS options.seats }
    ensures readers { (result ≡ Err OptionFault.Readers)
        ↔ (IsWithin 1 MOST_SEATS options.seats × IsOutside 0 MOST_READERS options.readers) }
    ensures items { (result ≡ Err OptionFault.Items)
        ↔ (IsWithin 1 MOST_SEATS options.seats × IsWithin 0 MOST_READERS options.readers
        × IsOutside 1 MOST_ITEMS options.items) }
    ensures depth { (result ≡ Err OptionFault.Depth)
        ↔ (IsWithin 1 MOST_SEATS options.seats × IsWithin 0 MOST_READERS options.readers
        × IsWithin 1 MOST_ITEMS options.items × IsOutside 0 MOST_DEPTH options.depth) }
{
    if options.seats < 1 || options.seats > MOST_SEATS {
        return Err(OptionFault::Seats);
    }
    if options.readers > MOST_READERS {
        return Err(OptionFault::Readers);
    }
    if options.items < 1 || options.items > MOST_ITEMS {
        return Err(OptionFault::Items);
    }
    if options.depth > MOST_DEPTH {
        return Err(OptionFault::Depth);
    }
    Ok(sized(options))
}

// The sizes of a table with these options.
fn sized(options: Options) -> TableSizes
    requires { AreFit options }
    ensures sizes { AreSizesFor options result }
    ensures plan { (hashing : Hashing) → IsPlan (plan_of result hashing) }
{
    let spare = 2 * (options.seats + options.readers);
    let rows = options.seats * spare + buckets_of(options.depth);
    TableSizes {
        seats: options.seats,
        readers: options.readers,
        items: options.items,
        depth: options.depth,
        spare,
        row_bits: bits_for(rows),
    }
}

// How many classes so many bits tell apart.
fn buckets_of(depth: u32) -> u32
    requires { depth ≤ 20 }
    ensures value { result ≡ 2 ^ depth }
    ensures few { result ≤ 2 ^ 20 }
{
    1 << depth
}

// The least number of bits that tells so many rows apart.
fn bits_for(rows: u32) -> u32
    requires { rows ≤ 2 ^ 21 }
    ensures least { IsLeastBits rows result }
    ensures few { result ≤ 21 }
{
    for bits in 0..MOST_ROW_BITS {
        if rows <= 1 << bits {
            return bits;
        }
    }
    MOST_ROW_BITS
}
