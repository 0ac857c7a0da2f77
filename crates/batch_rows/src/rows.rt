//! The rows of each seat.

ghost use Rattle.std.specs.Prelude.{◌≡◌, ℕ, ◌^◌, ◌<◌, All, IfOk, List, length};
ghost use Rattle.std.specs.Option.{ForSome};
ghost use Rattle.plain_map.specs.declared.calls.Call.{Call as ACall};
ghost use Rattle.word_rows.specs.Shape.{AreBelow};
ghost use Rattle.table_model.specs.Needs.{batch_rows_of};
ghost use Rattle.batch_rows.specs.BatchRows.{rows_of, updates_in_calls};
ghost use Rattle.batch_rows.specs.Demands.{IsDemandOf};
ghost use Rattle.batch_rows.specs.Depths.{IsTableFor};
ghost use Rattle.batch_rows.specs.declared.rows.TheConstants.{CALL_LIMIT};

use crate::demand::Demand;
use crate::splits::splits_of;
use hash_bits::Hashing;
use plain_map::{Call, Pair, Rules};
use std::alloc::{AllocError, Global};
use step_counts::{SeatRows, Settings, automatic_rows, need};

/// A seat makes fewer calls of a batch, so that each number of its rows is below 2^32.
pub const CALL_LIMIT: usize = 1 << 30;

/// The sizes of the table of a batch.
#[derive(Drop)]
pub struct Sizes {
    pub settings: Settings,
    /// Of each seat, seat 0 first.
    pub rows: Vec<SeatRows>,
}

/// The sizes of the table of a batch that begins with these pairs and asks this of its table, where a table of any
/// batch would have these settings.
///
/// `given` has the rows of every seat, and then the settings stay. With `None` the greatest depth is what the keys of
/// the batch can need, and each seat gets the rows that suffice for its share, so that no call is refused: these are at
/// most the automatic ones, and far fewer where the keys of the batch can split few buckets. The only error is want of
/// memory.
pub fn sizes_for(
    alloc: Global,
    settings: &Settings,
    hashing: Hashing,
    given: Option<SeatRows>,
    first: &[Pair],
    demand: &Demand,
) -> Result<Sizes, AllocError>
    requires given { ForSome given (AreBelow (2 ^ 32)) }
    requires few { All (λ updates. updates < CALL_LIMIT) demand.now.updates.items }
    ensures table { IfOk result (λ sizes. (calls : List (ℕ × ACall)) (shares : List (List (ℕ × ACall))) →
        IsDemandOf calls shares demand.now → IsTableFor settings.now hashing given first.now calls sizes.settings) }
    ensures rows { IfOk result (λ sizes. (calls : List (ℕ × ACall)) (shares : List (List (ℕ × ACall))) →
        IsDemandOf calls shares demand.now →
        sizes.rows.items ≡ rows_of sizes.settings hashing given first.now calls shares) }
    ensures below { IfOk result (λ sizes. All (AreBelow (2 ^ 32)) sizes.rows.items) }
{
    if let Some(given) = given {
        let rows = vec![in alloc; given; demand.updates.len()]?;
        return Ok(Sizes {
            settings: *settings,
            rows,
        });
    }
    let rules = Rules {
        items: settings.items,
        depth: settings.depth,
        hashing,
    };
    let found = splits_of(alloc, &rules, settings.start, first, &demand.inserted)?;
    // the lesser depth is between the starting one and the greatest
    let made = Settings::new(settings.seats, settings.items, found.depth, settings.start);
    let Ok(lesser) = made else { unreachable!() };
    let mut rows = Vec::with_capacity(alloc, demand.updates.len())?;
    for updates in &demand.updates {
        rows.push(batch_rows(&lesser, *updates, found.splits))?;
    }
    Ok(Sizes {
        settings: lesser,
        rows,
    })
}

/// The rows that suffice a seat for so many updates, where a bucket is split so often at most.
pub fn batch_rows(settings: &Settings, updates: u32, splits: u64) -> SeatRows
    requires updates { updates < CALL_LIMIT }
    requires splits { splits < 2 ^ 32 }
    ensures rows { result ≡ batch_rows_of settings.now updates splits }
    ensures below { AreBelow (2 ^ 32) result }
{
    let most = automatic_rows(settings, updates);
    let leaves = need(settings).bucket_words;
    let updates = u64::from(updates);
    SeatRows {
        op_rows: updates,
        bucket_rows: most
            .bucket_rows
            .min((2 * updates).min(updates + 1) + 2 * splits + leaves),
        bucket_words: most.bucket_words.min(2 * splits + leaves),
        directory_rows: most.directory_rows.min(updates.min(splits + 1)),
    }
}

/// How many of these calls are updates.
pub fn updates_of(calls: &[(u32, Call)]) -> u32
    requires few { length calls.now < CALL_LIMIT }
    ensures count { result ≡ updates_in_calls calls.now }
    ensures few { result < CALL_LIMIT }
{
    let mut updates = 0;
    for asked in calls {
        if !matches!(asked.1, Call::Lookup(_)) {
            updates += 1;
        }
    }
    updates
}
