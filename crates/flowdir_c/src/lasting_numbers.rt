//! What is told of a lasting table before it is opened.

ghost use Rattle.std.specs.Prelude.{◌≡◌};
ghost use Rattle.lasting_model.specs.Bounds.{update_bound};
ghost use Rattle.flowdir_c.specs.LastingAsked.{IsBoundOf, IsMemoryOf};

use crate::lasting_options::LastingOptions;
use hash_bits::Hashing;
use lasting_table::{Opening, rows_for, words_for};
use step_counts::{ITEM_WORDS, OP_WORDS, SEAT_WORDS, Settings};

// The most atomic steps of an update: a piece of a sweep, the announcement, two tries, and a look at a held row.
fn most_steps(settings: &Settings) -> u64
    ensures { result ≡ update_bound settings.now }
{
    let seats = u64::from(settings.seats);
    let others = seats - 1;
    let row = 2 + SEAT_WORDS as u64 * seats + ITEM_WORDS as u64 * u64::from(settings.items);
    let announced = OP_WORDS as u64 * others;
    let one_try = 1 + row + announced + row + 1;
    3 + 4 * others + OP_WORDS as u64 + 2 * one_try + 6
}

/// The most atomic steps of an update, or 0 where the options are out of their ranges.
#[unsafe(no_mangle)]
pub extern "C" fn flowdir_lasting_bound(options: &LastingOptions) -> u64
    ensures { IsBoundOf options.now result }
{
    match options.settings() {
        Some(settings) => most_steps(&settings),
        None => 0,
    }
}

/// The bytes of the words of such a table, or 0 where the options are out of their ranges.
#[unsafe(no_mangle)]
pub extern "C" fn flowdir_lasting_memory(options: &LastingOptions) -> u64
    ensures { IsMemoryOf options.now result }
{
    let Some(settings) = options.settings() else {
        return 0;
    };
    let opening = Opening {
        settings,
        hashing: Hashing::Mix(options.seed),
        rows: rows_for(&settings),
    };
    8 * words_for(&opening) as u64
}
