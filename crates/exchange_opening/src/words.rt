//! The words that a table opens with.

ghost use Rattle.std.specs.Prelude.{◌≡◌, ◌+◌, ◌*◌, ◌^◌, ◌≤◌, IfOk, replicate};
ghost use Rattle.exchange_model.specs.Words.{buckets_start, most_words, word_count};
ghost use Rattle.hash_bits.specs.declared.hashing.Hashing.{Hashing};
ghost use Rattle.exchange_opening.specs.Openings.{IsOpened, plan_of};

use exchange_calls::TableSizes;
use std::alloc::{AllocError, Global};
use step_counts::{ITEM_WORDS, OP_WORDS};

// The words of an op, whose number is in its announcement; and those of an entry: whose it is with its number, and the
// reply.
const SLOT_WORDS: usize = OP_WORDS - 1;

pub(crate) const ENTRY_WORDS: usize = 2;

// How many buckets there are.
fn buckets_in(sizes: TableSizes) -> usize
    ensures value { result ≡ 2 ^ sizes.depth }
    ensures few { result ≤ 2 ^ 20 }
{
    1 << sizes.depth
}

// How many rows the seats have.
fn seat_rows(sizes: TableSizes) -> usize
    ensures value { result ≡ sizes.seats * sizes.spare }
    ensures few { result ≤ 2 ^ 14 }
{
    sizes.seats as usize * sizes.spare as usize
}

// How many words a row has.
fn row_words(sizes: TableSizes) -> usize
    ensures value { (hashing : Hashing) → result ≡ most_words (plan_of sizes hashing) }
    ensures few { result ≤ 2 ^ 8 }
{
    1 + ITEM_WORDS * sizes.items as usize + ENTRY_WORDS * sizes.seats as usize
}

// How many words stand before those of the buckets.
fn first_bucket(sizes: TableSizes) -> usize
    ensures value { (hashing : Hashing) → result ≡ buckets_start (plan_of sizes hashing) }
    ensures few { result ≤ 2 ^ 10 }
{
    let seats = sizes.seats as usize;
    1 + seats + 2 * (seats + sizes.readers as usize) + SLOT_WORDS * seats
}

/// How many words of 8 bytes such a table has.
pub fn words_for(sizes: TableSizes) -> usize
    ensures value { (hashing : Hashing) → result ≡ word_count (plan_of sizes hashing) }
    ensures few { result ≤ 2 ^ 30 }
{
    let buckets = buckets_in(sizes);
    first_bucket(sizes) + buckets + (seat_rows(sizes) + buckets) * row_words(sizes)
}

// So many words, which are all 0.
fn zeros(alloc: Global, count: usize) -> Result<Vec<u64>, AllocError>
    ensures { IfOk result (λ words. words.items ≡ replicate count 0) }
{
    let mut words = Vec::with_capacity(alloc, count)?;
    words.resize(count, 0)?;
    Ok(words)
}

// Names the first row of each bucket in its word, with the first generation.
fn name_rows(words: &mut [u64], sizes: TableSizes)
    requires blank { (hashing : Hashing) → words.old ≡ replicate (word_count (plan_of sizes hashing)) 0 }
    ensures { (hashing : Hashing) → IsOpened (plan_of sizes hashing) words.new }
{
    let first = first_bucket(sizes);
    let born = (1u64 << sizes.row_bits) + seat_rows(sizes) as u64;
    for bucket in 0..buckets_in(sizes) {
        words[first + bucket] = born + bucket as u64;
    }
}

/// The words that a table of these sizes opens with, whatever its hashing: each bucket names its first row, and all
/// other words are 0.
///
/// The only error is want of memory, and then nothing is kept. All memory is taken at once, before a word is written.
pub fn opening_words(alloc: Global, sizes: TableSizes) -> Result<Vec<u64>, AllocError>
    ensures { IfOk result (λ words. (hashing : Hashing) → IsOpened (plan_of sizes hashing) words.items) }
{
    let mut words = zeros(alloc, words_for(sizes))?;
    name_rows(&mut words, sizes);
    Ok(words)
}
