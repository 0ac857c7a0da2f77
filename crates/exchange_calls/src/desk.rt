//! What a caller has at hand in every call, made once a table.
//!
//! Where words begin is worked out here, so that a step adds and no more.

ghost use Rattle.std.specs.Prelude.{◌≡◌, ◌+◌, ◌-◌, ◌<◌, ◌≤◌, ◌^◌};
ghost use Rattle.exchange_calls.specs.Starts.{HasStarts};

use crate::sizes::TableSizes;
use hash_bits::Hashing;
use plain_map::{Key, Rules};
use step_counts::{ITEM_WORDS, OP_WORDS};

/// The words of an op: its number is in the announcement.
pub const SLOT_WORDS: usize = OP_WORDS - 1;

/// Words of an entry: whose it is and its number, and its reply.
pub const ENTRY_WORDS: usize = 2;

/// How many classes an announcement can tell.
pub const CLASSES: u64 = 1 << 20;

/// How many counts of items, and of entries, a head can tell.
pub const COUNTS: u64 = 256;

/// Where the words lie, the hashing, and which caller it is.
#[derive(Clone, Copy)]
pub struct Desk {
    /// The table's sizes.
    pub sizes: TableSizes,
    /// The rules of a bucket.
    pub rules: Rules,
    /// The number of the caller's hold word. That of a seat is its own; readers that can hold come behind the seats.
    pub holder: u32,
    // The first of the want words, the hold words, the ops, the bucket words and the rows.
    wants: u64,
    holds: u64,
    ops: u64,
    buckets: u64,
    first_row: u64,
    row_words: u64,
    // The bits of a bucket word that tell its row, and the last generation that it has room for.
    row_mask: u64,
    last: u64,
    pub ghost within: { holder < sizes.seats + sizes.readers },
    pub ghost starts: { HasStarts sizes wants holds ops buckets first_row row_words },
    pub ghost mask: { row_mask ≡ 2 ^ sizes.row_bits - 1 },
    pub ghost lasts: { last ≡ 2 ^ (64 - sizes.row_bits) - 1 },
    pub ghost some_room: { 1 ≤ rules.items },
    pub ghost items: { rules.items ≡ sizes.items },
    pub ghost depth: { rules.depth ≡ sizes.depth },
}

// 2 to this power.
fn power(bits: u32) -> u64
    requires { bits ≤ 21 }
    ensures value { result ≡ 2 ^ bits }
    ensures some { 1 ≤ result }
    ensures few { result ≤ 2 ^ 21 }
{
    1 << bits
}

// A word without its first bits, whose other bits are all 1.
fn ones(bits: u32) -> u64
    requires { bits ≤ 21 }
    ensures { result ≡ 2 ^ (64 - bits) - 1 }
{
    u64::MAX >> bits
}

impl Desk {
    ghost use Rattle.std.specs.Prelude.{◌*◌, ◌%◌, ◌/◌, ◌==◌, min};
    ghost use Rattle.plain_map.specs.PlainObject.{class_of};

    /// The desk of a caller at a table of these sizes.
    pub fn new(sizes: TableSizes, hashing: Hashing, holder: u32) -> Desk
        requires holder { holder < sizes.seats + sizes.readers }
        requires some_room { 1 ≤ sizes.items }
        ensures sizes { result.sizes ≡ sizes }
        ensures hashing { result.rules.hashing ≡ hashing }
        ensures holder { result.holder ≡ holder }
    {
        let seats = sizes.seats as u64;
        let holders = seats + sizes.readers as u64;
        let wants = 1 + seats;
        let holds = wants + holders;
        let ops = holds + holders;
        let buckets = ops + SLOT_WORDS as u64 * seats;
        Desk {
            sizes,
            rules: Rules {
                items: sizes.items,
                depth: sizes.depth,
                hashing,
            },
            holder,
            wants,
            holds,
            ops,
            buckets,
            first_row: buckets + power(sizes.depth),
            row_words: 1 + ITEM_WORDS as u64 * sizes.items as u64 + ENTRY_WORDS as u64 * seats,
            row_mask: power(sizes.row_bits) - 1,
            last: ones(sizes.row_bits),
        }
    }

    /// How many there are who can hold a row.
    #[inline(always)]
    pub(crate) fn holders(&self) -> u32
        ensures value { result ≡ self.now.sizes.seats + self.now.sizes.readers }
        ensures few { result ≤ 128 }
    {
        self.sizes.seats + self.sizes.readers
    }

    /// The word that counts the announcements under way.
    #[inline(always)]
    pub(crate) fn pending(&self) -> u64
        ensures { result ≡ 0 }
    {
        0
    }

    /// The announcement of a seat.
    #[inline(always)]
    pub(crate) fn announced(&self, seat: u32) -> u64
        ensures { result ≡ 1 + seat }
    {
        1 + seat as u64
    }

    /// The first word of the op of a seat.
    #[inline(always)]
    pub(crate) fn op(&self, seat: u32) -> u64
        requires { seat < self.now.sizes.seats }
        ensures value { result ≡ self.now.ops + SLOT_WORDS * seat }
        ensures few { result < 2 ^ 63 }
    {
        self.ops + SLOT_WORDS as u64 * seat as u64
    }

    /// The word of what a holder wants, and its hold word.
    #[inline(always)]
    pub(crate) fn want(&self, holder: u32) -> u64
        ensures { result ≡ self.now.wants + holder }
    {
        self.wants + holder as u64
    }

    #[inline(always)]
    pub(crate) fn hold(&self, holder: u32) -> u64
        ensures { result ≡ self.now.holds + holder }
    {
        self.holds + holder as u64
    }

    /// The word of a bucket.
    #[inline(always)]
    pub(crate) fn bucket(&self, bucket: u64) -> u64
        requires { bucket < 2 ^ 32 }
        ensures { result ≡ self.now.buckets + bucket }
    {
        self.buckets + bucket
    }

    /// The first word of a row.
    #[inline(always)]
    pub(crate) fn row(&self, row: u64) -> u64
        requires { row < 2 ^ 32 }
        ensures value { result ≡ self.now.first_row + row * self.now.row_words }
        ensures few { result < 2 ^ 62 }
    {
        self.first_row + row * self.row_words
    }

    /// The row in a bucket word.
    #[inline(always)]
    pub(crate) fn row_in(&self, word: u64) -> u64
        ensures value { result ≡ word % 2 ^ self.now.sizes.row_bits }
        ensures few { result < 2 ^ 21 }
    {
        word & self.row_mask
    }

    /// Whether a bucket word has the last generation.
    #[inline(always)]
    pub(crate) fn is_last(&self, word: u64) -> bool
        ensures { result ≡ (word / 2 ^ self.now.sizes.row_bits == 2 ^ (64 - self.now.sizes.row_bits) - 1) }
    {
        word >> self.sizes.row_bits == self.last
    }

    /// The bucket word that comes after this one, with this row.
    #[inline(always)]
    pub(crate) fn next_word(&self, word: u64, row: u64) -> u64
        requires row { row < 2 ^ self.now.sizes.row_bits }
        requires last { word / 2 ^ self.now.sizes.row_bits + 1 < 2 ^ (64 - self.now.sizes.row_bits) }
        ensures { result ≡ (word / 2 ^ self.now.sizes.row_bits + 1) * 2 ^ self.now.sizes.row_bits + row }
    {
        let old = self.row_in(word);
        let base = word - old;
        base + (self.row_mask + 1 + row)
    }

    /// A count of items as it is used: one that was disturbed is cut to the room of a bucket.
    #[inline(always)]
    pub(crate) fn count_in(&self, head: u64) -> u64
        ensures value { result ≡ min (head % 2 ^ 8) self.now.sizes.items }
        ensures few { result ≤ self.now.sizes.items }
    {
        (head % COUNTS).min(self.sizes.items as u64)
    }

    /// And one of entries.
    #[inline(always)]
    pub(crate) fn entries_in(&self, head: u64) -> u64
        ensures value { result ≡ min (head / 2 ^ 8 % 2 ^ 8) self.now.sizes.seats }
        ensures few { result ≤ self.now.sizes.seats }
    {
        (head / COUNTS % COUNTS).min(self.sizes.seats as u64)
    }

    /// The bucket of a key.
    #[inline(always)]
    pub(crate) fn bucket_of(&self, key: &Key) -> u64
        ensures value { result ≡ class_of self.now.rules key.now }
        ensures few { result < 2 ^ self.now.sizes.depth }
    {
        self.rules.class_of(key)
    }
}
