//! What a caller has at hand in every call, made once a table.
//!
//! Where words begin is worked out here, so that a step adds and no more.

ghost use Rattle.std.specs.Prelude.{◌≡◌, ◌<◌, ◌≤◌, ◌^◌};
ghost use Rattle.lasting_calls.specs.Starts.{HasStarts};
ghost use Rattle.lasting_calls.specs.declared.desk.TheConstants.{MOST_ROWS, SLOT_WORDS};

use hash_bits::Hashing;
use plain_map::{Key, Rules};
use step_counts::{BUCKET_HEAD_WORDS, ITEM_WORDS, OP_WORDS, SEAT_WORDS, Settings};

/// How many rows a bucket word can tell.
pub const ROW_LIMIT: u64 = 1 << 17;

/// How many classes an announcement can tell.
pub const CLASSES: u64 = 1 << 15;

/// The words of an op: its number is in the announcement.
pub const SLOT_WORDS: usize = OP_WORDS - 1;

/// The most rows of a seat.
pub const MOST_ROWS: u32 = 1 << 14;

/// Where the words lie, the hashing, and which seat it is.
#[derive(Clone, Copy)]
pub struct Desk {
    /// The table's settings.
    pub settings: Settings,
    /// The rules of a bucket.
    pub rules: Rules,
    /// How many rows each seat has.
    pub rows: u32,
    /// The caller's number; 0 for a reader.
    pub seat: u32,
    // The first word of the ops, of the bucket words and of the rows.
    ops: u64,
    buckets: u64,
    first_row: u64,
    // The words of a row, and which of them is the count.
    row_words: u64,
    count: u64,
    pub ghost within: { seat < settings.seats },
    pub ghost few: { rows ≤ MOST_ROWS },
    pub ghost starts: { HasStarts settings ops buckets first_row row_words count },
    pub ghost items: { rules.items ≡ settings.items },
    pub ghost depth: { rules.depth ≡ settings.depth },
}

impl Desk {
    ghost use Rattle.std.specs.Prelude.{◌+◌, ◌*◌};
    ghost use Rattle.step_counts.specs.StepCounts.{bucket_row_words};
    ghost use Rattle.plain_map.specs.PlainObject.{class_of};
    ghost use Rattle.lasting_calls.specs.declared.room.TheConstants.{MOST_WORDS};

    /// The desk of a seat at a table of these settings, with so many rows for each seat.
    pub fn new(settings: Settings, hashing: Hashing, rows: u32, seat: u32) -> Desk
        requires seat { seat < settings.seats }
        requires rows { rows ≤ MOST_ROWS }
        ensures settings { result.settings ≡ settings }
        ensures hashing { result.rules.hashing ≡ hashing }
        ensures rows { result.rows ≡ rows }
        ensures seat { result.seat ≡ seat }
    {
        let seats = settings.seats as u64;
        let ops = 3 * seats;
        let buckets = ops + SLOT_WORDS as u64 * seats;
        let count = 1 + SEAT_WORDS as u64 * seats;
        Desk {
            settings,
            rules: Rules {
                items: settings.items,
                depth: settings.depth,
                hashing,
            },
            rows,
            seat,
            ops,
            buckets,
            first_row: buckets + (1u64 << settings.depth),
            row_words: 1 + count + ITEM_WORDS as u64 * settings.items as u64,
            count,
        }
    }

    /// The word of a bucket.
    #[inline(always)]
    pub(crate) fn bucket(&self, bucket: u64) -> u64
        requires { bucket < 2 ^ 32 }
        ensures { result ≡ self.now.buckets + bucket }
    {
        self.buckets + bucket
    }

    /// The first word of a row.
    #[inline(always)]
    pub(crate) fn row(&self, row: u64) -> u64
        requires { row < 2 ^ 32 }
        ensures { result ≡ self.now.first_row + row * self.now.row_words }
    {
        self.first_row + row * self.row_words
    }

    /// The announcement of a seat, and the first word of its op.
    #[inline(always)]
    pub(crate) fn announced(&self, seat: u32) -> u64
        ensures { result ≡ seat }
    {
        seat as u64
    }

    #[inline(always)]
    pub(crate) fn op(&self, seat: u32) -> u64
        requires { seat < self.now.settings.seats }
        ensures value { result ≡ self.now.ops + SLOT_WORDS * seat }
        ensures few { result < 2 ^ 63 }
    {
        self.ops + SLOT_WORDS as u64 * seat as u64
    }

    /// The word that a seat wants, and its hold word.
    #[inline(always)]
    pub(crate) fn want(&self, seat: u32) -> u64
        ensures { result ≡ self.now.settings.seats + seat }
    {
        self.settings.seats as u64 + seat as u64
    }

    #[inline(always)]
    pub(crate) fn hold(&self, seat: u32) -> u64
        ensures { result ≡ 2 * self.now.settings.seats + seat }
    {
        2 * self.settings.seats as u64 + seat as u64
    }

    /// Which word of a row is the count.
    #[inline(always)]
    pub(crate) fn count(&self) -> u64
        ensures { result ≡ self.now.count }
    {
        self.count
    }

    /// How many words of a row stand at hand.
    #[inline(always)]
    pub(crate) fn hand_words(&self) -> usize
        ensures value { result ≡ bucket_row_words self.now.settings }
        ensures few { result ≤ MOST_WORDS }
    {
        BUCKET_HEAD_WORDS
            + ITEM_WORDS * self.settings.items as usize
            + SEAT_WORDS * self.settings.seats as usize
    }

    /// The bucket of a key.
    #[inline(always)]
    pub(crate) fn bucket_of(&self, key: &Key) -> u64
        ensures value { result ≡ class_of self.now.rules key.now }
        ensures few { result < 2 ^ self.now.settings.depth }
    {
        self.rules.class_of(key)
    }
}
