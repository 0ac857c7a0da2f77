//! Where each word of a table lies.
//!
//! The words stand in this order: the root, an announcement for each seat, a done word for each seat, bucket words,
//! op rows, bucket rows, directory rows. Of the bucket words, the bucket rows and the directory rows the opening has
//! the first, and of all four kinds each seat has a range of its own, in the order of the seats.

ghost use Rattle.std.specs.Prelude.{◌≡◌, ◌+◌, ◌*◌, ◌^◌, ◌<◌, ◌↔◌, IsTrue, take};
ghost use Rattle.word_rows.specs.Shape.{AreBelow, IsShape, by_kind, count_of, number_after, record_limit};

use crate::Address;
use plain_map::MOST_SEATS;
use step_counts::{DIRECTORY_HEAD_WORDS, OP_WORDS, SeatRows, Settings, bucket_row_words};

/// The word numbers of one table.
#[derive(Clone, Copy)]
pub struct Layout {
    settings: Settings,
    /// Of each seat; from the last seat on they are none.
    ranges: [SeatRows; MOST_SEATS],
    counts: SeatRows,
    pub ghost shaped: { IsShape (record {
      settings = settings;
      ranges = take settings.seats ranges;
      limit = record_limit;
    }) },
    ghost counted: { counts ≡ by_kind (count_of (record {
      settings = settings;
      ranges = take settings.seats ranges;
      limit = record_limit;
    })) },
}

impl Layout {
    ghost use Rattle.std.specs.Prelude.{length};
    ghost use Rattle.std.specs.List.{All};
    ghost use Rattle.step_counts.specs.StepCounts.{directory_row_words};
    ghost use Rattle.word_rows.specs.Shape.{first_of, sizes_of};
    ghost use Rattle.word_rows.specs.Places.{
      Root,
      Announcement,
      Done,
      BucketWord,
      OpWord,
      BucketRowWord,
      DirectoryWord,
      IsAddress,
      place,
      word_count,
      bucket_words_start,
      op_rows_start,
      bucket_rows_start,
      directory_rows_start,
    };
    ghost use Rattle.word_rows.specs.LayoutView.{shape_of};

    /// The layout of a table of these settings, whose seats have ranges of these sizes.
    pub fn new(settings: &Settings, rows: &[SeatRows]) -> Layout
        requires each_seat { length rows.now ≡ settings.now.seats }
        requires small { All (AreBelow (2 ^ 32)) rows.now }
        ensures { shape_of result ≡ record { settings = settings.now; ranges = rows.now; limit = record_limit } }
    {
        let none = SeatRows {
            op_rows: 0,
            bucket_rows: 0,
            bucket_words: 0,
            directory_rows: 0,
        };
        let mut ranges = [none; MOST_SEATS];
        ranges[..rows.len()].copy_from_slice(rows);
        let counts = rows_after(settings, rows);
        Layout {
            settings: *settings,
            ranges,
            counts,
        }
    }

    /// The settings that it was made from.
    pub fn settings(&self) -> &Settings
        ensures { result.now ≡ (shape_of self.now).settings }
    {
        &self.settings
    }

    /// How many words the table has.
    pub fn words(&self) -> u64
        ensures { result ≡ word_count (shape_of self.now) }
    {
        self.directory_rows_start() + self.counts.directory_rows * self.directory_row_length()
    }

    /// How many numbers of each kind the table has.
    pub fn counts(&self) -> SeatRows
        ensures value { result ≡ by_kind (count_of (shape_of self.now)) }
        ensures few { AreBelow (2 ^ 36) result }
    {
        self.counts
    }

    /// Whether the table has a word at this address.
    pub fn has(&self, address: &Address) -> bool
        ensures { IsTrue result ↔ IsAddress (shape_of self.now) address.now }
    {
        let seats = u64::from(self.settings.seats);
        match *address {
            Address::Root => true,
            Address::Announcement(seat) | Address::Done(seat) => seat < seats,
            Address::BucketWord(bucket) => bucket < self.counts.bucket_words,
            Address::OpWord(row, i) => row < self.counts.op_rows && i < OP_WORDS as u64,
            Address::BucketRowWord(row, i) => row < self.counts.bucket_rows
                && i < bucket_row_words(&self.settings),
            Address::DirectoryWord(row, i) => row < self.counts.directory_rows
                && i < self.directory_row_length(),
        }
    }

    /// The number of the word at an address, also where the table has no such word.
    pub fn place(&self, address: &Address) -> u128
        ensures value { result ≡ place (shape_of self.now) address.now }
        ensures few { result < 2 ^ 80 }
        ensures within { IsAddress (shape_of self.now) address.now → result < 2 ^ 52 }
    {
        let seats = u128::from(self.settings.seats);
        match *address {
            Address::Root => 0,
            Address::Announcement(seat) => 1 + u128::from(seat),
            Address::Done(seat) => 1 + seats + u128::from(seat),
            Address::BucketWord(bucket) => {
                u128::from(self.bucket_words_start()) + u128::from(bucket)
            }
            Address::OpWord(row, i) => place_in_rows(self.op_rows_start(), row, OP_WORDS as u64, i),
            Address::BucketRowWord(row, i) => {
                let width = bucket_row_words(&self.settings);
                place_in_rows(self.bucket_rows_start(), row, width, i)
            }
            Address::DirectoryWord(row, i) => {
                let width = self.directory_row_length();
                place_in_rows(self.directory_rows_start(), row, width, i)
            }
        }
    }

    /// The root word, which holds the number of the directory row in use.
    pub fn root(&self) -> u64
        ensures { result ≡ place (shape_of self.now) Root }
    {
        0
    }

    /// The seat's announcement, which holds one more than the number of an op row, or 0.
    pub fn announcement(&self, seat: u32) -> u64
        requires { IsAddress (shape_of self.now) (Announcement seat) }
        ensures { result ≡ place (shape_of self.now) (Announcement seat) }
    {
        1 + seat as u64
    }

    /// The seat's done word, which holds how many calls it has finished.
    pub fn done(&self, seat: u32) -> u64
        requires { IsAddress (shape_of self.now) (Done seat) }
        ensures { result ≡ place (shape_of self.now) (Done seat) }
    {
        1 + self.settings.seats as u64 + seat as u64
    }

    /// The bucket's word, which holds the number of its row in use.
    pub fn bucket_word(&self, bucket: u64) -> u64
        requires { IsAddress (shape_of self.now) (BucketWord bucket) }
        ensures { result ≡ place (shape_of self.now) (BucketWord bucket) }
    {
        self.bucket_words_start() + bucket
    }

    /// Word `i` of an op row.
    pub fn op_word(&self, row: u64, i: u64) -> u64
        requires { IsAddress (shape_of self.now) (OpWord row i) }
        ensures { result ≡ place (shape_of self.now) (OpWord row i) }
    {
        self.op_rows_start() + row * OP_WORDS as u64 + i
    }

    /// Word `i` of a bucket row.
    pub fn bucket_row_word(&self, row: u64, i: u64) -> u64
        requires { IsAddress (shape_of self.now) (BucketRowWord row i) }
        ensures { result ≡ place (shape_of self.now) (BucketRowWord row i) }
    {
        self.bucket_rows_start() + row * bucket_row_words(&self.settings) + i
    }

    /// Word `i` of the room of a directory row.
    pub fn directory_word(&self, row: u64, i: u64) -> u64
        requires { IsAddress (shape_of self.now) (DirectoryWord row i) }
        ensures { result ≡ place (shape_of self.now) (DirectoryWord row i) }
    {
        self.directory_rows_start() + row * self.directory_row_length() + i
    }

    /// The first number of each of the seat's ranges.
    pub fn first(&self, seat: u32) -> SeatRows
        requires { seat < (shape_of self.now).settings.seats }
        ensures value { result ≡ first_of (shape_of self.now) seat }
        ensures few { AreBelow (2 ^ 36) result }
    {
        rows_after(&self.settings, &self.ranges[..seat as usize])
    }

    /// How many numbers each of the seat's ranges has.
    pub fn sizes(&self, seat: u32) -> SeatRows
        requires { seat < (shape_of self.now).settings.seats }
        ensures { result ≡ sizes_of (shape_of self.now) seat }
    {
        self.ranges[seat as usize]
    }

    // The first bucket word.
    fn bucket_words_start(&self) -> u64
        ensures { result ≡ bucket_words_start (shape_of self.now) }
    {
        1 + 2 * self.settings.seats as u64
    }

    // The first word of the op rows.
    fn op_rows_start(&self) -> u64
        ensures value { result ≡ op_rows_start (shape_of self.now) }
        ensures few { result < 2 ^ 37 }
    {
        self.bucket_words_start() + self.counts.bucket_words
    }

    // The first word of the bucket rows.
    fn bucket_rows_start(&self) -> u64
        ensures value { result ≡ bucket_rows_start (shape_of self.now) }
        ensures few { result < 2 ^ 41 }
    {
        self.op_rows_start() + self.counts.op_rows * OP_WORDS as u64
    }

    // The first word of the directory rows.
    fn directory_rows_start(&self) -> u64
        ensures value { result ≡ directory_rows_start (shape_of self.now) }
        ensures few { result < 2 ^ 47 }
    {
        self.bucket_rows_start() + self.counts.bucket_rows * bucket_row_words(&self.settings)
    }

    // The words of the room of a directory row.
    fn directory_row_length(&self) -> u64
        ensures value { result ≡ directory_row_words (shape_of self.now).settings }
        ensures few { result < 2 ^ 13 }
    {
        DIRECTORY_HEAD_WORDS as u64 + (1u64 << self.settings.depth)
    }
}

// The number of word `i` of a row, where rows of this width begin at `start`.
fn place_in_rows(start: u64, row: u64, width: u64, i: u64) -> u128
    requires { width < 2 ^ 13 }
    ensures value { result ≡ start + (row * width + i) }
    ensures few { result < 2 ^ 79 }
{
    u128::from(start) + (u128::from(row) * u128::from(width) + u128::from(i))
}

// The numbers after those of the opening and of these ranges.
#[tactic(auto, unfolding(crate::specs::Shape::number_after))]
fn rows_after(settings: &Settings, ranges: &[SeatRows]) -> SeatRows
    requires { AreBelow (2 ^ 36) (by_kind (number_after settings.now ranges.now)) }
    ensures { result ≡ by_kind (number_after settings.now ranges.now) }
{
    let places = 1u64 << settings.depth;
    let mut after = SeatRows {
        op_rows: 0,
        bucket_rows: places,
        bucket_words: places,
        directory_rows: 1,
    };
    for range in ranges {
        after.op_rows += range.op_rows;
        after.bucket_rows += range.bucket_rows;
        after.bucket_words += range.bucket_words;
        after.directory_rows += range.directory_rows;
    }
    after
}
