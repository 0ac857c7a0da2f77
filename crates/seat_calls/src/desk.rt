//! What a seat has at hand in every call, made once a table.
//!
//! Where rows begin is worked out here, so that a step adds and no more.

ghost use Rattle.std.specs.Prelude.{◌≡◌, ◌<◌, ◌^◌};
ghost use Rattle.word_rows.specs.LayoutView.{shape_of};
ghost use Rattle.word_rows.specs.Shape.{AreBelow, first_of};
ghost use Rattle.seat_calls.specs.Starts.{HasStarts};

use crate::limits::MOST_WORDS;
use hash_bits::Hashing;
use plain_map::Rules;
use step_counts::{DIRECTORY_HEAD_WORDS, SeatRows, bucket_row_words};
use word_rows::{Layout, place_laws};

/// Where the words lie, the hashing, and which seat it is.
#[derive(Clone, Copy)]
pub struct Desk {
    /// The word numbers of the table.
    pub layout: Layout,
    /// The rules of a bucket.
    pub rules: Rules,
    /// Its number.
    pub seat: u32,
    /// The first number of each of its ranges.
    pub first: SeatRows,
    /// The words of a bucket row, at most `MOST_WORDS`.
    pub row_words: u64,
    /// The first word of the bucket rows.
    bucket_rows: u64,
    /// The words of the room of a directory row.
    room_words: u64,
    /// The first word of the directory rows.
    directory_rows: u64,
    pub ghost within: { seat < (shape_of layout).settings.seats },
    pub ghost first_is: { first ≡ first_of (shape_of layout) seat },
    ghost low: { AreBelow (2 ^ 36) first },
    ghost starts: { HasStarts (shape_of layout) row_words bucket_rows room_words directory_rows },
    ghost items: { rules.items ≡ (shape_of layout).settings.items },
    ghost depth: { rules.depth ≡ (shape_of layout).settings.depth },
}

impl Desk {
    ghost use Rattle.std.specs.Prelude.{◌≤◌};
    ghost use Rattle.step_counts.specs.StepCounts.{bucket_row_words as row_words};
    ghost use Rattle.word_rows.specs.Places.{IsAddress, place};
    ghost use Rattle.word_rows.specs.declared.addresses.Address.TheVariants.{BucketRowWord, DirectoryWord};

    /// The desk of a seat at a table with this layout and this hashing.
    #[tactic(auto, unfolding(word_rows::specs::Shape::number_after))]
    pub fn new(layout: Layout, hashing: Hashing, seat: u32) -> Desk
        requires { seat < (shape_of layout).settings.seats }
        ensures layout { result.layout ≡ layout }
        ensures hashing { result.rules.hashing ≡ hashing }
        ensures seat { result.seat ≡ seat }
    {
        place_laws();
        let settings = *layout.settings();
        Desk {
            layout,
            rules: Rules {
                items: settings.items,
                depth: settings.depth,
                hashing,
            },
            seat,
            first: layout.first(seat),
            row_words: bucket_row_words(&settings),
            bucket_rows: layout.bucket_row_word(0, 0),
            room_words: DIRECTORY_HEAD_WORDS as u64 + (1u64 << settings.depth),
            directory_rows: layout.directory_word(0, 0),
        }
    }

    /// How many words a bucket row has.
    pub fn row_length(&self) -> usize
        ensures value { result ≡ row_words (shape_of self.now.layout).settings }
        ensures few { result ≤ MOST_WORDS }
    {
        self.row_words as usize
    }

    /// The first word of a bucket row.
    pub fn bucket_row(&self, row: u64) -> u64
        requires { IsAddress (shape_of self.now.layout) (BucketRowWord row 0) }
        ensures value { result ≡ place (shape_of self.now.layout) (BucketRowWord row 0) }
        ensures few { result < 2 ^ 52 }
    {
        place_laws();
        self.bucket_rows + row * self.row_words
    }

    /// The first word of a directory row.
    pub fn directory_row(&self, row: u64) -> u64
        requires { IsAddress (shape_of self.now.layout) (DirectoryWord row 0) }
        ensures value { result ≡ place (shape_of self.now.layout) (DirectoryWord row 0) }
        ensures few { result < 2 ^ 52 }
    {
        place_laws();
        self.directory_rows + row * self.room_words
    }
}
