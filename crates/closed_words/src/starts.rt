//! Where the parts of a table's words begin, worked out once a table.

ghost use Rattle.word_rows.specs.LayoutView.{shape_of};
ghost use Rattle.closed_words.specs.Parts.{HasStarts, HasWidths};

use step_counts::bucket_row_words;
use word_rows::{Layout, place_laws};

/// The first words of the parts, and how many words a row has.
#[derive(Clone, Copy)]
pub struct Starts {
    /// The word numbers of the table.
    pub layout: Layout,
    bucket_words: u64,
    bucket_rows: u64,
    row_words: u64,
    directory_rows: u64,
    room_words: u64,
    ghost starts: { HasStarts (shape_of layout) bucket_words bucket_rows directory_rows },
    ghost widths: { HasWidths (shape_of layout) row_words room_words },
}

impl Starts {
    ghost use Rattle.std.specs.Prelude.{◌≡◌, ◌^◌, ◌<◌};
    ghost use Rattle.plain_map.specs.declared.full.FullKind.TheVariants.{BucketRows, DirRows};
    ghost use Rattle.word_rows.specs.Shape.{count_of};
    ghost use Rattle.word_rows.specs.Places.{place};
    ghost use Rattle.word_rows.specs.declared.addresses.Address.TheVariants.{BucketWord, BucketRowWord, DirectoryWord};

    /// Those of a table with this layout.
    #[tactic(auto, unfolding(word_rows::specs::Shape::number_after))]
    pub fn new(layout: &Layout) -> Starts
        ensures { result.layout ≡ layout.now }
    {
        place_laws();
        let settings = *layout.settings();
        Starts {
            layout: *layout,
            bucket_words: layout.bucket_word(0),
            bucket_rows: layout.bucket_row_word(0, 0),
            row_words: bucket_row_words(&settings),
            directory_rows: layout.directory_word(0, 0),
            room_words: 2 + (1u64 << settings.depth),
        }
    }

    /// How many bucket rows there are.
    pub fn bucket_row_count(&self) -> u64
        ensures { result ≡ count_of (shape_of self.now.layout) BucketRows }
    {
        self.layout.counts().bucket_rows
    }

    /// How many directory rows there are.
    pub fn directory_row_count(&self) -> u64
        ensures { result ≡ count_of (shape_of self.now.layout) DirRows }
    {
        self.layout.counts().directory_rows
    }

    /// The number of a bucket's word.
    pub fn bucket_word(&self, bucket: u64) -> u128
        ensures value { result ≡ place (shape_of self.now.layout) (BucketWord bucket) }
        ensures few { result < 2 ^ 100 }
    {
        u128::from(self.bucket_words) + u128::from(bucket)
    }

    /// The number of the first word of a bucket row.
    pub fn bucket_row(&self, row: u64) -> u128
        ensures value { result ≡ place (shape_of self.now.layout) (BucketRowWord row 0) }
        ensures few { result < 2 ^ 100 }
    {
        u128::from(self.bucket_rows) + u128::from(row) * u128::from(self.row_words)
    }

    /// The number of the first word of a directory row.
    pub fn directory_row(&self, row: u64) -> u128
        ensures value { result ≡ place (shape_of self.now.layout) (DirectoryWord row 0) }
        ensures few { result < 2 ^ 100 }
    {
        u128::from(self.directory_rows) + u128::from(row) * u128::from(self.room_words)
    }
}
