//! The fields of a machine.

ghost use Rattle.std.specs.Prelude.{◌≡◌, ◌^◌, ◌<◌, ◌-◌};
ghost use Rattle.step_counts.specs.StepCounts.{bucket_row_words as words_of_row};
ghost use Rattle.plain_map.specs.PlainObject.{InRange};
ghost use Rattle.word_rows.specs.Shape.{AreBelow};
ghost use Rattle.table_model.specs.Setup.{next_number, rules_of};

use crate::stage::Stage;
use bucket_states::{Bucket, Op};
use dir_states::{Change, DirState, Loaded};
use hash_bits::Hashing;
use plain_map::{BucketRow, Call, FullKind, Rules};
use step_counts::{OP_WORDS, SeatRows, bucket_row_words};
use table_model::Put;
use word_rows::Layout;

/// A seat, with buffers that are made once.
#[derive(Drop)]
pub struct Machine {
    pub layout: Layout,
    pub hashing: Hashing,
    pub seat: u32,
    /// What it has published.
    pub used: SeatRows,
    pub packet: u32,
    pub call: Call,
    /// How many calls were answered, and which one this is.
    pub count: u32,
    pub number: u32,
    pub steps: u64,
    pub seen: Vec<u32>,
    pub stage: Stage,
    /// The words of the row at hand.
    pub words: Vec<u64>,
    /// The words of the seat's own op.
    pub op: [u64; OP_WORDS],
    /// One bucket row, as it is read or written.
    pub row: BucketRow,
    /// The directory that is loaded, or is being loaded.
    pub directory: DirState,
    /// The bucket that was loaded.
    pub base: Bucket,
    /// The ops that were found.
    pub found: Vec<Option<Op>>,
    /// The bucket that is made, and the words of its row; or those of a new leaf.
    pub made: Bucket,
    pub out: Vec<u64>,
    /// The buckets that a directory try loaded, and how many there are.
    pub loaded: Vec<Loaded>,
    pub many: usize,
    /// The change that a directory try makes, and all that it stores.
    pub change: Change,
    pub puts: Vec<Put>,
}

impl Machine {
    ghost use Rattle.seat_machine.specs.View.{setup_of, sizes};

    /// The room of a bucket, the greatest depth and the hashing.
    pub fn rules(&self) -> Rules
        ensures value { result ≡ rules_of (setup_of self.now) }
        ensures range { InRange result }
    {
        let settings = self.layout.settings();
        Rules {
            items: settings.items,
            depth: settings.depth,
            hashing: self.hashing,
        }
    }

    /// How many seats there are.
    pub fn seats(&self) -> usize
        ensures { result ≡ (sizes self.now).seats }
    {
        self.layout.settings().seats as usize
    }

    /// How many words a bucket row has.
    pub fn row_length(&self) -> usize
        ensures { result ≡ words_of_row (sizes self.now) }
    {
        bucket_row_words(self.layout.settings()) as usize
    }

    /// The number that the seat uses next.
    #[tactic(auto, unfolding(table_model::specs::Setup::next_number))]
    pub fn next_number(&self, kind: FullKind) -> u64
        requires seat { self.now.seat < (sizes self.now).seats }
        requires used { AreBelow (2 ^ 63) self.now.used }
        ensures value { result ≡ next_number (setup_of self.now) self.now.seat kind self.now.used }
        ensures few { result < 2 ^ 64 - 1 }
        ensures small { AreBelow (2 ^ 62) self.now.used → result < 2 ^ 63 }
    {
        let first = self.layout.first(self.seat);
        match kind {
            FullKind::OpRows => first.op_rows + self.used.op_rows,
            FullKind::BucketRows => first.bucket_rows + self.used.bucket_rows,
            FullKind::BucketWords => first.bucket_words + self.used.bucket_words,
            FullKind::DirRows => first.directory_rows + self.used.directory_rows,
        }
    }
}
