//! What is read from the words of a row that was loaded whole: an op, or a bucket.

ghost use Rattle.std.specs.Prelude.{◌≡◌, ◌<◌, length};
ghost use Rattle.step_counts.specs.declared.TheConstants.{OP_WORDS as WORDS};
ghost use Rattle.step_counts.specs.StepCounts.{bucket_row_words};
ghost use Rattle.plain_map.specs.Rows.{HasBucketRoom};
ghost use Rattle.word_rows.specs.BucketWords.{SpellSomeBucket, bucket_of_words};
ghost use Rattle.word_rows.specs.LayoutView.{shape_of};
ghost use Rattle.bucket_states.specs.States.{state_in_row, state_of};
ghost use Rattle.table_model.specs.Fits.{IsOpSoFar};
ghost use Rattle.table_model.specs.Goes.{bucket_in_words, op_in_words};
ghost use Rattle.dir_states.specs.Views.{as_loaded};
ghost use Rattle.seat_machine.specs.Room.{HasLoadedRoom};

use crate::machine::Machine;
use bucket_states::Op;
use dir_states::Loaded;
use plain_map::BucketRow;
use word_rows::{Layout, read_op, row_laws};

impl Machine {
    ghost use Rattle.seat_machine.specs.Room.{HasAllRoom};
    ghost use Rattle.seat_machine.specs.Stands.{IsOfTable};
    ghost use Rattle.seat_machine.specs.Steps.{KeepsCall};
    ghost use Rattle.seat_machine.specs.View.{setup_of, sizes};

    /// The loaded words as the op of the next seat.
    pub fn read_found(&self) -> Op
        requires spelled { IsOpSoFar self.now.words.items }
        requires whole { length self.now.words.items ≡ WORDS }
        requires seats { length self.now.found.items < 8 }
        ensures { result ≡ op_in_words (length self.now.found.items) self.now.words.items }
    {
        row_laws();
        let Some(words) = self.words.as_array() else {
            unreachable!()
        };
        let Some(row) = read_op(words) else {
            unreachable!()
        };
        Op {
            seat: self.found.len() as u32,
            number: row.number,
            call: row.call,
        }
    }

    /// The loaded words as the bucket of a bucket try.
    pub fn read_base(&mut self)
        requires room { HasAllRoom self.old }
        requires spelled { SpellSomeBucket (sizes self.old) self.old.words.items }
        requires whole { length self.old.words.items ≡ length self.old.out.items }
        ensures base { state_of self.new.base ≡ bucket_in_words (setup_of self.old) self.old.words.items }
        ensures of_table { IsOfTable (sizes self.old) (state_of self.new.base) }
        ensures same { KeepsCall self.old self.new }
        ensures words { self.new.words ≡ self.old.words }
        ensures found { self.new.found ≡ self.old.found }
        ensures stage { self.new.stage ≡ self.old.stage }
        ensures room { HasAllRoom self.new }
    {
        row_laws();
        self.layout.read_bucket(&self.words, &mut self.row);
        self.base.from_row(&self.row);
    }
}

/// Reads a bucket that a directory try loaded from the words of its row.
pub fn read_loaded(
    layout: &Layout,
    words: &[u64],
    bucket: u64,
    row: u64,
    room: &mut BucketRow,
    into: &mut Loaded,
)
    requires spelled { SpellSomeBucket (shape_of layout.now).settings words.now }
    requires words { length words.now ≡ bucket_row_words (shape_of layout.now).settings }
    requires room { HasBucketRoom (shape_of layout.now).settings.seats (shape_of layout.now).settings.items room.old }
    requires into { HasLoadedRoom (shape_of layout.now).settings into.old }
    ensures is { as_loaded into.new ≡ record {
      bucket = bucket;
      row = row;
      state = state_in_row (bucket_of_words (shape_of layout.now).settings words.now);
    } }
    ensures room { HasBucketRoom (shape_of layout.now).settings.seats (shape_of layout.now).settings.items room.new }
    ensures into { HasLoadedRoom (shape_of layout.now).settings into.new }
{
    row_laws();
    layout.read_bucket(words, room);
    into.bucket = bucket;
    into.row = row;
    into.state.from_row(room);
}
