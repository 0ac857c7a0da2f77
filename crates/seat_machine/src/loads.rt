//! The buckets of the announced ops, loaded by a directory try one after the other.

ghost use Rattle.std.specs.Prelude.{◌≡◌, ◌≤◌, ◌<◌, ◌^◌, length, map};
ghost use Rattle.std.specs.List.{list_any};
ghost use Rattle.word_rows.specs.BucketWords.{SpellSomeBucket};
ghost use Rattle.word_rows.specs.Shape.{AreBelow};
ghost use Rattle.table_model.specs.DirectoryChange.{is_bucket, next_bucket};
ghost use Rattle.table_model.specs.Fits.{Finds, Makes};
ghost use Rattle.table_model.specs.Goes.{after_loaded, bucket_in_words, more};
ghost use Rattle.dir_states.specs.Views.{as_directory, as_loaded};
ghost use Rattle.seat_machine.specs.Stages.{directory_try_of};

use crate::machine::Machine;
use crate::ops::read_loaded;
use crate::stage::Stage;
use bucket_states::Op;
use dir_states::{DirState, Loaded};
use plain_map::Rules;
use table_model::Round;

impl Machine {
    ghost use Rattle.table_model.specs.Setup.{rules_of};
    ghost use Rattle.seat_machine.specs.Room.{HasAllRoom};
    ghost use Rattle.seat_machine.specs.Stands.{CallStands, IsKept, LoadsOn};
    ghost use Rattle.seat_machine.specs.Steps.{KeepsCall};
    ghost use Rattle.seat_machine.specs.View.{loaded_in, phase_of, phase_then, setup_of, sizes};

    /// A word of the row of such a bucket.
    pub fn take_loaded_word(
        &mut self,
        round: Round,
        turn: u64,
        first: u64,
        root: u64,
        bucket: u64,
        row: u64,
        word: u64,
    )
        requires used { AreBelow (2 ^ 62) self.old.used }
        requires kept { IsKept self.old }
        requires stage { self.old.stage ≡ Stage.DirRow round turn first root bucket row }
        requires finds { Finds (setup_of self.old) (phase_of self.old) word }
        requires makes { Makes (setup_of self.old) (phase_then self.old word) }
        ensures phase { phase_of self.new ≡ phase_then self.old word }
        ensures same { KeepsCall self.old self.new }
        ensures kept { IsKept self.new }
    {
        self.words.push_reserved(word);
        if self.words.len() == self.row_length() {
            self.keep_loaded(bucket, row);
            self.load_next(round, turn, first, root);
        }
    }

    // One more bucket is loaded: what its words spell.
    fn keep_loaded(&mut self, bucket: u64, row: u64)
        requires room { HasAllRoom self.old }
        requires spelled { SpellSomeBucket (sizes self.old) self.old.words.items }
        requires whole { length self.old.words.items ≡ length self.old.out.items }
        requires free { self.old.many < length self.old.loaded.items }
        ensures loaded { loaded_in self.new ≡ more (loaded_in self.old) (record {
          bucket = bucket;
          row = row;
          state = bucket_in_words (setup_of self.old) self.old.words.items;
        }) }
        ensures within { self.new.many ≤ length self.new.loaded.items }
        ensures same { KeepsCall self.old self.new }
        ensures directory { self.new.directory ≡ self.old.directory }
        ensures found { self.new.found ≡ self.old.found }
        ensures room { HasAllRoom self.new }
    {
        read_loaded(
            &self.layout,
            &self.words,
            bucket,
            row,
            &mut self.row,
            &mut self.loaded[self.many],
        );
        self.many += 1;
    }

    /// The next bucket is to be loaded; or none is left, and the change is made.
    pub fn load_next(&mut self, round: Round, turn: u64, first: u64, root: u64)
        requires used { AreBelow (2 ^ 62) self.old.used }
        requires room { HasAllRoom self.old }
        requires call { CallStands self.old }
        requires loads { LoadsOn self.old }
        requires makes { Makes (setup_of self.old) (after_loaded (setup_of self.old) round
            (directory_try_of turn first root (as_directory self.old.directory)) self.old.found.items
            (loaded_in self.old)) }
        ensures phase { phase_of self.new ≡ after_loaded (setup_of self.old) round
            (directory_try_of turn first root (as_directory self.old.directory)) self.old.found.items
            (loaded_in self.old) }
        ensures same { KeepsCall self.old self.new }
        ensures kept { IsKept self.new }
    {
        let rules = self.rules();
        match next_bucket(
            &rules,
            &self.directory,
            &self.loaded[..self.many],
            &self.found,
        ) {
            Some(bucket) => self.stage = Stage::DirWord(round, turn, first, root, bucket),
            None => {
                self.make_change(turn, first, root);
                self.stage = Stage::DirStore(round, turn, first, root, 0);
            }
        }
    }
}

// The first bucket of the announced ops that was not loaded yet, in the order of the seats.
fn next_bucket(
    rules: &Rules,
    directory: &DirState,
    loaded: &[Loaded],
    found: &[Option<Op>],
) -> Option<u64>
    requires { directory.now.depth ≤ 64 }
    ensures { result ≡ next_bucket rules.now (as_directory directory.now) (map as_loaded loaded.now) found.now }
{
    for op in found {
        if let Some(op) = op {
            let bucket = directory.bucket_of(rules, op.call.key());
            if !is_loaded(loaded, bucket) {
                return Some(bucket);
            }
        }
    }
    None
}

// Whether the bucket was loaded.
fn is_loaded(loaded: &[Loaded], bucket: u64) -> bool
    ensures { result ≡ list_any (is_bucket bucket) (map as_loaded loaded.now) }
{
    for one in loaded {
        if one.bucket == bucket {
            return true;
        }
    }
    false
}
