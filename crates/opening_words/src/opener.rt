//! What openings need, made once.

ghost use Rattle.std.specs.Prelude.{◌≡◌, ◌^◌, ◌↔◌, All, IfErr, IfOk, IsErr, IsTrue, OnOk, length, replicate};
ghost use Rattle.bucket_states.specs.Parts.{HasDistinctKeys};
ghost use Rattle.word_rows.specs.Shape.{AreBelow};
ghost use Rattle.word_rows.specs.LayoutView.{shape_of};
ghost use Rattle.word_rows.specs.Places.{word_count};
ghost use Rattle.table_model.specs.Opening.{opening_directory, opening_leaves};
ghost use Rattle.table_model.specs.Setup.{HaveRoom, IsFirstWithoutRoom, IsPair, IsSetup, rules_of};
ghost use Rattle.table_model.specs.Worlds.{opening_words};
ghost use Rattle.dir_states.specs.Openings.{OpeningHasRoom, first_directory, first_leaves};
ghost use Rattle.opening_words.specs.Written.{setup_at};
ghost use Rattle.opening_words.specs.Rooms.{HasRoomFor, rules_for};

use crate::clearing::clear_all;
use crate::writing::put_all;
use dir_states::{NoRoomAt, Opening, opening};
use hash_bits::Hashing;
use plain_map::{BucketRow, Pair, Rules};
use std::alloc::{AllocError, Global};
use step_counts::Settings;
use word_rows::Layout;

/// Writes openings of tables of the same settings, with room that is made once.
#[derive(Drop)]
pub struct Opener {
    settings: Settings,
    made: Opening,
    row: BucketRow,
    ghost room: { HasRoomFor settings made row },
}

impl Opener {
    ghost use Rattle.opening_words.specs.Openers.{HasWritten, settings_in};

    /// No opening yet, with room for every opening of these settings. The only error is want of memory.
    pub fn with_room(alloc: Global, settings: &Settings) -> Result<Opener, AllocError>
        ensures { IfOk result (λ opener. settings_in opener ≡ settings.now) }
    {
        Ok(Opener {
            settings: *settings,
            made: Opening::with_room(alloc, settings)?,
            row: BucketRow::with_room(alloc, settings)?,
        })
    }

    /// Whether it has room for the openings of these settings.
    pub fn is_for(&self, settings: &Settings) -> bool
        ensures { IsTrue result ↔ (settings_in self.now ≡ settings.now) }
    {
        self.settings == *settings
    }

    /// Writes the words of a table that opens with these pairs into words that are all 0. It takes no memory.
    ///
    /// `NoRoomAt` comes exactly where a pair finds as many earlier ones of its class as a bucket has room for, and
    /// tells the first such pair; then nothing is written.
    pub fn put(
        &mut self,
        layout: &Layout,
        hashing: Hashing,
        first: &[Pair],
        words: &mut [u64],
    ) -> Result<(), NoRoomAt>
        requires settings { settings_in self.old ≡ (shape_of layout.now).settings }
        requires small { All (AreBelow (2 ^ 32)) (shape_of layout.now).ranges }
        requires pairs { All IsPair first.now }
        requires distinct { HasDistinctKeys first.now }
        requires blank { words.old ≡ replicate (word_count (shape_of layout.now)) 0 }
        ensures setup { OnOk result (IsSetup (setup_at (shape_of layout.now) hashing first.now)) }
        ensures words { OnOk result (words.new ≡ opening_words (setup_at (shape_of layout.now) hashing first.now)) }
        ensures written { OnOk result (HasWritten (shape_of layout.now) self.new words.new) }
        ensures no_room { IfErr result (λ no_room.
            IsFirstWithoutRoom (rules_of (setup_at (shape_of layout.now) hashing first.now)) first.now no_room.place) }
        ensures unchanged { IsErr result → words.new ≡ words.old }
        ensures len { length words.new ≡ word_count (shape_of layout.now) }
        ensures settings { settings_in self.new ≡ settings_in self.old }
    {
        make(&self.settings, hashing, first, &mut self.made)?;
        put_all(layout, &self.made, &mut self.row, words);
        Ok(())
    }

    /// Clears the words that it has written last.
    pub fn clear(&self, layout: &Layout, words: &mut [u64])
        requires { HasWritten (shape_of layout.now) self.now words.old }
        ensures { words.new ≡ replicate (word_count (shape_of layout.now)) 0 }
    {
        clear_all(layout, &self.made, words);
    }
}

// Makes the opening with these pairs.
fn make(
    settings: &Settings,
    hashing: Hashing,
    first: &[Pair],
    made: &mut Opening,
) -> Result<(), NoRoomAt>
    requires room { OpeningHasRoom settings.now.seats settings.now.items settings.now.depth made.old }
    requires distinct { HasDistinctKeys first.now }
    ensures leaves { OnOk result (first_leaves made.new ≡ opening_leaves (rules_for settings.now hashing)
        settings.now.seats settings.now.start first.now) }
    ensures directory { OnOk result (first_directory made.new
        ≡ opening_directory settings.now.start (first_leaves made.new)) }
    ensures found_room { OnOk result (HaveRoom (rules_for settings.now hashing) first.now) }
    ensures no_room { IfErr result (λ no_room.
        IsFirstWithoutRoom (rules_for settings.now hashing) first.now no_room.place) }
    ensures room { OpeningHasRoom settings.now.seats settings.now.items settings.now.depth made.new }
{
    let rules = Rules {
        items: settings.items,
        depth: settings.depth,
        hashing,
    };
    opening(&rules, settings.start, first, made)
}
