//! A table whose events come one after the other.

ghost use Rattle.std.specs.Prelude.{◌≡◌, ℕ, ◌^◌, ◌<◌, All, Err, IfErr, IfOk, IsErr, length};
ghost use Rattle.plain_map.specs.declared.leaves.OpenFault.TheVariants.{NoRoom};
ghost use Rattle.bucket_states.specs.Parts.{HasDistinctKeys};
ghost use Rattle.word_rows.specs.Shape.{AreBelow};
ghost use Rattle.table_model.specs.Setup.{IsFirstWithoutRoom, IsPair, IsSetup, rules_of, settings_of};
ghost use Rattle.table_model.specs.Worlds.{IsEvent, opening_words, seat_in};
ghost use Rattle.word_rows.specs.LayoutView.{shape_of};
ghost use Rattle.core_steps.specs.Values.{IsMoment, opened, rests, setup_at, setup_of, stepped_of, with_event};

use crate::happening::happen_at;
use crate::logs::{note, reserve_in};
use crate::openings::{copied_pairs, first_logs, first_seats};
use crate::reading::{begun_of, pairs_of};
use crate::values::{CoreEnd, Stepped};
use closed_words::{ClosedLeaf, Starts, closed_depth, closed_leaves};
use hash_bits::Hashing;
use opening_words::first_words;
use plain_map::{OpenFault, Pair, Pending, Record};
use seat_machine::SeatMachine;
use std::alloc::{AllocError, Global};
use std::marker::Model;
use step_counts::{SeatRows, Settings};
use table_model::Event;
use word_rows::{ClosedRows, Layout};

/// A table at a moment of a run: its words, its seats' programs and records, and the events that led there.
#[derive(Drop)]
pub struct CoreWorld {
    layout: Layout,
    hashing: Hashing,
    first: Vec<Pair>,
    words: Vec<u64>,
    seats: Vec<SeatMachine>,
    logs: Vec<Vec<Record>>,
    events: Vec<Event>,
}

impl Model for CoreWorld {
    ghost use Rattle.core_steps.specs.Values.{CoreValue};
    ghost use Rattle.core_steps.specs.Insides.{Stands, value_of};

    ghost Value = { CoreValue };

    ghost view = { value_of };

    ghost invariant = { Stands };
}

impl CoreWorld {
    ghost use Rattle.std.specs.Prelude.{IsPermutation, map};
    ghost use Rattle.std.specs.List.Sorted.{IsSortedByKey};
    ghost use Rattle.plain_map.specs.Keys.{key_cmp};
    ghost use Rattle.table_model.specs.Closed.{begun_of, closed_leaves, closed_pairs};
    ghost use Rattle.closed_words.specs.Views.{as_leaf};
    ghost use Rattle.core_steps.specs.Endings.{IsLeft};

    /// Opens a table with these pairs, which are held then.
    ///
    /// `NoRoom` comes exactly where a pair finds as many earlier ones of its class as a bucket has room for, and tells
    /// the first such pair.
    pub fn new(
        alloc: Global,
        settings: &Settings,
        hashing: Hashing,
        rows: &[SeatRows],
        first: &[Pair],
    ) -> Result<CoreWorld, OpenFault>
        requires each_seat { length rows.now ≡ settings.now.seats }
        requires small { All (AreBelow (2 ^ 32)) rows.now }
        requires pairs { All IsPair first.now }
        requires distinct { HasDistinctKeys first.now }
        ensures opened { IfOk result (λ core. core ≡ opened (setup_of settings.now hashing rows.now first.now)) }
        ensures room { IfOk result (λ core. IsSetup core.setup) }
        ensures no_room { (place : ℕ) → result ≡ Err (NoRoom place) →
            IsFirstWithoutRoom (rules_of (setup_of settings.now hashing rows.now first.now)) first.now place }
    {
        let layout = Layout::new(settings, rows);
        let words = first_words(alloc, &layout, hashing, first)?;
        match CoreWorld::of_words(alloc, layout, hashing, first, words) {
            Ok(core) => Ok(core),
            Err(_) => Err(OpenFault::Memory),
        }
    }

    // A table that has opened with these words.
    fn of_words(
        alloc: Global,
        layout: Layout,
        hashing: Hashing,
        first: &[Pair],
        words: Vec<u64>,
    ) -> Result<CoreWorld, AllocError>
        requires setup { IsSetup (setup_at (shape_of layout) hashing first.now) }
        requires words { words.items ≡ opening_words (setup_at (shape_of layout) hashing first.now) }
        ensures { IfOk result (λ core. core ≡ opened (setup_at (shape_of layout) hashing first.now)) }
    {
        let seats = first_seats(alloc, layout, hashing)?;
        let logs = first_logs(alloc, layout.settings().seats)?;
        let first = copied_pairs(alloc, first)?;
        Ok(CoreWorld {
            layout,
            hashing,
            first,
            words,
            seats,
            logs,
            events: Vec::new(alloc),
        })
    }

    /// The events so far are a run, and have come to this world.
    pub fn moment(&self)
        ensures { IsMoment self.now }
    {
        let _ = &self.layout;
    }

    /// The settings of the table.
    pub fn settings(&self) -> Settings
        ensures { result ≡ settings_of self.now.setup }
    {
        *self.layout.settings()
    }

    /// Whether the seat is between two calls.
    pub fn idle(&self, seat: u32) -> bool
        ensures { result ≡ rests (seat_in self.now.world seat).stand }
    {
        match self.seats.get(seat as usize) {
            Some(machine) => machine.is_idle(),
            None => true,
        }
    }

    /// One event: an idle seat begins the call that comes with it, unless the call is refused, and a seat in flight
    /// takes its next step. The only error is want of memory, after which nothing has changed.
    pub fn step(&mut self, event: &Event) -> Result<Stepped, AllocError>
        requires event { IsEvent self.old.setup self.old.world event.now }
        ensures stepped { IfOk result (λ stepped. (self.new ≡ with_event self.old event.now)
            × (stepped ≡ stepped_of self.old.setup self.old.world event.now)) }
        ensures unchanged { IsErr result → self.new ≡ self.old }
    {
        self.events.reserve(1)?;
        reserve_in(&mut self.logs, event.seat as usize)?;
        let stepped = happen_at(&self.layout, &mut self.words, &mut self.seats, event);
        note(&mut self.logs, event.seat as usize, &stepped);
        self.events.push_reserved(*event);
        Ok(stepped)
    }

    /// Stops all seats where they stand, and gives what the table leaves. After want of memory the core comes back
    /// untouched.
    pub fn finish(self, alloc: Global) -> Result<CoreEnd, (AllocError, CoreWorld)>
        ensures left { IfOk result (IsLeft self) }
        ensures kept { IfErr result (λ e. e.1 ≡ self) }
    {
        let (begun, pairs, leaves) = match self.read(alloc) {
            Ok(read) => read,
            Err(failed) => return Err((failed, self)),
        };
        let depth = closed_depth(&Starts::new(&self.layout), &self.words);
        let CoreWorld {
            layout,
            words,
            logs,
            ..
        } = self;
        Ok(CoreEnd {
            rows: ClosedRows { layout, words },
            logs,
            begun,
            pairs,
            leaves,
            depth,
        })
    }

    // The calls that had begun, the pairs and the leaves.
    fn read(&self, alloc: Global) -> Result<(Vec<Pending>, Vec<Pair>, Vec<ClosedLeaf>), AllocError>
        ensures begun { IfOk result (λ r. r.0.items ≡ begun_of self.now.world) }
        ensures held { IfOk result (λ r.
            IsPermutation (closed_pairs self.now.setup.shape self.now.world.words) r.1.items) }
        ensures sorted { IfOk result (λ r. IsSortedByKey (λ pair. pair.key) key_cmp r.1.items) }
        ensures leaves { IfOk result (λ r. map as_leaf r.2.items
            ≡ closed_leaves self.now.setup.shape self.now.world.words) }
    {
        let starts = Starts::new(&self.layout);
        let begun = begun_of(alloc, &self.seats)?;
        let pairs = pairs_of(alloc, &starts, &self.words)?;
        let leaves = closed_leaves(alloc, &starts, &self.words)?;
        Ok((begun, pairs, leaves))
    }
}
