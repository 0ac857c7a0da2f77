//! The table of words that the seats share.

ghost use Rattle.std.specs.Prelude.{◌≡◌, ℕ, ◌<◌, ◌^◌, [], All, Err, IfErr, IfOk, OnOk, length, replicate, vec_capacity, vec_len};
ghost use Rattle.plain_map.specs.declared.leaves.OpenFault.TheVariants.{NoRoom};
ghost use Rattle.bucket_states.specs.Parts.{HasDistinctKeys};
ghost use Rattle.word_rows.specs.Shape.{AreBelow};
ghost use Rattle.word_rows.specs.Places.{word_count};
ghost use Rattle.word_rows.specs.LayoutView.{shape_of};
ghost use Rattle.table_model.specs.Setup.{IsFirstWithoutRoom, IsPair, IsSetup, rules_of, seats_of};
ghost use Rattle.table_model.specs.Worlds.{opening_words};
ghost use Rattle.opening_words.specs.Openers.{settings_in};
ghost use Rattle.shared_table.specs.Rule.{plain};
ghost use Rattle.shared_table.specs.Seating.{whole};
ghost use Rattle.shared_table.specs.Values.{IsNew, IsOf, Ran, new_seats};
ghost use Rattle.shared_table.specs.Openings.{IsAsked, setup_of};
ghost use Rattle.shared_table.specs.Gathered.{HasAll};

use crate::blank::Blank;
use crate::in_place::ClosedTable;
use crate::rooms::Rooms;
use crate::rule::{Deal, Gather, OneRun, Plan};
use crate::running::{Token, Words};
use crate::seat::{Seat, seated, unseated};
use crate::view::View;
use atomic_table::Table;
use closed_words::Words as ClosedWords;
use hash_bits::Hashing;
use opening_words::Opener;
use plain_map::{OpenFault, Pair};
use std::alloc::{AllocError, Global};
use std::marker::Model;
use step_counts::{SeatRows, Settings};
use word_rows::{ClosedRows, Layout};

pub(crate) type Board = Table<(), View, Plan, OneRun, Global>;

/// A directory in atomic words.
#[derive(Drop)]
pub struct Directory {
    pub(crate) table: Board,
    pub(crate) layout: Layout,
    pub(crate) hashing: Hashing,
    // Where the rooms of its seats go when it is closed.
    pub(crate) rooms: Rooms,
}

impl Model for Directory {
    ghost use Rattle.shared_table.specs.Values.{TableValue};

    ghost Value = { TableValue };

    ghost use Rattle.shared_table.specs.Insides.{table_value, TableStands};

    ghost view = { table_value };

    ghost invariant = { TableStands };
}

fn copied_rows(alloc: Global, rows: &[SeatRows]) -> Result<Vec<SeatRows>, AllocError>
    ensures { IfOk result (λ v. v.items ≡ rows.now) }
{
    rows.to_vec(alloc)
}

fn copied_pairs(alloc: Global, first: &[Pair]) -> Result<Vec<Pair>, AllocError>
    ensures { IfOk result (λ v. v.items ≡ first.now) }
{
    first.to_vec(alloc)
}

// Cuts each seat off the token that has them all.
fn deal(
    alloc: Global,
    words: &Words,
    mut rest: Token,
    layout: &Layout,
    hashing: Hashing,
    seats: u32,
    rooms: &mut Rooms,
    out: &mut Vec<Seat>,
) -> Result<(), AllocError>
    requires setup { IsSetup (plain words.now.key) }
    requires table { (rest.table_id ≡ words.now.table_id) × (0 < words.now.table_id.words) }
    requires whole { rest.me ≡ (whole (plain words.now.key), []) }
    requires shape { shape_of layout.now ≡ (plain words.now.key).shape }
    requires hashing { hashing ≡ (plain words.now.key).hashing }
    requires seats { seats ≡ seats_of (plain words.now.key) }
    requires out { (out.old.items ≡ []) × (vec_capacity out.old ≡ seats) }
    ensures { OnOk result (out.new.items
        ≡ new_seats (record { table_id = words.now.table_id; setup = plain words.now.key }) 0 seats) }
{
    for number in 0..seats {
        let room = rooms.take(alloc, layout.settings())?;
        let token = words.split_seat::<Deal>(&mut rest);
        out.push_reserved(seated(token, layout, hashing, number, room));
    }
    Ok(())
}

// Puts all seats together into one token, and keeps their rooms.
fn gather(words: &Words, mut seats: Vec<Seat>, rooms: &mut Rooms) -> Token
    requires table { 0 < words.now.table_id.words }
    requires seats { All (IsOf (record { table_id = words.now.table_id; setup = plain words.now.key })) seats.items }
    requires some { 0 < vec_len seats }
    ensures { HasAll (record { table_id = words.now.table_id; setup = plain words.now.key }) seats.items result }
{
    let Some(last) = seats.pop() else {
        unreachable!()
    };
    let mut token = unseated(last, rooms);
    while let Some(seat) = seats.pop() {
        words.join_seat::<Gather>(&mut token, unseated(seat, rooms));
    }
    token
}

// All words of a closed table.
fn read_all(closed: &ClosedTable, out: &mut Vec<u64>)
    requires out { (out.old.items ≡ []) × (vec_capacity out.old ≡ length closed.now.words) }
    ensures { out.new.items ≡ closed.now.words }
{
    for i in 0..closed.count() {
        out.push_reserved(closed.word(i));
    }
}

impl Directory {
    /// Opens a table with these pairs, which are held then, and gives its seats in order.
    ///
    /// `NoRoom` comes only where a pair finds as many earlier ones of its class as a bucket has room for, and tells the
    /// first such pair. `Memory` comes where there is too little memory, also for such pairs.
    pub fn open(
        alloc: Global,
        settings: &Settings,
        hashing: Hashing,
        rows: &[SeatRows],
        first: &[Pair],
    ) -> Result<(Directory, Vec<Seat>), OpenFault>
        requires each_seat { length rows.now ≡ settings.now.seats }
        requires small { All (AreBelow (2 ^ 32)) rows.now }
        requires pairs { All IsPair first.now }
        requires distinct { HasDistinctKeys first.now }
        ensures setup { IfOk result (λ r. r.0.setup ≡ setup_of settings.now hashing rows.now first.now) }
        ensures seats { IfOk result (λ r. r.1.items ≡ new_seats r.0 0 settings.now.seats) }
        ensures new { IfOk result (λ r. All (IsNew r.0) r.1.items) }
        ensures count { IfOk result (λ r. length r.1.items ≡ settings.now.seats) }
        ensures room { IfOk result (λ r. IsSetup r.0.setup) }
        ensures no_room { (place : ℕ) → result ≡ Err (NoRoom place) →
            IsFirstWithoutRoom (rules_of (setup_of settings.now hashing rows.now first.now)) first.now place }
    {
        Directory::open_in(
            alloc,
            &mut Blank::new(alloc),
            settings,
            hashing,
            rows,
            first,
        )
    }

    /// The same, from words that are kept from one opening to the next: what is 0 there is not written again.
    pub fn open_in(
        alloc: Global,
        blank: &mut Blank,
        settings: &Settings,
        hashing: Hashing,
        rows: &[SeatRows],
        first: &[Pair],
    ) -> Result<(Directory, Vec<Seat>), OpenFault>
        requires each_seat { length rows.now ≡ settings.now.seats }
        requires small { All (AreBelow (2 ^ 32)) rows.now }
        requires pairs { All IsPair first.now }
        requires distinct { HasDistinctKeys first.now }
        ensures setup { IfOk result (λ r. r.0.setup ≡ setup_of settings.now hashing rows.now first.now) }
        ensures seats { IfOk result (λ r. r.1.items ≡ new_seats r.0 0 settings.now.seats) }
        ensures new { IfOk result (λ r. All (IsNew r.0) r.1.items) }
        ensures count { IfOk result (λ r. length r.1.items ≡ settings.now.seats) }
        ensures room { IfOk result (λ r. IsSetup r.0.setup) }
        ensures no_room { (place : ℕ) → result ≡ Err (NoRoom place) →
            IsFirstWithoutRoom (rules_of (setup_of settings.now hashing rows.now first.now)) first.now place }
    {
        let (Ok(rows), Ok(first)) = (copied_rows(alloc, rows), copied_pairs(alloc, first)) else {
            return Err(OpenFault::Memory);
        };
        let plan = Plan {
            settings: *settings,
            hashing,
            rows,
            first,
        };
        let layout = Layout::new(settings, &plan.rows);
        let Ok(rooms) = blank.take_rooms(alloc, settings) else {
            return Err(OpenFault::Memory);
        };
        let Ok((mut opener, mut words)) = blank.take(alloc, &layout) else {
            return Err(OpenFault::Memory);
        };
        let opened = Directory::of_plan(alloc, layout, &plan, rooms, &mut opener, &mut words);
        blank.put_back(opener, words);
        opened
    }

    // A table with the first pairs of its plan, and its seats in order. The words are all 0 before and after.
    fn of_plan(
        alloc: Global,
        layout: Layout,
        plan: &Plan,
        rooms: Rooms,
        opener: &mut Opener,
        words: &mut [u64],
    ) -> Result<(Directory, Vec<Seat>), OpenFault>
        requires asked { IsAsked (plain plan.now) }
        requires shape { shape_of layout ≡ (plain plan.now).shape }
        requires room { settings_in opener.old ≡ plan.now.settings }
        requires blank { words.old ≡ replicate (word_count (shape_of layout)) 0 }
        ensures setup { IfOk result (λ r. r.0.setup ≡ plain plan.now) }
        ensures seats { IfOk result (λ r. r.1.items ≡ new_seats r.0 0 plan.now.settings.seats) }
        ensures new { IfOk result (λ r. All (IsNew r.0) r.1.items) }
        ensures count { IfOk result (λ r. length r.1.items ≡ plan.now.settings.seats) }
        ensures room { IfOk result (λ _. IsSetup (plain plan.now)) }
        ensures no_room { (place : ℕ) → result ≡ Err (NoRoom place) →
            IsFirstWithoutRoom (rules_of (plain plan.now)) plan.now.first.items place }
        ensures blank { words.new ≡ words.old }
    {
        if let Err(no_room) = opener.put(&layout, plan.hashing, &plan.first, words) {
            return Err(OpenFault::NoRoom {
                place: no_room.place,
            });
        }
        let opened = Directory::of_words(alloc, layout, plan, rooms, words);
        opener.clear(&layout, words);
        match opened {
            Ok(opened) => Ok(opened),
            Err(_) => Err(OpenFault::Memory),
        }
    }

    // A table over these words, which are those of the opening, and its seats in order.
    fn of_words(
        alloc: Global,
        layout: Layout,
        plan: &Plan,
        mut rooms: Rooms,
        words: &[u64],
    ) -> Result<(Directory, Vec<Seat>), AllocError>
        requires setup { IsSetup (plain plan.now) }
        requires shape { shape_of layout ≡ (plain plan.now).shape }
        requires words { words.now ≡ opening_words (plain plan.now) }
        requires count { length words.now ≡ word_count (plain plan.now).shape }
        ensures setup { IfOk result (λ r. r.0.setup ≡ plain plan.now) }
        ensures seats { IfOk result (λ r. r.1.items ≡ new_seats r.0 0 plan.now.settings.seats) }
        ensures new { IfOk result (λ r. All (IsNew r.0) r.1.items) }
        ensures count { IfOk result (λ r. length r.1.items ≡ plan.now.settings.seats) }
    {
        let mut out = Vec::with_capacity(alloc, plan.settings.seats as usize)?;
        let (table, token) = Board::of_words(alloc, words, plan)?;
        deal(
            alloc,
            &table.shared,
            token,
            &layout,
            plan.hashing,
            plan.settings.seats,
            &mut rooms,
            &mut out,
        )?;
        let directory = Directory {
            table,
            layout,
            hashing: plan.hashing,
            rooms,
        };
        Ok((directory, out))
    }

    /// Ends the run, and gives its rows. It takes all seats of the table, in any order.
    ///
    /// After want of memory the table and its seats come back untouched.
    pub fn close(
        self,
        alloc: Global,
        seats: Vec<Seat>,
    ) -> Result<ClosedRows, (AllocError, Directory, Vec<Seat>)>
        requires seats { All (IsOf self) seats.items }
        requires all { vec_len seats ≡ seats_of self.setup }
        ensures refused { IfErr result (λ e. (e.1 ≡ self) × (e.2.items ≡ seats.items)) }
        ensures ran { IfOk result (λ rows. Ran self.setup rows.words.items seats.items) }
        ensures layout { IfOk result (λ rows. shape_of rows.layout ≡ self.setup.shape) }
    {
        let mut words = match Vec::with_capacity(alloc, self.layout.words() as usize) {
            Ok(words) => words,
            Err(failed) => return Err((failed, self, seats)),
        };
        let closed = self.close_in_place(seats);
        read_all(&closed, &mut words);
        let layout = *closed.layout();
        Ok(ClosedRows { layout, words })
    }

    /// Ends the run, and leaves its words where they stand. It takes all seats of the table, in any order, and no
    /// memory.
    pub fn close_in_place(self, seats: Vec<Seat>) -> ClosedTable
        requires seats { All (IsOf self) seats.items }
        requires all { vec_len seats ≡ seats_of self.setup }
        ensures ran { Ran self.setup result.words seats.items }
        ensures shape { result.shape ≡ self.setup.shape }
        ensures count { length result.words ≡ word_count self.setup.shape }
    {
        let count = self.layout.words() as usize;
        let Directory {
            table,
            layout,
            mut rooms,
            ..
        } = self;
        let token = gather(&table.shared, seats, &mut rooms);
        ClosedTable {
            layout,
            table: table.close_with(token),
            count,
            rooms,
        }
    }
}
