//! A table, with the seats that nobody has, or what it left.

ghost use Rattle.std.specs.Prelude.{
  ◌≡◌,
  ◌≢◌,
  ◌+◌,
  ◌^◌,
  ◌<◌,
  ◌≤◌,
  ◌⊎◌,
  ◌++◌,
  ◌∷◌,
  [],
  All,
  Err,
  IfErr,
  IfOk,
  IfSome,
  IsSomeAnd,
  IsTrue,
  None,
  Ok,
  OnErr,
  Some,
  false,
  length,
  reverse,
  slice_get,
  true,
  vec_capacity,
  vec_len,
};
ghost use Rattle.std.specs.Option.{option_map};
ghost use Rattle.flowdir_c.specs.Told.{pair_of};
ghost use Rattle.std.specs.Arc.{arc_value};
ghost use Rattle.bucket_states.specs.Parts.{HasDistinctKeys};
ghost use Rattle.table_model.specs.Setup.{HaveRoom, IsPair};
ghost use Rattle.shared_table.specs.Values.{IsOf, TableValue, new_seat, new_seats};
ghost use Rattle.flowdir_c.specs.Opened.{IsOpened};
ghost use Rattle.flowdir_c.specs.Shelves.{ArePairsOf, HasSeatOut, IsLeftBy, WasLeftTo};
ghost use Rattle.flowdir_c.specs.Fit.{LackRoom, rules_with};
ghost use Rattle.flowdir_c.specs.declared.opening.NotOpened.TheVariants.{Bad, NoRoom};
ghost use Rattle.flowdir_c.specs.declared.shelf.NotTaken.TheVariants.{Busy};
ghost use Rattle.word_rows.specs.Shape.{AreBelow};

use crate::answer::FlowPair;
use crate::holder::Holder;
use crate::opening::{NotOpened, rows_of};
use crate::peeker::{Peeker, peeker_of};
use hash_bits::Hashing;
use order_laws::reopen_laws;
use plain_map::{OpenFault, Pair};
use shared_table::{Blank, ClosedTable, Directory, Seat};
use std::alloc::{AllocError, Global};
use std::marker::Model;
use std::mem;
use std::sync::Arc;
use step_counts::{SeatRows, Settings};

/// Why no seat was taken.
#[derive(Clone, Copy)]
pub(crate) enum NotTaken {
    Memory,
    Busy,
}

/// A directory, until it is closed; the seats that nobody has had yet, and those that were given back; what a closed
/// directory left, and once they are listed its pairs; and words that are kept for the next opening.
#[derive(Drop)]
pub struct Shelf {
    directory: Option<Arc<Directory, Global>>,
    fresh: Vec<Seat>,
    back: Vec<Seat>,
    count: u32,
    left: Option<ClosedTable>,
    is_listed: bool,
    pairs: Vec<Pair>,
    // Nothing, until a table was opened after a closed one.
    blank: Blank,
}

impl Model for Shelf {
    ghost use Rattle.flowdir_c.specs.Shelves.{ShelfValue};

    ghost Value = { ShelfValue };

    ghost use Rattle.flowdir_c.specs.Insides.{ShelfStands, shelf_value};

    ghost view = { shelf_value };

    ghost invariant = { ShelfStands };
}

/// A table with these pairs, and all its seats. It is opened in these words, which are all 0 again then.
pub(crate) fn shelf_of(
    alloc: Global,
    blank: &mut Blank,
    settings: &Settings,
    seed: u64,
    rows: SeatRows,
    first: &[Pair],
) -> Result<Shelf, NotOpened>
    requires small { AreBelow (2 ^ 32) rows }
    requires pairs { All IsPair first.now }
    requires distinct { HasDistinctKeys first.now }
    ensures opened { IfOk result (λ shelf. IsSomeAnd shelf.table (λ t.
        IsOpened settings.now seed rows first.now t.setup)) }
    ensures seats { IfOk result (λ shelf. shelf.free ≡ settings.now.seats) }
    ensures none_back { IfOk result (λ shelf. shelf.back ≡ []) }
    ensures none_left { IfOk result (λ shelf. shelf.left ≡ None) }
    ensures unlisted { IfOk result (λ shelf. shelf.is_listed ≡ false) }
    ensures none_listed { IfOk result (λ shelf. shelf.pairs ≡ []) }
    ensures a_place_each { IfOk result (λ shelf. settings.now.seats ≤ shelf.places) }
    ensures bad { result ≢ Err Bad }
    ensures no_room { result ≡ Err NoRoom → LackRoom (rules_with settings.now seed) first.now }
    ensures room { HaveRoom (rules_with settings.now seed) first.now → result ≢ Err NoRoom }
{
    reopen_laws();
    let Ok(rows) = rows_of(alloc, rows, settings.seats) else {
        return Err(NotOpened::Memory);
    };
    let Ok(back) = Vec::with_capacity(alloc, settings.seats as usize) else {
        return Err(NotOpened::Memory);
    };
    let hashing = Hashing::Mix(seed);
    match Directory::open_in(alloc, blank, settings, hashing, &rows, first) {
        Ok((directory, fresh)) => {
            let Ok(directory) = Arc::new(alloc, directory) else {
                return Err(NotOpened::Memory);
            };
            Ok(Shelf {
                directory: Some(directory),
                fresh,
                back,
                count: settings.seats,
                left: None,
                is_listed: false,
                pairs: Vec::new(alloc),
                blank: Blank::new(alloc),
            })
        }
        Err(OpenFault::Memory) => Err(NotOpened::Memory),
        Err(OpenFault::NoRoom { .. }) => Err(NotOpened::NoRoom),
    }
}

// Adds a seat, if there is a place for it.
fn add(seats: &mut Vec<Seat>, seat: Seat)
    ensures of { (t : TableValue) → All (IsOf t) seats.old.items → IsOf t seat → All (IsOf t) seats.new.items }
    ensures added { vec_len seats.old < vec_capacity seats.old → seats.new.items ≡ seats.old.items ++ seat ∷ [] }
    ensures places { vec_capacity seats.new ≡ vec_capacity seats.old }
{
    if seats.len() < seats.capacity() {
        seats.push_reserved(seat);
    }
}

// Puts the seats of one list behind those of another, the last one first.
fn move_all(from: &mut Vec<Seat>, to: &mut Vec<Seat>)
    requires { vec_len to.old + vec_len from.old ≤ vec_capacity to.old }
    ensures all { to.new.items ≡ to.old.items ++ reverse from.old.items }
    ensures none { from.new.items ≡ [] }
{
    while let Some(seat) = from.pop() {
        to.push_reserved(seat);
    }
}

// A new seat beside its directory.
fn holder_of(directory: Arc<Directory, Global>, seat: Seat) -> Holder
    requires { seat ≡ new_seat (arc_value directory) seat.holding.seat }
    ensures seat { result.seat ≡ seat }
    ensures directory { arc_value result.directory ≡ arc_value directory }
    ensures calls { result.calls ≡ 0 }
{
    Holder {
        directory,
        seat,
        calls: 0,
    }
}

impl Shelf {
    /// Takes the last of the seats that nobody has had. `Busy` comes exactly if there is none, or no table runs.
    pub(crate) fn take(&mut self) -> Result<Holder, NotTaken>
        ensures table { self.new.table ≡ self.old.table }
        ensures back { self.new.back ≡ self.old.back }
        ensures taken { IfOk result (λ holder. Some (arc_value holder.directory) ≡ self.old.table) }
        ensures new { IfOk result (λ holder. holder.seat ≡ new_seat (arc_value holder.directory) self.new.free) }
        ensures unasked { IfOk result (λ holder. holder.calls ≡ 0) }
        ensures places { IfOk result (λ _. self.new.places ≡ self.old.places) }
        ensures free_places { IfOk result (λ _. self.new.free_places ≡ self.old.free_places) }
        ensures left { IfOk result (λ _. self.new.left ≡ self.old.left) }
        ensures is_listed { IfOk result (λ _. self.new.is_listed ≡ self.old.is_listed) }
        ensures pairs { IfOk result (λ _. self.new.pairs ≡ self.old.pairs) }
        ensures kept { IfErr result (λ _. self.new ≡ self.old) }
        ensures one { IfOk result (λ _. self.new.free + 1 ≡ self.old.free) }
        ensures place { IfOk result (λ _. self.new.free < self.new.free_places) }
        ensures busy { result ≡ Err Busy → (self.old.table ≡ None) ⊎ (self.old.free ≡ 0) }
        ensures none { (self.old.table ≡ None) ⊎ (self.old.free ≡ 0) → result ≡ Err Busy }
    {
        let Some(directory) = &self.directory else {
            return Err(NotTaken::Busy);
        };
        if self.fresh.is_empty() {
            return Err(NotTaken::Busy);
        }
        let Ok(directory) = Arc::try_clone(directory) else {
            return Err(NotTaken::Memory);
        };
        let Some(seat) = self.fresh.pop() else {
            return Err(NotTaken::Busy);
        };
        Ok(holder_of(directory, seat))
    }

    /// Puts a seat that was not given out again to those that nobody has had.
    pub(crate) fn put_back(&mut self, holder: Holder)
        requires table { Some (arc_value holder.directory) ≡ self.old.table }
        requires new { holder.seat ≡ new_seat (arc_value holder.directory) self.old.free }
        requires place { self.old.free < self.old.free_places }
        ensures table { self.new.table ≡ self.old.table }
        ensures back { self.new.back ≡ self.old.back }
        ensures one { self.new.free ≡ self.old.free + 1 }
        ensures places { self.new.places ≡ self.old.places }
        ensures free_places { self.new.free_places ≡ self.old.free_places }
        ensures left { self.new.left ≡ self.old.left }
        ensures is_listed { self.new.is_listed ≡ self.old.is_listed }
        ensures pairs { self.new.pairs ≡ self.old.pairs }
    {
        let Holder { seat, .. } = holder;
        add(&mut self.fresh, seat);
    }

    /// Whether a table runs.
    pub(crate) fn runs(&self) -> bool
        ensures not { result ≡ false → self.now.table ≡ None }
        ensures runs { IsTrue result → self.now.table ≡ None → ⊥ }
    {
        self.directory.is_some()
    }

    /// A new reader, if the table runs.
    pub(crate) fn reader(&self) -> Option<Peeker>
        ensures { IfSome result (λ peeker. Some (arc_value peeker.directory) ≡ self.now.table) }
    {
        let Some(directory) = &self.directory else {
            return None;
        };
        match Arc::try_clone(directory) {
            Ok(directory) => Some(peeker_of(directory)),
            Err(_) => None,
        }
    }

    /// Whether there is a place for one more seat that is given back.
    pub(crate) fn has_place(&self) -> bool
        ensures place { IsTrue result → length self.now.back < self.now.places }
        ensures full { result ≡ false → self.now.places ≤ length self.now.back }
    {
        self.back.len() < self.back.capacity()
    }

    /// Takes a seat of its own back.
    pub(crate) fn keep(&mut self, holder: Holder)
        requires own { Some (arc_value holder.directory) ≡ self.old.table }
        requires place { length self.old.back < self.old.places }
        ensures table { self.new.table ≡ self.old.table }
        ensures free { self.new.free ≡ self.old.free }
        ensures back { self.new.back ≡ self.old.back ++ holder.seat ∷ [] }
        ensures places { self.new.places ≡ self.old.places }
        ensures left { self.new.left ≡ self.old.left }
        ensures is_listed { self.new.is_listed ≡ self.old.is_listed }
        ensures pairs { self.new.pairs ≡ self.old.pairs }
    {
        let Holder { seat, .. } = holder;
        add(&mut self.back, seat);
    }

    /// Ends the table, if each of its seats was given back or never taken, and no reader is left.
    pub(crate) fn close(&mut self, alloc: Global) -> bool
        ensures closed { IsTrue result → self.new.table ≡ None }
        ensures left { IsTrue result → (t : TableValue) × ((self.old.table ≡ Some t) × IsSomeAnd self.new.left
            (WasLeftTo t.setup (self.old.back ++ reverse (new_seats t 0 self.old.free)))) }
        ensures free { IsTrue result → self.new.free ≡ 0 }
        ensures back { IsTrue result → self.new.back ≡ [] }
        ensures unlisted { IsTrue result → self.new.is_listed ≡ false }
        ensures pairs { IsTrue result → self.new.pairs ≡ self.old.pairs }
        ensures kept { result ≡ false → self.new ≡ self.old }
        ensures none { self.old.table ≡ None → result ≡ false }
        ensures out { HasSeatOut self.old → result ≡ false }
    {
        if self.back.len() + self.fresh.len() != self.count as usize {
            return false;
        }
        let Some(directory) = self.directory.take() else {
            return false;
        };
        match Arc::try_unwrap(directory) {
            Ok(directory) => {
                move_all(&mut self.fresh, &mut self.back);
                let seats = mem::replace(&mut self.back, Vec::new(alloc));
                self.left = Some(directory.close_in_place(seats));
                self.is_listed = false;
                true
            }
            Err(directory) => {
                self.directory = Some(directory);
                false
            }
        }
    }

    /// Lists the pairs of a closed table, and tells whether it is closed. The only error is want of memory.
    pub(crate) fn list(&mut self, alloc: Global) -> Result<bool, AllocError>
        ensures table { self.new.table ≡ self.old.table }
        ensures free { self.new.free ≡ self.old.free }
        ensures back { self.new.back ≡ self.old.back }
        ensures places { self.new.places ≡ self.old.places }
        ensures left { self.new.left ≡ self.old.left }
        ensures is_listed { result ≡ Ok true → self.new.is_listed ≡ true }
        ensures open { result ≡ Ok false → self.old.left ≡ None }
        ensures unclosed { self.old.left ≡ None → result ≡ Ok false }
        ensures unlisted { result ≡ Ok false → self.new ≡ self.old }
        ensures kept { OnErr result (self.new ≡ self.old) }
        ensures listed { IfOk result (λ is_closed. IsTrue is_closed →
            IsSomeAnd self.new.left (λ left. ArePairsOf left self.new.pairs)) }
    {
        reopen_laws();
        let Some(left) = &self.left else {
            return Ok(false);
        };
        let pairs = left.pairs(alloc)?;
        self.pairs = pairs;
        self.is_listed = true;
        Ok(true)
    }

    /// Whether the pairs of a closed table are listed.
    pub(crate) fn is_listed(&self) -> bool
        ensures is { result ≡ self.now.is_listed }
        ensures listed { IsTrue result → IsSomeAnd self.now.left (λ left. ArePairsOf left self.now.pairs) }
    {
        self.is_listed
    }

    /// How many pairs are listed.
    pub(crate) fn count(&self) -> usize
        ensures { result ≡ length self.now.pairs }
    {
        self.pairs.len()
    }

    /// The pair at this place of those that are listed.
    pub(crate) fn pair_at(&self, at: usize) -> Option<FlowPair>
        ensures { option_map pair_of result ≡ slice_get self.now.pairs at }
    {
        match self.pairs.get(at) {
            Some(pair) => Some(FlowPair::of_pair(pair)),
            None => None,
        }
    }

    /// The next table, with the pairs that are listed. It is opened in the words that are kept here, and keeps them.
    /// If none is opened, they stay here.
    pub(crate) fn reopened(
        &mut self,
        alloc: Global,
        settings: &Settings,
        seed: u64,
        rows: SeatRows,
    ) -> Result<Box<Shelf, Global>, NotOpened>
        requires small { AreBelow (2 ^ 32) rows }
        ensures same { self.new ≡ self.old }
        ensures opened { IfOk result (λ shelf. IsSomeAnd shelf.value.table (λ t.
            IsOpened settings.now seed rows self.old.pairs t.setup)) }
        ensures seats { IfOk result (λ shelf. shelf.value.free ≡ settings.now.seats) }
        ensures none_back { IfOk result (λ shelf. shelf.value.back ≡ []) }
        ensures none_left { IfOk result (λ shelf. shelf.value.left ≡ None) }
        ensures unlisted { IfOk result (λ shelf. shelf.value.is_listed ≡ false) }
        ensures none_listed { IfOk result (λ shelf. shelf.value.pairs ≡ []) }
        ensures a_place_each { IfOk result (λ shelf. settings.now.seats ≤ shelf.value.places) }
        ensures bad { result ≢ Err Bad }
        ensures no_room { result ≡ Err NoRoom → LackRoom (rules_with settings.now seed) self.old.pairs }
        ensures never { IsTrue self.old.is_listed → IsLeftBy (rules_with settings.now seed) self.old →
            result ≢ Err NoRoom }
    {
        reopen_laws();
        let opened = shelf_of(alloc, &mut self.blank, settings, seed, rows, &self.pairs)?;
        let Ok(mut next) = Box::new(alloc, opened) else {
            return Err(NotOpened::Memory);
        };
        self.hand_on(&mut next);
        Ok(next)
    }

    // Gives the words that are kept here to another shelf, and keeps that one's.
    fn hand_on(&mut self, next: &mut Shelf)
        ensures { (self.new ≡ self.old) × (next.new ≡ next.old) }
    {
        mem::swap(&mut self.blank, &mut next.blank);
    }
}
