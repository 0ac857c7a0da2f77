//! The calls on a table.

ghost use Rattle.std.specs.Prelude.{◌≡◌, ◌≢◌, ◌≤◌, ◌⊎◌, ◌∷◌, ◌↔◌, [], All, None, Some, map};
ghost use Rattle.std.specs.Arc.{arc_value};
ghost use Rattle.plain_map.specs.Updates.{IsSmallPair};
ghost use Rattle.flowdir_c.specs.declared.holder.Holder.{Holder};
ghost use Rattle.flowdir_c.specs.Shelves.{ShelfValue};
ghost use Rattle.flowdir_c.specs.Asked.{AreOptions};
ghost use Rattle.flowdir_c.specs.Fit.{AreFit, LackRoom, rules_in};
ghost use Rattle.flowdir_c.specs.Told.{pair_of};
ghost use Rattle.flowdir_c.specs.Exports.{
  AreRowsBy,
  AreRowsFor,
  HasNoPlace,
  HasNoSeat,
  IsBoundOf,
  IsLeftAlike,
  IsUnfit,
  IsUnlisted,
  LacksRoom,
  Opens,
  Reopens,
  StaysListed,
  TakesBack,
  TakesSeat,
};
ghost use Rattle.batch_rows.specs.declared.rows.TheConstants.{CALL_LIMIT};
ghost use Rattle.flowdir_c.specs.declared.opening.NotOpened.TheVariants.{Bad, NoRoom};
ghost use Rattle.flowdir_c.specs.declared.shelf.NotTaken.TheVariants.{Busy, Memory};

use crate::answer::FlowPair;
use crate::fewer::splits_by;
use crate::loose::Loose;
use crate::opening::{NotOpened, first_pairs};
use crate::options::{Options, Rows};
use crate::seats::SeatHandle;
use crate::shelf::{NotTaken, shelf_of};
use crate::status::{BAD, BUSY, MEMORY, NO_ROOM, OK};
use crate::tables::TableHandle;
use batch_rows::{CALL_LIMIT, batch_rows};
use shared_table::Blank;
use std::alloc::Global;
use std::mem;
use step_counts::{automatic_rows, bound};

/// The status of an opening that failed.
pub(crate) fn status_of(failed: NotOpened) -> u32
    ensures failed { result ≢ 0 }
    ensures known { result ≤ 3 }
    ensures bad { (result ≡ 2) ↔ (failed ≡ Bad) }
    ensures no_room { result ≡ 3 → failed ≡ NoRoom }
{
    match failed {
        NotOpened::Memory => MEMORY,
        NotOpened::Bad => BAD,
        NotOpened::NoRoom => NO_ROOM,
    }
}

/// The status of a seat that was not taken.
pub(crate) fn sit_status(failed: NotTaken) -> u32
    ensures { (failed ≡ Memory → result ≡ 1) × (failed ≡ Busy → result ≡ 5) }
{
    match failed {
        NotTaken::Memory => MEMORY,
        NotTaken::Busy => BUSY,
    }
}

/// The most atomic steps of an update, or 0 where the options are out of their ranges.
#[unsafe(no_mangle)]
pub extern "C" fn flowdir_bound(options: &Options) -> u64
    ensures { IsBoundOf options.now result }
{
    match options.settings() {
        Some(settings) => bound(&settings),
        None => 0,
    }
}

/// The rows with which no update of a seat that makes so many is refused.
#[unsafe(no_mangle)]
pub extern "C" fn flowdir_rows_for(options: &Options, updates: u32, out: &mut Rows) -> u32
    ensures rows { result ≡ 0 → AreRowsFor options.now updates out.new }
    ensures bad { result ≢ 0 → out.new ≡ out.old }
    ensures cause { result ≢ 0 → (result ≡ 2) × AreOptions options.now None }
{
    let Some(settings) = options.settings() else {
        return BAD;
    };
    let rows = automatic_rows(&settings, updates);
    *out = Rows::of_rows(&rows);
    OK
}

/// The rows with which no update of a seat that makes so many is refused, where no more than so many keys come to the
/// table, its first ones among them.
#[unsafe(no_mangle)]
pub extern "C" fn flowdir_rows_by(options: &Options, updates: u32, keys: u64, out: &mut Rows) -> u32
    ensures rows { result ≡ 0 → AreRowsBy options.now updates keys out.new }
    ensures bad { result ≢ 0 → out.new ≡ out.old }
    ensures cause { result ≢ 0 → (result ≡ 2) × (AreOptions options.now None ⊎ (CALL_LIMIT ≤ updates)) }
{
    let Some(settings) = options.settings() else {
        return BAD;
    };
    if updates as usize >= CALL_LIMIT {
        return BAD;
    }
    let rows = batch_rows(&settings, updates, splits_by(&settings, keys));
    *out = Rows::of_rows(&rows);
    OK
}

/// Opens a table with these pairs.
#[unsafe(no_mangle)]
pub extern "C" fn flowdir_open(
    alloc: Global,
    options: &Options,
    first: &[FlowPair],
    table: &mut TableHandle,
) -> u32
    ensures opened { result ≡ 0 → Opens options.now first.now table.new.holders }
    ensures unopened { result ≢ 0 → table.new.holders ≡ table.old.holders }
    ensures known { result ≤ 3 }
    ensures bad { result ≡ 2 → IsUnfit options.now first.now }
    ensures unfit { (AreFit options.now → ⊥) → result ≡ 2 }
    ensures large { (All IsSmallPair (map pair_of first.now) → ⊥) → result ≡ 2 }
    ensures no_room { result ≡ 3 → LackRoom (rules_in options.now) (map pair_of first.now) }
{
    let Some((settings, rows)) = options.fit() else {
        return BAD;
    };
    let pairs = match first_pairs(alloc, first) {
        Ok(pairs) => pairs,
        Err(failed) => return status_of(failed),
    };
    match shelf_of(
        alloc,
        &mut Blank::new(alloc),
        &settings,
        options.seed,
        rows,
        &pairs,
    ) {
        Ok(shelf) => {
            let Ok(shelf) = Box::new(alloc, shelf) else {
                return MEMORY;
            };
            *table = TableHandle::of_loose(Loose::of(shelf));
            OK
        }
        Err(failed) => status_of(failed),
    }
}

/// Takes a seat that nobody has had.
#[unsafe(no_mangle)]
pub extern "C" fn flowdir_sit(alloc: Global, table: &mut TableHandle, seat: &mut SeatHandle) -> u32
    requires { (v : ShelfValue) × (table.old.holders ≡ v ∷ []) }
    ensures seat { result ≡ 0 → TakesSeat table.old.holders table.new.holders seat.new.holders }
    ensures table { result ≢ 0 → StaysListed table.old.holders table.new.holders }
    ensures unseated { result ≢ 0 → seat.new.holders ≡ seat.old.holders }
    ensures cause { result ≢ 0 → (result ≡ 1) ⊎ ((result ≡ 5) × HasNoSeat table.old.holders) }
    ensures none { HasNoSeat table.old.holders → result ≡ 5 }
{
    let mut shelf = mem::replace(table, TableHandle::blank())
        .into_loose(alloc)
        .into_box();
    let holder = match shelf.take() {
        Ok(holder) => holder,
        Err(failed) => {
            *table = TableHandle::of_loose(Loose::of(shelf));
            return sit_status(failed);
        }
    };
    match Box::new(alloc, holder) {
        Ok(holder) => {
            *table = TableHandle::of_loose(Loose::of(shelf));
            *seat = SeatHandle::of_loose(Loose::of(holder));
            OK
        }
        Err(failed) => {
            shelf.put_back(failed.value);
            *table = TableHandle::of_loose(Loose::of(shelf));
            MEMORY
        }
    }
}

/// Gives a seat back to the table that it is of.
#[unsafe(no_mangle)]
pub extern "C" fn flowdir_rise(alloc: Global, table: &mut TableHandle, seat: &mut SeatHandle) -> u32
    requires { (v : ShelfValue) × ((w : Holder) × ((table.old.holders ≡ v ∷ []) × (seat.old.holders ≡ w ∷ [])
        × (Some (arc_value w.directory) ≡ v.table))) }
    ensures risen { result ≡ 0 → TakesBack table.old.holders table.new.holders seat.old.holders }
    ensures blank { result ≡ 0 → seat.new.holders ≡ [] }
    ensures table { result ≢ 0 → StaysListed table.old.holders table.new.holders }
    ensures sitting { result ≢ 0 → seat.new.holders ≡ seat.old.holders }
    ensures cause { result ≢ 0 → (result ≡ 2) × HasNoPlace table.old.holders }
{
    let mut shelf = mem::replace(table, TableHandle::blank())
        .into_loose(alloc)
        .into_box();
    if !shelf.has_place() {
        *table = TableHandle::of_loose(Loose::of(shelf));
        return BAD;
    }
    let holder = mem::replace(seat, SeatHandle::blank())
        .into_loose(alloc)
        .into_box();
    shelf.keep(Box::into_inner(holder));
    *table = TableHandle::of_loose(Loose::of(shelf));
    OK
}

/// Opens the next table with the pairs that a closed one left and listed. It is opened in the words that the closed one
/// kept, and keeps them. With the items, depth and seed of the table that was closed, each pair finds room.
#[unsafe(no_mangle)]
pub extern "C" fn flowdir_reopen(
    alloc: Global,
    options: &Options,
    closed: &mut TableHandle,
    table: &mut TableHandle,
) -> u32
    requires { (v : ShelfValue) × (closed.old.holders ≡ v ∷ []) }
    ensures closed { StaysListed closed.old.holders closed.new.holders }
    ensures opened { result ≡ 0 → Reopens options.now closed.new.holders table.new.holders }
    ensures unopened { result ≢ 0 → table.new.holders ≡ table.old.holders }
    ensures known { result ≤ 3 }
    ensures bad { result ≡ 2 → (AreFit options.now → ⊥) ⊎ IsUnlisted closed.old.holders }
    ensures unfit { (AreFit options.now → ⊥) → result ≡ 2 }
    ensures unlisted { IsUnlisted closed.old.holders → result ≡ 2 }
    ensures no_room { result ≡ 3 → LacksRoom options.now closed.old.holders }
    ensures never { IsLeftAlike options.now closed.old.holders → result ≢ 3 }
{
    let Some((settings, rows)) = options.fit() else {
        return BAD;
    };
    let mut shelf = mem::replace(closed, TableHandle::blank())
        .into_loose(alloc)
        .into_box();
    if !shelf.is_listed() {
        *closed = TableHandle::of_loose(Loose::of(shelf));
        return BAD;
    }
    let opened = shelf.reopened(alloc, &settings, options.seed, rows);
    *closed = TableHandle::of_loose(Loose::of(shelf));
    match opened {
        Ok(next) => {
            *table = TableHandle::of_loose(Loose::of(next));
            OK
        }
        Err(failed) => status_of(failed),
    }
}
