//! The calls on a lasting table.

ghost use Rattle.std.specs.Prelude.{◌≡◌, ◌≢◌, ◌≤◌, ◌⊎◌, ◌∷◌, [], All, map};
ghost use Rattle.std.specs.Arc.{arc_value};
ghost use Rattle.flowdir_c.specs.declared.lasting_holder.LastingHolder.{LastingHolder};
ghost use Rattle.flowdir_c.specs.LastingShelves.{LastingValue};
ghost use Rattle.flowdir_c.specs.LastingExports.{
  CopiedAtRest,
  HasNoPlace,
  HasNoSeat,
  HasOneOut,
  HasReader,
  IsUnfit,
  LacksRoom,
  Opens,
  Stays,
  TakesBack,
  TakesSeat,
};
ghost use Rattle.plain_map.specs.Updates.{IsSmallPair};
ghost use Rattle.flowdir_c.specs.LastingAsked.{AreWithin};
ghost use Rattle.flowdir_c.specs.Told.{pair_of};

use crate::answer::FlowPair;
use crate::lasting_options::LastingOptions;
use crate::lasting_readers::LastingReaderHandle;
use crate::lasting_seats::LastingSeatHandle;
use crate::lasting_shelf::lasting_shelf_of;
use crate::lasting_tables::LastingHandle;
use crate::loose::Loose;
use crate::opening::first_pairs;
use crate::status::{BAD, BUSY, MEMORY, NO_ROOM, OK};
use crate::table_exports::{sit_status, status_of};
use std::alloc::Global;
use std::mem;

/// Opens a lasting table with these pairs.
#[unsafe(no_mangle)]
pub extern "C" fn flowdir_lasting_open(
    alloc: Global,
    options: &LastingOptions,
    first: &[FlowPair],
    table: &mut LastingHandle,
) -> u32
    ensures opened { result ≡ 0 → Opens options.now first.now table.new.holders }
    ensures unopened { result ≢ 0 → table.new.holders ≡ table.old.holders }
    ensures known { result ≤ 3 }
    ensures bad { result ≡ 2 → IsUnfit options.now first.now }
    ensures unfit { (AreWithin options.now → ⊥) → result ≡ 2 }
    ensures large { (All IsSmallPair (map pair_of first.now) → ⊥) → result ≡ 2 }
    ensures no_room { result ≡ 3 → LacksRoom options.now first.now }
{
    let Some(settings) = options.settings() else {
        return BAD;
    };
    let pairs = match first_pairs(alloc, first) {
        Ok(pairs) => pairs,
        Err(failed) => return status_of(failed),
    };
    let Ok(mut shelf) = lasting_shelf_of(alloc, &settings, options.seed) else {
        return MEMORY;
    };
    if !shelf.fill(&pairs) {
        return NO_ROOM;
    }
    let Ok(shelf) = Box::new(alloc, shelf) else {
        return MEMORY;
    };
    *table = LastingHandle::of_loose(Loose::of(shelf));
    OK
}

/// Takes a seat that nobody has now.
#[unsafe(no_mangle)]
pub extern "C" fn flowdir_lasting_sit(
    alloc: Global,
    table: &mut LastingHandle,
    seat: &mut LastingSeatHandle,
) -> u32
    requires { (v : LastingValue) × (table.old.holders ≡ v ∷ []) }
    ensures seat { result ≡ 0 → TakesSeat table.old.holders table.new.holders seat.new.holders }
    ensures table { result ≢ 0 → Stays table.old.holders table.new.holders }
    ensures unseated { result ≢ 0 → seat.new.holders ≡ seat.old.holders }
    ensures cause { result ≢ 0 → (result ≡ 1) ⊎ ((result ≡ 5) × HasNoSeat table.old.holders) }
    ensures none { HasNoSeat table.old.holders → result ≡ 5 }
{
    let mut shelf = mem::replace(table, LastingHandle::blank())
        .into_loose(alloc)
        .into_box();
    let holder = match shelf.take() {
        Ok(holder) => holder,
        Err(failed) => {
            *table = LastingHandle::of_loose(Loose::of(shelf));
            return sit_status(failed);
        }
    };
    match Box::new(alloc, holder) {
        Ok(holder) => {
            *table = LastingHandle::of_loose(Loose::of(shelf));
            *seat = LastingSeatHandle::of_loose(Loose::of(holder));
            OK
        }
        Err(failed) => {
            shelf.keep(failed.value);
            *table = LastingHandle::of_loose(Loose::of(shelf));
            MEMORY
        }
    }
}

/// Gives a seat back to the table that it is of.
#[unsafe(no_mangle)]
pub extern "C" fn flowdir_lasting_rise(
    alloc: Global,
    table: &mut LastingHandle,
    seat: &mut LastingSeatHandle,
) -> u32
    requires { (v : LastingValue) × ((w : LastingHolder) × ((table.old.holders ≡ v ∷ [])
        × (seat.old.holders ≡ w ∷ []) × (arc_value w.table ≡ v.table))) }
    ensures risen { result ≡ 0 → TakesBack table.old.holders table.new.holders seat.old.holders }
    ensures blank { result ≡ 0 → seat.new.holders ≡ [] }
    ensures table { result ≢ 0 → Stays table.old.holders table.new.holders }
    ensures sitting { result ≢ 0 → seat.new.holders ≡ seat.old.holders }
    ensures cause { result ≢ 0 → (result ≡ 2) × HasNoPlace table.old.holders }
{
    let mut shelf = mem::replace(table, LastingHandle::blank())
        .into_loose(alloc)
        .into_box();
    if !shelf.has_place() {
        *table = LastingHandle::of_loose(Loose::of(shelf));
        return BAD;
    }
    let holder = mem::replace(seat, LastingSeatHandle::blank())
        .into_loose(alloc)
        .into_box();
    shelf.keep(Box::into_inner(holder));
    *table = LastingHandle::of_loose(Loose::of(shelf));
    OK
}

/// Copies the pairs of a bucket of a table at rest, and tells how many there are.
#[unsafe(no_mangle)]
pub extern "C" fn flowdir_lasting_at_rest(
    alloc: Global,
    table: &mut LastingHandle,
    bucket: u64,
    pairs: &mut [FlowPair],
    out: &mut usize,
) -> u32
    requires { (v : LastingValue) × (table.old.holders ≡ v ∷ []) }
    ensures copied { result ≢ 5 →
        CopiedAtRest bucket table.old.holders table.new.holders pairs.old pairs.new out.old out.new result }
    ensures busy { result ≡ 5 → HasOneOut table.old.holders }
    ensures out { HasOneOut table.old.holders → result ≡ 5 }
    ensures kept { result ≡ 5 →
        Stays table.old.holders table.new.holders × (pairs.new ≡ pairs.old) × (out.new ≡ out.old) }
{
    let mut shelf = mem::replace(table, LastingHandle::blank())
        .into_loose(alloc)
        .into_box();
    if !shelf.is_at_rest() {
        *table = LastingHandle::of_loose(Loose::of(shelf));
        return BUSY;
    }
    let told = shelf.copy(bucket, pairs);
    *table = LastingHandle::of_loose(Loose::of(shelf));
    match told {
        Some(count) => {
            *out = count;
            OK
        }
        None => BAD,
    }
}

/// A new reader of a table.
#[unsafe(no_mangle)]
pub extern "C" fn flowdir_lasting_read(
    alloc: Global,
    table: &mut LastingHandle,
    reader: &mut LastingReaderHandle,
) -> u32
    requires { (v : LastingValue) × (table.old.holders ≡ v ∷ []) }
    ensures table { Stays table.old.holders table.new.holders }
    ensures reader { result ≡ 0 → HasReader table.new.holders reader.new.holders }
    ensures unread { result ≢ 0 → (result ≡ 1) × (reader.new.holders ≡ reader.old.holders) }
{
    let shelf = mem::replace(table, LastingHandle::blank())
        .into_loose(alloc)
        .into_box();
    let made = shelf.reader();
    *table = LastingHandle::of_loose(Loose::of(shelf));
    let Some(peeker) = made else {
        return MEMORY;
    };
    let Ok(peeker) = Box::new(alloc, peeker) else {
        return MEMORY;
    };
    *reader = LastingReaderHandle::of_loose(Loose::of(peeker));
    OK
}

/// Gives a table up.
#[unsafe(no_mangle)]
pub extern "C" fn flowdir_lasting_free(alloc: Global, table: &mut LastingHandle)
    requires { (v : LastingValue) × (table.old.holders ≡ v ∷ []) }
    ensures { table.new.holders ≡ [] }
{
    let shelf = mem::replace(table, LastingHandle::blank())
        .into_loose(alloc)
        .into_box();
    drop(shelf);
}
