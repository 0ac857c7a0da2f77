//! The calls that end a table, and those on what it leaves.

ghost use Rattle.std.specs.Prelude.{◌≡◌, ◌≢◌, ◌⊎◌, ◌∷◌, []};
ghost use Rattle.flowdir_c.specs.Shelves.{ShelfValue};
ghost use Rattle.flowdir_c.specs.Exports.{
  HasNoPairAt,
  HasOneOut,
  IsClosed,
  IsCounted,
  IsPairAt,
  IsUnclosed,
  RunsNone,
  StaysListed,
};

use crate::answer::FlowPair;
use crate::loose::Loose;
use crate::status::{BAD, BUSY, MEMORY, OK};
use crate::tables::TableHandle;
use std::alloc::Global;
use std::mem;

/// Closes a table each of whose seats was given back or never taken, and whose readers have all left.
#[unsafe(no_mangle)]
pub extern "C" fn flowdir_close(alloc: Global, table: &mut TableHandle) -> u32
    requires { (v : ShelfValue) × (table.old.holders ≡ v ∷ []) }
    ensures closed { result ≡ 0 → IsClosed table.old.holders table.new.holders }
    ensures open { result ≢ 0 → (result ≡ 5) × StaysListed table.old.holders table.new.holders }
    ensures none { RunsNone table.old.holders → result ≡ 5 }
    ensures out { HasOneOut table.old.holders → result ≡ 5 }
{
    let mut shelf = mem::replace(table, TableHandle::blank())
        .into_loose(alloc)
        .into_box();
    let is_closed = shelf.close(alloc);
    *table = TableHandle::of_loose(Loose::of(shelf));
    if is_closed { OK } else { BUSY }
}

/// Lists the pairs of a closed table, and tells how many there are.
#[unsafe(no_mangle)]
pub extern "C" fn flowdir_list(alloc: Global, table: &mut TableHandle, out: &mut usize) -> u32
    requires { (v : ShelfValue) × (table.old.holders ≡ v ∷ []) }
    ensures counted { result ≡ 0 → IsCounted table.old.holders table.new.holders out.new }
    ensures uncounted { result ≢ 0 → out.new ≡ out.old }
    ensures kept { result ≢ 0 → StaysListed table.old.holders table.new.holders }
    ensures cause { result ≢ 0 → (result ≡ 1) ⊎ ((result ≡ 2) × IsUnclosed table.old.holders) }
    ensures open { IsUnclosed table.old.holders → result ≡ 2 }
{
    let mut shelf = mem::replace(table, TableHandle::blank())
        .into_loose(alloc)
        .into_box();
    let listed = shelf.list(alloc);
    let count = shelf.count();
    *table = TableHandle::of_loose(Loose::of(shelf));
    match listed {
        Ok(true) => {
            *out = count;
            OK
        }
        Ok(false) => BAD,
        Err(_) => MEMORY,
    }
}

/// Tells the pair at this place, in the order of keys.
#[unsafe(no_mangle)]
pub extern "C" fn flowdir_pair_at(
    alloc: Global,
    table: &mut TableHandle,
    at: usize,
    out: &mut FlowPair,
) -> u32
    requires { (v : ShelfValue) × (table.old.holders ≡ v ∷ []) }
    ensures table { StaysListed table.old.holders table.new.holders }
    ensures pair { result ≡ 0 → IsPairAt table.new.holders at out.new }
    ensures none { result ≢ 0 → out.new ≡ out.old }
    ensures cause { result ≢ 0 → (result ≡ 2) × HasNoPairAt table.old.holders at }
{
    let shelf = mem::replace(table, TableHandle::blank())
        .into_loose(alloc)
        .into_box();
    let pair = shelf.pair_at(at);
    *table = TableHandle::of_loose(Loose::of(shelf));
    match pair {
        Some(pair) => {
            *out = pair;
            OK
        }
        None => BAD,
    }
}

/// Gives up a table, whether it is closed or not.
#[unsafe(no_mangle)]
pub extern "C" fn flowdir_free(alloc: Global, table: &mut TableHandle)
    requires { (v : ShelfValue) × (table.old.holders ≡ v ∷ []) }
    ensures { table.new.holders ≡ [] }
{
    let shelf = mem::replace(table, TableHandle::blank())
        .into_loose(alloc)
        .into_box();
    drop(shelf);
}
