//! The calls by a reader.

ghost use Rattle.std.specs.Prelude.{◌≡◌, ◌≢◌, ◌⊎◌, ◌∷◌, []};
ghost use Rattle.flowdir_c.specs.declared.peeker.Peeker.{Peeker};
ghost use Rattle.flowdir_c.specs.Shelves.{ShelfValue};
ghost use Rattle.flowdir_c.specs.Exports.{HasReader, Peeked, RunsNone, StaysListed};
ghost use Rattle.flowdir_c.specs.Told.{key_of};

use crate::answer::{Answer, FlowKey};
use crate::loose::Loose;
use crate::readers::ReaderHandle;
use crate::status::{BAD, MEMORY, OK};
use crate::tables::TableHandle;
use std::alloc::Global;
use std::mem;

/// A new reader of a table that runs.
#[unsafe(no_mangle)]
pub extern "C" fn flowdir_read(
    alloc: Global,
    table: &mut TableHandle,
    reader: &mut ReaderHandle,
) -> u32
    requires { (v : ShelfValue) × (table.old.holders ≡ v ∷ []) }
    ensures table { StaysListed table.old.holders table.new.holders }
    ensures reader { result ≡ 0 → HasReader table.new.holders reader.new.holders }
    ensures unread { result ≢ 0 → reader.new.holders ≡ reader.old.holders }
    ensures cause { result ≢ 0 → (result ≡ 1) ⊎ ((result ≡ 2) × RunsNone table.old.holders) }
    ensures closed { RunsNone table.old.holders → result ≡ 2 }
{
    let shelf = mem::replace(table, TableHandle::blank())
        .into_loose(alloc)
        .into_box();
    if !shelf.runs() {
        *table = TableHandle::of_loose(Loose::of(shelf));
        return BAD;
    }
    let made = shelf.reader();
    *table = TableHandle::of_loose(Loose::of(shelf));
    let Some(peeker) = made else {
        return MEMORY;
    };
    let Ok(peeker) = Box::new(alloc, peeker) else {
        return MEMORY;
    };
    *reader = ReaderHandle::of_loose(Loose::of(peeker));
    OK
}

/// Looks a key up with loads alone.
#[unsafe(no_mangle)]
pub extern "C" fn flowdir_peek(
    alloc: Global,
    reader: &mut ReaderHandle,
    key: &FlowKey,
    out: &mut Answer,
) -> u32
    requires { (v : Peeker) × (reader.old.holders ≡ v ∷ []) }
    ensures { Peeked (key_of key.now) reader.old.holders reader.new.holders out.new result }
{
    let mut peeker = mem::replace(reader, ReaderHandle::blank())
        .into_loose(alloc)
        .into_box();
    *out = peeker.peek(&key.to_key());
    *reader = ReaderHandle::of_loose(Loose::of(peeker));
    OK
}

/// Gives a reader up.
#[unsafe(no_mangle)]
pub extern "C" fn flowdir_leave(alloc: Global, reader: &mut ReaderHandle)
    requires { (v : Peeker) × (reader.old.holders ≡ v ∷ []) }
    ensures { reader.new.holders ≡ [] }
{
    let peeker = mem::replace(reader, ReaderHandle::blank())
        .into_loose(alloc)
        .into_box();
    drop(peeker);
}
