//! The calls by a seat of a lasting table.

ghost use Rattle.std.specs.Prelude.{◌≡◌, ◌∷◌, []};
ghost use Rattle.plain_map.specs.declared.calls.Call.TheVariants.{Count, Insert, Lookup, Put, Remove, Tally};
ghost use Rattle.flowdir_c.specs.declared.lasting_holder.LastingHolder.{LastingHolder};
ghost use Rattle.flowdir_c.specs.LastingExports.{Called, CopiedAt};
ghost use Rattle.flowdir_c.specs.LastingTold.{IsChange};
ghost use Rattle.flowdir_c.specs.Told.{key_of};

use crate::answer::{Answer, FlowKey, FlowPair};
use crate::lasting_reader_exports::tell_or;
use crate::lasting_seats::LastingSeatHandle;
use crate::loose::Loose;
use crate::status::{BAD, OK};
use plain_map::Call;
use std::alloc::Global;
use std::mem;

// Makes an update.
#[inline(always)]
fn make(alloc: Global, seat: &mut LastingSeatHandle, call: &Call, out: &mut Answer) -> u32
    requires holder { (v : LastingHolder) × (seat.old.holders ≡ v ∷ []) }
    requires change { IsChange call.now }
    ensures { Called call.now seat.old.holders seat.new.holders out.old out.new result }
{
    let mut holder = mem::replace(seat, LastingSeatHandle::blank())
        .into_loose(alloc)
        .into_box();
    let told = holder.update(call);
    *seat = LastingSeatHandle::of_loose(Loose::of(holder));
    tell_or(BAD, told, out)
}

/// Gives the key this value, where it has none.
#[unsafe(no_mangle)]
pub extern "C" fn flowdir_lasting_insert(
    alloc: Global,
    seat: &mut LastingSeatHandle,
    key: &FlowKey,
    value: u64,
    out: &mut Answer,
) -> u32
    requires { (v : LastingHolder) × (seat.old.holders ≡ v ∷ []) }
    ensures { Called (Insert (key_of key.now) value) seat.old.holders seat.new.holders out.old out.new result }
{
    make(alloc, seat, &Call::Insert(key.to_key(), value), out)
}

/// Takes the key out, where it is there.
#[unsafe(no_mangle)]
pub extern "C" fn flowdir_lasting_remove(
    alloc: Global,
    seat: &mut LastingSeatHandle,
    key: &FlowKey,
    out: &mut Answer,
) -> u32
    requires { (v : LastingHolder) × (seat.old.holders ≡ v ∷ []) }
    ensures { Called (Remove (key_of key.now)) seat.old.holders seat.new.holders out.old out.new result }
{
    make(alloc, seat, &Call::Remove(key.to_key()), out)
}

/// Adds so many bytes to the key's, where it is there.
#[unsafe(no_mangle)]
pub extern "C" fn flowdir_lasting_tally(
    alloc: Global,
    seat: &mut LastingSeatHandle,
    key: &FlowKey,
    bytes: u64,
    out: &mut Answer,
) -> u32
    requires { (v : LastingHolder) × (seat.old.holders ≡ v ∷ []) }
    ensures { Called (Tally (key_of key.now) bytes) seat.old.holders seat.new.holders out.old out.new result }
{
    make(alloc, seat, &Call::Tally(key.to_key(), bytes), out)
}

/// Adds so many bytes to the key's, and inserts the key with this value and these bytes where it is not there.
#[unsafe(no_mangle)]
pub extern "C" fn flowdir_lasting_count(
    alloc: Global,
    seat: &mut LastingSeatHandle,
    key: &FlowKey,
    value: u64,
    bytes: u64,
    out: &mut Answer,
) -> u32
    requires { (v : LastingHolder) × (seat.old.holders ≡ v ∷ []) }
    ensures { Called (Count (key_of key.now) value bytes) seat.old.holders seat.new.holders out.old out.new result }
{
    make(alloc, seat, &Call::Count(key.to_key(), value, bytes), out)
}

/// Gives the key this value, whether it is there or not.
#[unsafe(no_mangle)]
pub extern "C" fn flowdir_lasting_put(
    alloc: Global,
    seat: &mut LastingSeatHandle,
    key: &FlowKey,
    value: u64,
    out: &mut Answer,
) -> u32
    requires { (v : LastingHolder) × (seat.old.holders ≡ v ∷ []) }
    ensures { Called (Put (key_of key.now) value) seat.old.holders seat.new.holders out.old out.new result }
{
    make(alloc, seat, &Call::Put(key.to_key(), value), out)
}

/// Asks for the key's value.
#[unsafe(no_mangle)]
pub extern "C" fn flowdir_lasting_lookup(
    alloc: Global,
    seat: &mut LastingSeatHandle,
    key: &FlowKey,
    out: &mut Answer,
) -> u32
    requires { (v : LastingHolder) × (seat.old.holders ≡ v ∷ []) }
    ensures { Called (Lookup (key_of key.now)) seat.old.holders seat.new.holders out.old out.new result }
{
    let mut holder = mem::replace(seat, LastingSeatHandle::blank())
        .into_loose(alloc)
        .into_box();
    let told = holder.lookup(&key.to_key());
    *seat = LastingSeatHandle::of_loose(Loose::of(holder));
    tell_or(BAD, told, out)
}

/// Copies the pairs of a bucket, and tells how many there are.
#[unsafe(no_mangle)]
pub extern "C" fn flowdir_lasting_look_at(
    alloc: Global,
    seat: &mut LastingSeatHandle,
    bucket: u64,
    pairs: &mut [FlowPair],
    out: &mut usize,
) -> u32
    requires { (v : LastingHolder) × (seat.old.holders ≡ v ∷ []) }
    ensures { CopiedAt bucket seat.old.holders seat.new.holders pairs.old pairs.new out.old out.new result }
{
    let mut holder = mem::replace(seat, LastingSeatHandle::blank())
        .into_loose(alloc)
        .into_box();
    let told = holder.copy(bucket, pairs);
    *seat = LastingSeatHandle::of_loose(Loose::of(holder));
    match told {
        Some(count) => {
            *out = count;
            OK
        }
        None => BAD,
    }
}

/// Gives a seat up without its table.
#[unsafe(no_mangle)]
pub extern "C" fn flowdir_lasting_drop(alloc: Global, seat: &mut LastingSeatHandle)
    requires { (v : LastingHolder) × (seat.old.holders ≡ v ∷ []) }
    ensures { seat.new.holders ≡ [] }
{
    let holder = mem::replace(seat, LastingSeatHandle::blank())
        .into_loose(alloc)
        .into_box();
    drop(holder);
}
