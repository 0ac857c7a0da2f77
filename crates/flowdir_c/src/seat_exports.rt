//! The calls by a seat.

ghost use Rattle.std.specs.Prelude.{◌≡◌, ◌∷◌, []};
ghost use Rattle.plain_map.specs.declared.calls.Call.TheVariants.{Count, Insert, Lookup, Put, Remove, Tally};
ghost use Rattle.flowdir_c.specs.declared.holder.Holder.{Holder};
ghost use Rattle.flowdir_c.specs.Exports.{Called};
ghost use Rattle.flowdir_c.specs.Told.{key_of, status_of, written};

use crate::answer::{Answer, FlowKey, Told};
use crate::loose::Loose;
use crate::seats::SeatHandle;
use crate::status::{BAD, FULL, OK};
use std::alloc::Global;
use std::mem;

// Writes an answer, where there is one.
#[inline(always)]
fn tell(told: Told, out: &mut Answer) -> u32
    ensures status { result ≡ status_of told }
    ensures written { out.new ≡ written out.old told }
{
    match told {
        Told::Answered(answer) => {
            *out = answer;
            OK
        }
        Told::Full => FULL,
        Told::Bad => BAD,
    }
}

/// Gives the key this value, where it has none.
#[unsafe(no_mangle)]
pub extern "C" fn flowdir_insert(
    alloc: Global,
    seat: &mut SeatHandle,
    key: &FlowKey,
    value: u64,
    out: &mut Answer,
) -> u32
    requires { (v : Holder) × (seat.old.holders ≡ v ∷ []) }
    ensures { Called (Insert (key_of key.now) value) seat.old.holders seat.new.holders out.old out.new result }
{
    let mut holder = mem::replace(seat, SeatHandle::blank())
        .into_loose(alloc)
        .into_box();
    let told = holder.insert(key.to_key(), value);
    *seat = SeatHandle::of_loose(Loose::of(holder));
    tell(told, out)
}

/// Takes the key out, where it is there.
#[unsafe(no_mangle)]
pub extern "C" fn flowdir_remove(
    alloc: Global,
    seat: &mut SeatHandle,
    key: &FlowKey,
    out: &mut Answer,
) -> u32
    requires { (v : Holder) × (seat.old.holders ≡ v ∷ []) }
    ensures { Called (Remove (key_of key.now)) seat.old.holders seat.new.holders out.old out.new result }
{
    let mut holder = mem::replace(seat, SeatHandle::blank())
        .into_loose(alloc)
        .into_box();
    let told = holder.remove(key.to_key());
    *seat = SeatHandle::of_loose(Loose::of(holder));
    tell(told, out)
}

/// Adds so many bytes to the key's, where it is there.
#[unsafe(no_mangle)]
pub extern "C" fn flowdir_tally(
    alloc: Global,
    seat: &mut SeatHandle,
    key: &FlowKey,
    bytes: u64,
    out: &mut Answer,
) -> u32
    requires { (v : Holder) × (seat.old.holders ≡ v ∷ []) }
    ensures { Called (Tally (key_of key.now) bytes) seat.old.holders seat.new.holders out.old out.new result }
{
    let mut holder = mem::replace(seat, SeatHandle::blank())
        .into_loose(alloc)
        .into_box();
    let told = holder.tally(key.to_key(), bytes);
    *seat = SeatHandle::of_loose(Loose::of(holder));
    tell(told, out)
}

/// Adds so many bytes to the key's, and inserts the key with this value and these bytes where it is not there.
#[unsafe(no_mangle)]
pub extern "C" fn flowdir_count(
    alloc: Global,
    seat: &mut SeatHandle,
    key: &FlowKey,
    value: u64,
    bytes: u64,
    out: &mut Answer,
) -> u32
    requires { (v : Holder) × (seat.old.holders ≡ v ∷ []) }
    ensures { Called (Count (key_of key.now) value bytes) seat.old.holders seat.new.holders out.old out.new result }
{
    let mut holder = mem::replace(seat, SeatHandle::blank())
        .into_loose(alloc)
        .into_box();
    let told = holder.count(key.to_key(), value, bytes);
    *seat = SeatHandle::of_loose(Loose::of(holder));
    tell(told, out)
}

/// Gives the key this value, whether it is there or not.
#[unsafe(no_mangle)]
pub extern "C" fn flowdir_put(
    alloc: Global,
    seat: &mut SeatHandle,
    key: &FlowKey,
    value: u64,
    out: &mut Answer,
) -> u32
    requires { (v : Holder) × (seat.old.holders ≡ v ∷ []) }
    ensures { Called (Put (key_of key.now) value) seat.old.holders seat.new.holders out.old out.new result }
{
    let mut holder = mem::replace(seat, SeatHandle::blank())
        .into_loose(alloc)
        .into_box();
    let told = holder.put(key.to_key(), value);
    *seat = SeatHandle::of_loose(Loose::of(holder));
    tell(told, out)
}

/// Asks for the key's value.
#[unsafe(no_mangle)]
pub extern "C" fn flowdir_lookup(
    alloc: Global,
    seat: &mut SeatHandle,
    key: &FlowKey,
    out: &mut Answer,
) -> u32
    requires { (v : Holder) × (seat.old.holders ≡ v ∷ []) }
    ensures { Called (Lookup (key_of key.now)) seat.old.holders seat.new.holders out.old out.new result }
{
    let mut holder = mem::replace(seat, SeatHandle::blank())
        .into_loose(alloc)
        .into_box();
    let told = holder.lookup(&key.to_key());
    *seat = SeatHandle::of_loose(Loose::of(holder));
    tell(told, out)
}

/// Gives a seat up without its table.
#[unsafe(no_mangle)]
pub extern "C" fn flowdir_drop(alloc: Global, seat: &mut SeatHandle)
    requires { (v : Holder) × (seat.old.holders ≡ v ∷ []) }
    ensures { seat.new.holders ≡ [] }
{
    let holder = mem::replace(seat, SeatHandle::blank())
        .into_loose(alloc)
        .into_box();
    drop(holder);
}
