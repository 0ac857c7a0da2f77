//! The calls by a reader of a lasting table.

ghost use Rattle.std.specs.Prelude.{◌≡◌, ◌∷◌, []};
ghost use Rattle.flowdir_c.specs.declared.lasting_peeker.LastingPeeker.{LastingPeeker};
ghost use Rattle.flowdir_c.specs.LastingExports.{PeekedOrNot, status_or, written};
ghost use Rattle.flowdir_c.specs.Told.{key_of};

use crate::answer::{Answer, FlowKey};
use crate::lasting_readers::LastingReaderHandle;
use crate::loose::Loose;
use crate::status::{AGAIN, BAD, OK};
use std::alloc::Global;
use std::mem;

// Writes an answer, where there is one, and tells this status where there is none.
#[inline(always)]
pub(crate) fn tell_or(other: u32, told: Option<Answer>, out: &mut Answer) -> u32
    ensures status { result ≡ status_or other told }
    ensures written { out.new ≡ written out.old told }
{
    match told {
        Some(answer) => {
            *out = answer;
            OK
        }
        None => other,
    }
}

/// Looks a key up with loads alone, in so many tries.
#[unsafe(no_mangle)]
pub extern "C" fn flowdir_lasting_peek(
    alloc: Global,
    reader: &mut LastingReaderHandle,
    key: &FlowKey,
    tries: u64,
    out: &mut Answer,
) -> u32
    requires { (v : LastingPeeker) × (reader.old.holders ≡ v ∷ []) }
    ensures { PeekedOrNot (key_of key.now) tries reader.old.holders reader.new.holders out.old out.new result }
{
    if tries == 0 {
        return BAD;
    }
    let mut peeker = mem::replace(reader, LastingReaderHandle::blank())
        .into_loose(alloc)
        .into_box();
    let told = peeker.peek(&key.to_key(), tries);
    *reader = LastingReaderHandle::of_loose(Loose::of(peeker));
    tell_or(AGAIN, told, out)
}

/// Gives a reader up.
#[unsafe(no_mangle)]
pub extern "C" fn flowdir_lasting_leave(alloc: Global, reader: &mut LastingReaderHandle)
    requires { (v : LastingPeeker) × (reader.old.holders ≡ v ∷ []) }
    ensures { reader.new.holders ≡ [] }
{
    let peeker = mem::replace(reader, LastingReaderHandle::blank())
        .into_loose(alloc)
        .into_box();
    drop(peeker);
}
