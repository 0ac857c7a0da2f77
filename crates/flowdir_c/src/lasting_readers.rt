//! What the handle of a lasting table's reader leads to.

ghost use Rattle.std.specs.Prelude.{◌≡◌, ◌∷◌, [], List};
ghost use base.Stored.{coded_list};
ghost use Rattle.flowdir_c.specs.Handles.{handle_owns};
ghost use Rattle.flowdir_c.specs.declared.lasting_peeker.LastingPeeker.{LastingPeeker};
ghost use Rattle.flowdir_c.specs.contracts.lasting_peeker.LastingPeeker as PeekerRow;

use crate::lasting_peeker::LastingPeeker;
use crate::loose::Loose;
use std::alloc::Global;
use std::marker::Model;

/// A reader of a lasting table, for C: the address of its peeker, or nothing.
#[repr(C)]
#[derive(Drop)]
pub struct LastingReaderHandle {
    at: *mut u8,
    pub ghost holders: { List LastingPeeker } by { coded_list PeekerRow.the_row.coded },
}

impl Model for LastingReaderHandle {
    ghost also_owns = { λ h. handle_owns PeekerRow.the_row h.at h.holders };
}

impl LastingReaderHandle {
    pub(crate) fn blank() -> LastingReaderHandle
        ensures { result.holders ≡ [] }
    {
        LastingReaderHandle {
            at: std::ptr::null_mut(),
        }
    }

    pub(crate) fn of_loose(loose: Loose<LastingPeeker, Global>) -> LastingReaderHandle
        ensures { result.holders ≡ loose.value ∷ [] }
    {
        let Loose { at, alloc: _ } = loose;
        LastingReaderHandle { at: at as *mut u8 }
    }

    pub(crate) fn into_loose(self, alloc: Global) -> Loose<LastingPeeker, Global>
        requires { (v : LastingPeeker) × (self.holders ≡ v ∷ []) }
        ensures { self.holders ≡ result.value ∷ [] }
    {
        let LastingReaderHandle { at } = self;
        Loose {
            at: at as *mut LastingPeeker,
            alloc,
        }
    }
}

unsafe impl Send for LastingReaderHandle {}
