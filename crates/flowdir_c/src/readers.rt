//! What the handle of a reader leads to.

ghost use Rattle.std.specs.Prelude.{◌≡◌, ◌∷◌, [], List};
ghost use base.Stored.{coded_list};
ghost use Rattle.flowdir_c.specs.Handles.{handle_owns};
ghost use Rattle.flowdir_c.specs.declared.peeker.Peeker.{Peeker};
ghost use Rattle.flowdir_c.specs.contracts.peeker.Peeker as PeekerRow;

use crate::loose::Loose;
use crate::peeker::Peeker;
use std::alloc::Global;
use std::marker::Model;

/// A reader, for C: the address of its peeker, or nothing.
#[repr(C)]
#[derive(Drop)]
pub struct ReaderHandle {
    at: *mut u8,
    pub ghost holders: { List Peeker } by { coded_list PeekerRow.the_row.coded },
}

impl Model for ReaderHandle {
    ghost also_owns = { λ h. handle_owns PeekerRow.the_row h.at h.holders };
}

impl ReaderHandle {
    pub(crate) fn blank() -> ReaderHandle
        ensures { result.holders ≡ [] }
    {
        ReaderHandle {
            at: std::ptr::null_mut(),
        }
    }

    pub(crate) fn of_loose(loose: Loose<Peeker, Global>) -> ReaderHandle
        ensures { result.holders ≡ loose.value ∷ [] }
    {
        let Loose { at, alloc: _ } = loose;
        ReaderHandle { at: at as *mut u8 }
    }

    pub(crate) fn into_loose(self, alloc: Global) -> Loose<Peeker, Global>
        requires { (v : Peeker) × (self.holders ≡ v ∷ []) }
        ensures { self.holders ≡ result.value ∷ [] }
    {
        let ReaderHandle { at } = self;
        Loose {
            at: at as *mut Peeker,
            alloc,
        }
    }
}

unsafe impl Send for ReaderHandle {}
