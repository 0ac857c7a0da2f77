//! What a lasting table's handle leads to.

ghost use Rattle.std.specs.Prelude.{◌≡◌, ◌∷◌, [], List};
ghost use base.Stored.{coded_list};
ghost use Rattle.flowdir_c.specs.Handles.{handle_owns};
ghost use Rattle.flowdir_c.specs.LastingShelves.{LastingValue};
ghost use Rattle.flowdir_c.specs.contracts.lasting_shelf.LastingShelf as ShelfRow;

use crate::lasting_shelf::LastingShelf;
use crate::loose::Loose;
use std::alloc::Global;
use std::marker::Model;

/// A lasting table, for C: the address of its shelf, or nothing.
#[repr(C)]
#[derive(Drop)]
pub struct LastingHandle {
    at: *mut u8,
    pub ghost holders: { List LastingValue } by { coded_list ShelfRow.the_row.coded },
}

impl Model for LastingHandle {
    ghost also_owns = { λ h. handle_owns ShelfRow.the_row h.at h.holders };
}

impl LastingHandle {
    pub(crate) fn blank() -> LastingHandle
        ensures { result.holders ≡ [] }
    {
        LastingHandle {
            at: std::ptr::null_mut(),
        }
    }

    pub(crate) fn of_loose(loose: Loose<LastingShelf, Global>) -> LastingHandle
        ensures { result.holders ≡ loose.value ∷ [] }
    {
        let Loose { at, alloc: _ } = loose;
        LastingHandle { at: at as *mut u8 }
    }

    pub(crate) fn into_loose(self, alloc: Global) -> Loose<LastingShelf, Global>
        requires { (v : LastingValue) × (self.holders ≡ v ∷ []) }
        ensures { self.holders ≡ result.value ∷ [] }
    {
        let LastingHandle { at } = self;
        Loose {
            at: at as *mut LastingShelf,
            alloc,
        }
    }
}
