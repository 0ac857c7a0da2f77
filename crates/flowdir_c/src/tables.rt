//! What a table's handle leads to.

ghost use Rattle.std.specs.Prelude.{◌≡◌, ◌∷◌, [], List};
ghost use base.Stored.{coded_list};
ghost use Rattle.flowdir_c.specs.Handles.{handle_owns};
ghost use Rattle.flowdir_c.specs.Shelves.{ShelfValue};
ghost use Rattle.flowdir_c.specs.contracts.shelf.Shelf as ShelfRow;

use crate::loose::Loose;
use crate::shelf::Shelf;
use std::alloc::Global;
use std::marker::Model;

/// A table, for C: the address of its shelf, or nothing.
#[repr(C)]
#[derive(Drop)]
pub struct TableHandle {
    at: *mut u8,
    pub ghost holders: { List ShelfValue } by { coded_list ShelfRow.the_row.coded },
}

impl Model for TableHandle {
    ghost also_owns = { λ h. handle_owns ShelfRow.the_row h.at h.holders };
}

impl TableHandle {
    pub(crate) fn blank() -> TableHandle
        ensures { result.holders ≡ [] }
    {
        TableHandle {
            at: std::ptr::null_mut(),
        }
    }

    pub(crate) fn of_loose(loose: Loose<Shelf, Global>) -> TableHandle
        ensures { result.holders ≡ loose.value ∷ [] }
    {
        let Loose { at, alloc: _ } = loose;
        TableHandle { at: at as *mut u8 }
    }

    pub(crate) fn into_loose(self, alloc: Global) -> Loose<Shelf, Global>
        requires { (v : ShelfValue) × (self.holders ≡ v ∷ []) }
        ensures { self.holders ≡ result.value ∷ [] }
    {
        let TableHandle { at } = self;
        Loose {
            at: at as *mut Shelf,
            alloc,
        }
    }
}
