//! What the handle of a lasting table's seat leads to.

ghost use Rattle.std.specs.Prelude.{◌≡◌, ◌∷◌, [], List};
ghost use base.Stored.{coded_list};
ghost use Rattle.flowdir_c.specs.Handles.{handle_owns};
ghost use Rattle.flowdir_c.specs.declared.lasting_holder.LastingHolder.{LastingHolder};
ghost use Rattle.flowdir_c.specs.contracts.lasting_holder.LastingHolder as HolderRow;

use crate::lasting_holder::LastingHolder;
use crate::loose::Loose;
use std::alloc::Global;
use std::marker::Model;

/// A seat of a lasting table, for C: the address of its holder, or nothing.
#[repr(C)]
#[derive(Drop)]
pub struct LastingSeatHandle {
    at: *mut u8,
    pub ghost holders: { List LastingHolder } by { coded_list HolderRow.the_row.coded },
}

impl Model for LastingSeatHandle {
    ghost also_owns = { λ h. handle_owns HolderRow.the_row h.at h.holders };
}

impl LastingSeatHandle {
    pub(crate) fn blank() -> LastingSeatHandle
        ensures { result.holders ≡ [] }
    {
        LastingSeatHandle {
            at: std::ptr::null_mut(),
        }
    }

    pub(crate) fn of_loose(loose: Loose<LastingHolder, Global>) -> LastingSeatHandle
        ensures { result.holders ≡ loose.value ∷ [] }
    {
        let Loose { at, alloc: _ } = loose;
        LastingSeatHandle { at: at as *mut u8 }
    }

    pub(crate) fn into_loose(self, alloc: Global) -> Loose<LastingHolder, Global>
        requires { (v : LastingHolder) × (self.holders ≡ v ∷ []) }
        ensures { self.holders ≡ result.value ∷ [] }
    {
        let LastingSeatHandle { at } = self;
        Loose {
            at: at as *mut LastingHolder,
            alloc,
        }
    }
}

unsafe impl Send for LastingSeatHandle {}
