//! A reader of a lasting table beside its table.

ghost use Rattle.std.specs.Prelude.{◌≡◌, ◌≤◌};
ghost use Rattle.std.specs.Arc.{arc_value};
ghost use Rattle.lasting_table.specs.Values.{IsPartyOf, IsSame};
ghost use Rattle.flowdir_c.specs.LastingTold.{HasPeeked};

use crate::answer::{Answer, answer_by};
use lasting_table::{LastingTable, Reader};
use plain_map::Key;
use std::alloc::Global;
use std::sync::Arc;

/// A reader beside its table.
#[derive(Drop)]
pub struct LastingPeeker {
    pub(crate) table: Arc<LastingTable, Global>,
    pub(crate) reader: Reader,
    ghost of: { IsPartyOf (arc_value table) reader },
}

impl LastingPeeker {
    /// Looks a key up with loads alone, in so many tries. There is no answer if each was disturbed.
    #[inline(always)]
    pub(crate) fn peek(&mut self, key: &Key, tries: u64) -> Option<Answer>
        requires tries { 1 ≤ tries }
        ensures told { HasPeeked key.now self.old.reader self.new.reader result }
        ensures same { IsSame self.old.reader self.new.reader }
        ensures table { arc_value self.new.table ≡ arc_value self.old.table }
    {
        match self.reader.peek(&self.table, tries, key) {
            Some(reply) => Some(answer_by(&reply, 0)),
            None => None,
        }
    }
}

/// A new reader beside its table.
pub(crate) fn lasting_peeker_of(table: Arc<LastingTable, Global>) -> LastingPeeker
    ensures { arc_value result.table ≡ arc_value table }
{
    let reader = table.reader();
    LastingPeeker { table, reader }
}
