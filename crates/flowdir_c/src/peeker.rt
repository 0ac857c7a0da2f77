//! A reader beside its directory.

ghost use Rattle.std.specs.Prelude.{◌≡◌};
ghost use Rattle.std.specs.Arc.{arc_value};
ghost use Rattle.shared_table.specs.Readers.{ReadsFrom, StaysReader};
ghost use Rattle.flowdir_c.specs.Glimpsed.{HasGlimpsed};

use crate::answer::{Answer, answer_by};
use plain_map::Key;
use shared_table::{Directory, Reader};
use std::alloc::Global;
use std::sync::Arc;

/// A reader beside its directory.
#[derive(Drop)]
pub struct Peeker {
    pub(crate) directory: Arc<Directory, Global>,
    pub(crate) reader: Reader,
    ghost of: { ReadsFrom (arc_value directory) reader },
}

impl Peeker {
    /// Looks a key up with loads alone.
    #[inline(always)]
    pub(crate) fn peek(&mut self, key: &Key) -> Answer
        ensures held { HasGlimpsed key.now self.old.reader self.new.reader result }
        ensures same { StaysReader self.old.reader self.new.reader }
        ensures directory { arc_value self.new.directory ≡ arc_value self.old.directory }
    {
        let reply = self.reader.peek(&self.directory, key);
        answer_by(&reply, 0)
    }
}

// A new reader beside its directory.
pub(crate) fn peeker_of(directory: Arc<Directory, Global>) -> Peeker
    ensures { arc_value result.directory ≡ arc_value directory }
{
    let reader = directory.reader();
    Peeker { directory, reader }
}
