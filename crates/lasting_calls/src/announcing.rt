//! An update announces itself.
//!
//! **Words**: the seat's own op, and then its announcement. Others may load the op while it is stored.
//! **Keeps**: an announcement tells number and bucket. So whoever finds an op that is torn has a bucket word that has
//! changed since, and its exchange is lost.
//! **Steps**: one for each word of an op, and one.

ghost use Rattle.std.specs.Prelude.{◌≡◌};
ghost use Rattle.lasting_model.specs.Steps.{Goes, LoadWord, StoreOp};
ghost use Rattle.lasting_calls.specs.Going.{on};
ghost use Rattle.lasting_calls.specs.Desks.{IsOf};
ghost use Rattle.lasting_calls.specs.Updates.{IsOwn, update_of};

use crate::desk::{CLASSES, Desk};
use crate::own::Own;
use crate::runs::store_run;
use crate::steps::Steps;
use step_counts::OP_WORDS;
use word_rows::{OpRow, write_op};

/// Stores the seat's own op, and its announcement.
#[inline(always)]
pub fn announce<S: Steps>(steps: &mut S, desk: &Desk, own: &Own)
    requires phase { (S.now steps.old).now.stand ≡ Goes (update_of own.now) (StoreOp 0) }
    requires desk { IsOf (S.now steps.old) desk.now }
    requires own { IsOwn (S.now steps.old) own.now }
    ensures goes { S.now steps.new ≡ on (S.now steps.old) (Goes (update_of own.now) (LoadWord 1)) }
{
    let row = OpRow {
        number: own.number,
        call: own.call,
    };
    let mut words = [0; OP_WORDS];
    write_op(&row, &mut words);
    let start = desk.op(desk.seat);
    store_run(steps, start, &words[1..]);
    let at = desk.announced(desk.seat);
    // One store shows the whole op. From here on any seat may carry the call out.
    steps.store(at, own.number * CLASSES + own.bucket);
}
