//! The last look of an update, at the bucket of its key.
//!
//! The first round's bucket may have been replaced without the op, by a seat that had loaded the announcements before
//! this one was made. The second round's bucket stands in the directory since a change after the first find. So whoever
//! replaced it had loaded a later root than that find, and after it the announcements, with this one among them. So the
//! row that is found here has the op (`BeforeLastLook`), and neither of the two arms that end the program is reached.

ghost use Rattle.std.specs.Prelude.{◌≡◌, ◌+◌, ◌<◌, ◌≤◌, ◌^◌};
ghost use Rattle.step_counts.specs.StepCounts.{bucket_row_words};
ghost use Rattle.table_model.specs.Setup.{settings_of};
ghost use Rattle.table_model.specs.Phases.{LastWord, StoreDone};
ghost use Rattle.seat_calls.specs.Going.{later};
ghost use Rattle.seat_calls.specs.Desks.{IsOf};
ghost use Rattle.seat_calls.specs.Owns.{IsOwn};

use crate::desk::Desk;
use crate::limits::MOST_WORDS;
use crate::own::Own;
use crate::rows::load_row;
use crate::steps::Steps;
use crate::words::{applied_in, reply_in};
use plain_map::Reply;

/// Finds the reply in the bucket of the key: the reply, and the row.
#[cold]
#[inline(never)]
pub fn last_look<S: Steps>(
    steps: &mut S,
    desk: &Desk,
    own: &Own,
    root: u64,
    bucket: u64,
) -> (Reply, u64)
    requires phase { (S.now steps.old).phase ≡ LastWord root bucket }
    requires desk { IsOf (S.now steps.old) desk.now }
    requires own { IsOwn (S.now steps.old) own.now }
    ensures { S.now steps.new ≡ later (S.now steps.old) (1 + bucket_row_words (settings_of (S.now steps.old).setup))
        (StoreDone result.0 result.1) }
{
    steps.stands();
    let row = steps.load(desk.layout.bucket_word(bucket));
    let mut buffer = [0; MOST_WORDS];
    let words = &mut buffer[..desk.row_length()];
    load_row(steps, desk, row, words);
    if own.number as u64 > applied_in(desk, words) {
        unreachable!()
    }
    let Some(reply) = reply_in(desk, words) else {
        unreachable!()
    };
    (reply, row)
}
