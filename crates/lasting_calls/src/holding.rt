//! The held look: a seat gets a row that nobody writes as long as it reads it.
//!
//! **Words**: the seat's own want and hold words are stored; the bucket word is loaded; the hold word is exchanged.
//! **Keeps**: the bucket that is wanted is stored before the asking. So whoever sees the asking and gives a row gives
//! one of that bucket.
//! **Steps**: 4.

ghost use Rattle.std.specs.Prelude.{◌≡◌, ◌+◌, ◌<◌, ◌^◌};
ghost use Rattle.lasting_calls.specs.Going.{on};
ghost use Rattle.lasting_calls.specs.Desks.{IsOf};
ghost use Rattle.lasting_calls.specs.Items.{Holder, IsWanting, asked_again, holds_row, wants};

use crate::desk::{Desk, ROW_LIMIT};
use crate::steps::Steps;

/// Asks for a row of the bucket and takes it, or takes the row that another seat gave meanwhile: the row that is held.
#[inline(always)]
pub fn hold<S: Steps>(steps: &mut S, desk: &Desk, time: &mut u64, bucket: u64) -> u64
    requires wanting { IsWanting (S.now steps.old) bucket }
    requires desk { IsOf (S.now steps.old) desk.now }
    requires time { time.old ≡ (S.now steps.old).now.time }
    requires few { time.old < 2 ^ 62 }
    requires bucket { bucket < 2 ^ 32 }
    ensures goes { (holder : Holder) → (S.now steps.old).now.stand ≡ wants holder →
        S.now steps.new ≡ on (asked_again (S.now steps.old)) (holds_row holder result) }
    ensures time { time.new ≡ time.old + 1 }
    ensures row { result < 2 ^ 32 }
{
    let own = desk.hold(desk.seat);
    let wanted = desk.want(desk.seat);
    let place = desk.bucket(bucket);
    steps.store(wanted, bucket);
    *time += 1;
    let asking = 2 * *time + 1;
    steps.store(own, asking);
    let word = steps.load(place);
    let row = word % ROW_LIMIT;
    let found = steps.exchange(own, asking, 2 * (row + 1));
    steps.stands();
    if found == asking {
        row
    } else {
        (found / 2).saturating_sub(1)
    }
}
