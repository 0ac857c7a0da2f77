//! The held look: who can hold gets a row that nobody writes as long as it reads it.
//!
//! **Words**: the own want and hold words are stored; the bucket word is loaded; the hold word is exchanged.
//! **Keeps**: the class that is wanted is stored before the asking. So whoever sees the asking and gives a row gives
//! one of that class.
//! **Steps**: 4, and one when the row was read.

ghost use Rattle.std.specs.Prelude.{◌≡◌, ◌+◌, ◌<◌, ◌^◌};
ghost use Rattle.exchange_calls.specs.Going.{on};
ghost use Rattle.exchange_calls.specs.Desks.{IsOf};
ghost use Rattle.exchange_calls.specs.Items.{Giver, Holder, IsGiving, IsWanting, asked_again, given, gives, holds_row, wants};

use crate::desk::Desk;
use crate::steps::Steps;

/// Asks for a row of the bucket and takes it, or takes the row that another one gave meanwhile: the row that is held.
#[inline(always)]
pub fn hold<S: Steps>(steps: &mut S, desk: &Desk, time: &mut u64, bucket: u64) -> u64
    requires wanting { IsWanting (S.now steps.old) bucket }
    requires desk { IsOf (S.now steps.old) desk.now }
    requires time { time.old ≡ (S.now steps.old).now.time }
    requires few { time.old < 2 ^ 62 }
    requires bucket { bucket < 2 ^ 32 }
    ensures goes { (holder : Holder) → (S.now steps.old).now.stand ≡ wants holder →
        S.now steps.new ≡ on (asked_again (S.now steps.old)) (holds_row holder result) }
    ensures time { time.new ≡ time.old + 1 }
    ensures row { result < 2 ^ 32 }
{
    let own = desk.hold(desk.holder);
    let wanted = desk.want(desk.holder);
    let place = desk.bucket(bucket);
    steps.store(wanted, bucket);
    *time += 1;
    let asking = 2 * *time + 1;
    // From here on whoever scans gives a row, so the bucket word is loaded after it.
    steps.store(own, asking);
    let word = steps.load(place);
    let row = desk.row_in(word);
    let found = steps.exchange(own, asking, 2 * (row + 1));
    steps.stands();
    if found == asking {
        row
    } else {
        (found / 2).saturating_sub(1)
    }
}

/// Gives the row back that was held. All of it that is wanted was read.
#[inline(always)]
pub fn give_back<S: Steps>(steps: &mut S, desk: &Desk)
    requires giving { IsGiving (S.now steps.old) }
    requires desk { IsOf (S.now steps.old) desk.now }
    ensures { (giver : Giver) → (S.now steps.old).now.stand ≡ gives giver →
        S.now steps.new ≡ given (S.now steps.old) giver }
{
    let own = desk.hold(desk.holder);
    // Whoever scans after it may free the row, so it comes after the last load of that row.
    steps.store(own, 0);
}
