//! An update announces itself, and its announcement ends.
//!
//! **Words**: what is pending is raised, then the seat's op and its announcement are stored; in the end the
//! announcement is over, and what is pending is lowered.
//! **Keeps**: the share stands from before the announcement until it is over. So whoever finds no other share finds no
//! announcement that is pending. The op is stored only while nothing of the seat is announced.
//! **Steps**: nine, and two.

ghost use Rattle.std.specs.Prelude.{◌≡◌, ◌+◌, ◌<◌, ◌^◌};
ghost use Rattle.plain_map.specs.Updates.{IsUpdate};
ghost use Rattle.exchange_model.specs.Steps.{Goes, LoadWord, RaisePending, class_of_call};
ghost use Rattle.exchange_model.specs.Goes.{ended};
ghost use Rattle.exchange_calls.specs.Going.{on};
ghost use Rattle.exchange_calls.specs.Desks.{IsOf};
ghost use Rattle.exchange_calls.specs.Hands.{making};
ghost use Rattle.exchange_calls.specs.Announces.{IsOver, announced_more};

use crate::desk::{CLASSES, Desk};
use crate::own::Own;
use crate::runs::store_run;
use crate::steps::Steps;
use step_counts::OP_WORDS;
use word_rows::{OpRow, write_op};

/// Counts the seat as pending, stores its op, and announces it.
#[inline(always)]
pub fn announce<S: Steps>(steps: &mut S, desk: &Desk, own: &Own)
    requires phase { (S.now steps.old).now.stand ≡ Goes own.now.call RaisePending }
    requires desk { IsOf (S.now steps.old) desk.now }
    requires bucket { own.now.bucket ≡ class_of_call (S.now steps.old).plan own.now.call }
    requires short { own.now.bucket < 2 ^ 20 }
    requires number { own.now.number ≡ (S.now steps.old).now.posted }
    requires few { own.now.number + 1 < 2 ^ 43 }
    requires update { IsUpdate own.now.call }
    requires seat { desk.now.holder < desk.now.sizes.seats }
    ensures { S.now steps.new ≡ on (S.now steps.old) (Goes own.now.call (LoadWord 2)) }
{
    let counter = desk.pending();
    // From here on whoever looks for other shares finds this one.
    let _others = steps.raise(counter);
    let row = OpRow {
        number: 1,
        call: own.call,
    };
    let mut words = [0; OP_WORDS];
    write_op(&row, &mut words);
    let start = desk.op(desk.holder);
    store_run(steps, start, &words[1..]);
    let at = desk.announced(desk.holder);
    // One store shows the whole op. From here on any seat may carry the call out.
    steps.store(at, (2 * own.number + 1) * CLASSES + own.bucket);
}

/// The announcement is over. Its reply was read by then.
#[inline(always)]
pub fn end<S: Steps>(steps: &mut S, desk: &Desk, own: &Own)
    requires over { IsOver (S.now steps.old) own.now.call }
    requires desk { IsOf (S.now steps.old) desk.now }
    requires number { own.now.number ≡ (S.now steps.old).now.posted }
    requires few { own.now.number + 1 < 2 ^ 43 }
    ensures { (o : IsOver (S.now steps.old) own.now.call) → S.now steps.new ≡
        making (announced_more (S.now steps.old)) own.now.call (ended o.ending) }
{
    let at = desk.announced(desk.holder);
    // Whoever sees it drops the entry. So it comes after the reply was read.
    steps.store(at, (2 * own.number + 2) * CLASSES);
    let counter = desk.pending();
    let _others = steps.lower(counter);
}
