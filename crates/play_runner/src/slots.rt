//! One slot of a seat.

ghost use Rattle.std.specs.Prelude.{◌≡◌, ◌++◌, IfOk, OnOk};
ghost use Rattle.std.specs.Prelude.{option_to_list};
ghost use Rattle.table_model.specs.Worlds.{IsEvent};
ghost use Rattle.core_steps.specs.Values.{stepped_of, with_event};
ghost use Rattle.play_runner.specs.Hands.{as_hand};
ghost use Rattle.play_runner.specs.Played.{outcome_in};
ghost use Rattle.play_runner.specs.Told.{AreTold};
ghost use Rattle.play_runner.specs.Plays.{IsAtSlot, IsIdleAt, TookSlot, was_refused};

use crate::hands::Hand;
use core_steps::{CoreWorld, Stepped};
use std::alloc::AllocError;
use table_model::Event;
use trace_share::Outcome;

// The call that an event ends, with its seat: it was answered or refused.
fn ended_with(event: &Event, stepped: &Stepped) -> Option<(u32, Outcome)>
    ensures { option_to_list result ≡ outcome_in event.now stepped.now }
{
    match stepped {
        Stepped::Going => None,
        Stepped::Ended(record) => Some((event.seat, Outcome::Answered(*record))),
        Stepped::Refused(full) => match event.begin {
            Some((packet, call)) => Some((
                event.seat,
                Outcome::Refused {
                    packet,
                    call,
                    full: *full,
                },
            )),
            None => None,
        },
    }
}

// Keeps it.
fn keep(
    outcomes: &mut Vec<(u32, Outcome)>,
    event: &Event,
    stepped: &Stepped,
) -> Result<(), AllocError>
    ensures { OnOk result (outcomes.new.items ≡ outcomes.old.items ++ outcome_in event.now stepped.now) }
{
    match ended_with(event, stepped) {
        Some(ended) => {
            outcomes.push(ended)?;
            Ok(())
        }
        None => Ok(()),
    }
}

// Whether the call that came with the event was refused.
fn was_refused(stepped: &Stepped) -> bool
    ensures { result ≡ was_refused stepped.now }
{
    match stepped {
        Stepped::Refused(_) => true,
        Stepped::Going | Stepped::Ended(_) => false,
    }
}

// One event, and whether its call was refused.
fn go_on(
    core: &mut CoreWorld,
    outcomes: &mut Vec<(u32, Outcome)>,
    event: &Event,
) -> Result<bool, AllocError>
    requires event { IsEvent core.old.setup core.old.world event.now }
    requires told { AreTold core.old outcomes.old.items }
    ensures core { OnOk result (core.new ≡ with_event core.old event.now) }
    ensures refused { IfOk result (λ refused.
        refused ≡ was_refused (stepped_of core.old.setup core.old.world event.now)) }
    ensures told { OnOk result (AreTold core.new outcomes.new.items) }
{
    core.moment();
    let stepped = core.step(event)?;
    keep(outcomes, event, &stepped)?;
    Ok(was_refused(&stepped))
}

// An idle seat tries its calls up to the first that is not refused.
fn try_calls<'a>(
    core: &mut CoreWorld,
    outcomes: &mut Vec<(u32, Outcome)>,
    seat: u32,
    hand: &Hand<'a>,
) -> Result<Hand<'a>, AllocError>
    requires at { IsAtSlot core.old seat (as_hand hand.now) }
    requires idle { IsIdleAt core.old seat }
    requires told { AreTold core.old outcomes.old.items }
    ensures took { IfOk result (λ left. TookSlot core.old core.new seat (as_hand hand.now) (as_hand left)) }
    ensures told { OnOk result (AreTold core.new outcomes.new.items) }
{
    for (i, begin) in hand.calls.iter().enumerate() {
        let event = Event {
            seat,
            begin: Some(*begin),
        };
        if !go_on(core, outcomes, &event)? {
            return Ok(hand.with_step(&hand.calls[i + 1..]));
        }
    }
    Ok(Hand {
        calls: &[],
        may: hand.may,
    })
}

/// The events of one slot of a seat that is not stopped, and its hand after it. The only error is want of memory.
pub(crate) fn take_slot<'a>(
    core: &mut CoreWorld,
    outcomes: &mut Vec<(u32, Outcome)>,
    seat: u32,
    hand: &Hand<'a>,
) -> Result<Hand<'a>, AllocError>
    requires at { IsAtSlot core.old seat (as_hand hand.now) }
    requires told { AreTold core.old outcomes.old.items }
    ensures took { IfOk result (λ left. TookSlot core.old core.new seat (as_hand hand.now) (as_hand left)) }
    ensures told { OnOk result (AreTold core.new outcomes.new.items) }
{
    if core.idle(seat) {
        return try_calls(core, outcomes, seat, hand);
    }
    core.moment();
    let event = Event { seat, begin: None };
    go_on(core, outcomes, &event)?;
    Ok(hand.with_step(hand.calls))
}
