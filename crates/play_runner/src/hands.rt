//! What the seats have still to do.

ghost use Rattle.std.specs.Prelude.{◌≡◌, ◌-◌, ◌^◌, ◌<◌, ◌≤◌, [], All, IfOk, None, length, map, slice_index_or};
ghost use Rattle.table_model.specs.Schedules.{call_steps, is_stopped, most_slots, with_step};
ghost use Rattle.play_runner.specs.Hands.{HasFew, as_hand, as_hands, hands_of, rounds_of, unbegun_of};

use plain_map::Call;
use std::alloc::{AllocError, Global};
use step_counts::{Settings, bound};

/// What a seat has still to do.
#[derive(Clone, Copy)]
pub(crate) struct Hand<'a> {
    /// The calls that it has not begun, each with its packet.
    pub(crate) calls: &'a [(u32, Call)],
    /// How many steps it may still take, where it is stopped at all.
    pub(crate) may: Option<u32>,
}

impl<'a> Hand<'a> {
    /// Whether the seat may take no step more.
    pub(crate) fn is_stopped(&self) -> bool
        ensures { result ≡ is_stopped (as_hand self.now) }
    {
        match self.may {
            Some(steps) => steps == 0,
            None => false,
        }
    }

    /// With these calls, and one step less that may be taken.
    pub(crate) fn with_step(&self, calls: &'a [(u32, Call)]) -> Hand<'a>
        ensures { as_hand result ≡ with_step (record { calls = calls.now; may = self.now.may }) }
    {
        match self.may {
            Some(steps) => Hand {
                calls,
                may: Some(steps.saturating_sub(1)),
            },
            None => Hand { calls, may: None },
        }
    }

    /// As many slots as the seat can need to the end of its calls, that in flight among them.
    pub(crate) fn most_slots(&self, settings: &Settings) -> u64
        requires { length self.now.calls.now ≤ 2 ^ 32 - 1 }
        ensures exact { result ≡ most_slots settings.now (as_hand self.now) }
        ensures small { result < 2 ^ 56 }
    {
        (self.calls.len() as u64 + 1) * call_steps(settings)
    }
}

// The most steps of any call: those of an update, since no lookup takes more.
fn call_steps(settings: &Settings) -> u64
    ensures exact { result ≡ call_steps settings.now }
    ensures small { result < 2 ^ 20 }
{
    bound(settings)
}

// The calls of a seat.
fn own_calls(calls: &[Vec<(u32, Call)>], seat: usize) -> &[(u32, Call)]
    ensures { result.now ≡ slice_index_or (map (λ own. own.items) calls.now) seat [] }
{
    match calls.get(seat) {
        Some(own) => own.as_slice(),
        None => &[],
    }
}

// Where a seat stops.
fn own_stop(stops: &[Option<u32>], seat: usize) -> Option<u32>
    ensures { result ≡ slice_index_or stops.now seat None }
{
    match stops.get(seat) {
        Some(stop) => *stop,
        None => None,
    }
}

/// The hands at the beginning. The only error is want of memory.
pub(crate) fn first_hands<'a>(
    alloc: Global,
    seats: u32,
    calls: &'a [Vec<(u32, Call)>],
    stops: &[Option<u32>],
) -> Result<Vec<Hand<'a>>, AllocError>
    ensures { IfOk result (λ hands. as_hands hands.items
        ≡ hands_of seats (map (λ own. own.items) calls.now) stops.now) }
{
    let mut hands = Vec::new(alloc);
    for seat in 0..seats {
        hands.push(Hand {
            calls: own_calls(calls, seat as usize),
            may: own_stop(stops, seat as usize),
        })?;
    }
    Ok(hands)
}

/// How many calls were not begun.
pub(crate) fn unbegun(hands: &[Hand]) -> u64
    requires few { All HasFew (as_hands hands.now) }
    requires short { length hands.now ≤ 8 }
    ensures { result ≡ unbegun_of (as_hands hands.now) }
{
    let mut unbegun = 0;
    for hand in hands {
        unbegun += hand.calls.len() as u64;
    }
    unbegun
}

/// As many rounds as all seats together can need.
pub(crate) fn most_rounds(hands: &[Hand], settings: &Settings) -> u64
    requires few { All HasFew (as_hands hands.now) }
    requires short { length hands.now ≤ 8 }
    ensures { result ≡ rounds_of settings.now (as_hands hands.now) }
{
    let mut most = 0;
    for hand in hands {
        most += hand.most_slots(settings);
    }
    most
}
