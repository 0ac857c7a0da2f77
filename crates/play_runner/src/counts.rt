//! Numbers of the calls that ended.

ghost use Rattle.std.specs.Prelude.{◌≡◌};
ghost use Rattle.plain_map.specs.Calls.{is_update};
ghost use Rattle.play_runner.specs.Played.{most_steps_in, steps_of};

use plain_map::Call;
use trace_share::Outcome;

// Whether it is any call but a lookup.
fn is_update(call: &Call) -> bool
    ensures { result ≡ is_update call.now }
{
    match call {
        Call::Insert(_, _)
        | Call::Remove(_)
        | Call::Tally(_, _)
        | Call::Count(_, _, _)
        | Call::Put(_, _) => true,
        Call::Lookup(_) => false,
    }
}

// The steps of an answered call of that kind.
fn steps_of(update: bool, outcome: &Outcome) -> u64
    ensures { result ≡ steps_of update outcome.now }
{
    match outcome {
        Outcome::Answered(r) => {
            if is_update(&r.call) {
                if update { r.steps } else { 0 }
            } else {
                if update { 0 } else { r.steps }
            }
        }
        Outcome::Refused { .. } => 0,
    }
}

/// The most steps of an answered update, or of an answered lookup.
pub fn most_steps(outcomes: &[(u32, Outcome)], update: bool) -> u64
    ensures { result ≡ most_steps_in update outcomes.now }
{
    let mut most = 0;
    for ended in outcomes {
        most = most.max(steps_of(update, &ended.1));
    }
    most
}
