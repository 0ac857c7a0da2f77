//! How a plan's calls are served, and what the head line tells of it.

ghost use Rattle.std.specs.Prelude.{◌≡◌, ◌^◌};
ghost use Rattle.std.specs.Option.{ForSome};
ghost use Rattle.word_rows.specs.Shape.{AreBelow};
ghost use Rattle.command_line.specs.Words.{IsInRange};
ghost use Rattle.mode_parts.specs.Callings.{calling_of};
ghost use Rattle.mode_parts.specs.Planned.{IsServiceOf, head_of};

use crate::calling::Calling;
use batch_deals::Service;
use capture_loop::BATCH;
use command_line::Plan;
use report_text::Head;
use step_counts::Settings;

/// How the plan's calls are served.
pub fn service_of(plan: &Plan) -> Service
    requires { IsInRange plan.now }
    ensures asks { IsServiceOf plan.now result }
    ensures given { ForSome result.rows (AreBelow (2 ^ 32)) }
{
    match Settings::new(plan.seats, plan.items, plan.depth, plan.start) {
        Ok(settings) => Service {
            settings,
            hashing: plan.hashing,
            share: plan.share,
            rows: plan.rows,
        },
        Err(_) => unreachable!(),
    }
}

/// How the plan's packets become calls.
pub fn calling_of(plan: &Plan) -> Calling
    ensures { result ≡ calling_of plan.now }
{
    Calling {
        framing: plan.framing,
        calls: plan.calls,
    }
}

/// What the head line tells, of a play or of calls that are served.
pub fn head_of(play: bool, plan: &Plan) -> Head
    ensures { result ≡ head_of play plan.now }
{
    Head {
        play,
        seats: plan.seats,
        items: plan.items,
        depth: plan.depth,
        start: plan.start,
        hashing: plan.hashing,
        share: plan.share,
        calls: plan.calls,
        batch: if play { BATCH } else { plan.batch },
    }
}
