//! A whole play.

ghost use Rattle.std.specs.Prelude.{◌≡◌, ◌≤◌, IfOk, map};
ghost use Rattle.word_rows.specs.Shape.{record_limit};
ghost use Rattle.table_model.specs.Schedules.{CanPlay, play_of};
ghost use Rattle.core_steps.specs.Values.{opened};
ghost use Rattle.play_runner.specs.Played.{IsPlayed, as_segment};

use crate::ending::ended;
use crate::turns::Playing;
use crate::values::{Played, Segment};
use core_steps::CoreWorld;
use plain_map::Call;
use std::alloc::{AllocError, Global};

/// What the calls that are dealt to the seats come to by this schedule, on a table that has just been opened. A seat
/// with a stop takes so many steps and no more. After the schedule the seats go in turn, until each has made its
/// calls or is stopped.
///
/// Seats without calls or stops of their own have none. No seat counts further than a record has room for, as on each
/// table that `CoreWorld::new` opens. The only error is want of memory.
pub fn play(
    alloc: Global,
    core: CoreWorld,
    calls: &[Vec<(u32, Call)>],
    stops: &[Option<u32>],
    schedule: &[Segment],
) -> Result<Played, AllocError>
    requires opened { core ≡ opened core.setup }
    requires limit { core.setup.shape.limit ≤ record_limit }
    requires playable { CanPlay core.setup (map (λ own. own.items) calls.now) }
    ensures { IfOk result (IsPlayed core.setup
        (play_of core.setup (map (λ own. own.items) calls.now) stops.now (map as_segment schedule.now))) }
{
    let mut playing = Playing::new(alloc, core, calls, stops)?;
    for segment in schedule {
        playing.run_segment(segment)?;
    }
    playing.run_rounds()?;
    let unbegun = playing.unbegun();
    let Playing { core, outcomes, .. } = playing;
    ended(alloc, core, outcomes, unbegun)
}
