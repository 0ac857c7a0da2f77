//! The rounds of an update.

ghost use Rattle.std.specs.Prelude.{◌≡◌, ◌+◌, ◌<◌, ◌≤◌, ◌^◌, None};
ghost use Rattle.table_model.specs.Phases.{DirRoot, TryWord};
ghost use Rattle.seat_calls.specs.Going.{went};
ghost use Rattle.seat_calls.specs.Desks.{IsOf, settings_at};
ghost use Rattle.seat_calls.specs.Owns.{IsOwn};
ghost use Rattle.seat_calls.specs.Rooms.{HasAllRoom};
ghost use Rattle.seat_calls.specs.Outcomes.{ending, ending_of_round};

use crate::desk::Desk;
use crate::directory_tries::{Changed, try_directory};
use crate::limits::TRIES_STEPS;
use crate::own::Own;
use crate::room::{Buffers, Room};
use crate::steps::Steps;
use crate::tries::{Tried, try_bucket};
use plain_map::Reply;
use step_counts::SeatRows;
use table_model::Round;

// The bucket tries of a round, two and a look: the reply with its row, or none where a directory try is next; and how
// many steps they took.
#[inline(always)]
fn try_buckets<S: Steps>(
    steps: &mut S,
    desk: &Desk,
    buffers: &mut Buffers,
    own: &Own,
    used: &mut SeatRows,
    round: Round,
) -> (Option<(Reply, u64)>, u64)
    requires phase { (S.now steps.old).phase ≡ TryWord round 1 None }
    requires desk { IsOf (S.now steps.old) desk.now }
    requires own { IsOwn (S.now steps.old) own.now }
    requires used { used.old ≡ (S.now steps.old).account.used }
    ensures goes { S.now steps.new ≡ went (S.now steps.old) used.new result.1 (ending round result.0) }
    ensures few { result.1 ≤ TRIES_STEPS }
{
    // Two tries and a look: at the third turn the row has the op or is frozen, as `tries` says.
    let mut turn = 1;
    let mut first = None;
    let mut spent = 0;
    'tries: loop {
        let (tried, more) = try_bucket(
            steps,
            desk,
            &mut buffers.words,
            &mut buffers.ops,
            own,
            used,
            round,
            turn,
            first,
        );
        spent += more;
        match tried {
            Tried::Answered(reply, row) => return (Some((reply, row)), spent),
            Tried::ToDirectory => return (None, spent),
            Tried::Again(row) => {
                turn += 1;
                first = Some(row);
            }
        }
    }
}

// The directory tries of a round, two at most: the reply with its row, or none where the round is left; and how many
// steps they took.
#[cold]
#[inline(never)]
fn try_directories<S: Steps>(
    steps: &mut S,
    desk: &Desk,
    room: &mut Room,
    own: &Own,
    used: &mut SeatRows,
    round: Round,
) -> (Option<(Reply, u64)>, u64)
    requires phase { (S.now steps.old).phase ≡ DirRoot round 1 None }
    requires desk { IsOf (S.now steps.old) desk.now }
    requires room { HasAllRoom (settings_at desk.now) room.old }
    requires own { IsOwn (S.now steps.old) own.now }
    requires used { used.old ≡ (S.now steps.old).account.used }
    ensures goes { S.now steps.new ≡ went (S.now steps.old) used.new result.1 (ending_of_round round result.0) }
    ensures few { result.1 < 2 ^ 62 }
    ensures room { HasAllRoom (settings_at desk.now) room.new }
{
    // Two tries: after the second one the round is left, as `directory_tries` says.
    let mut turn = 1;
    let mut first = None;
    let mut spent = 0;
    'tries: loop {
        let (changed, more) = try_directory(steps, desk, room, own, used, round, turn, first);
        match changed {
            Changed::Made(reply, row) => {
                steps.stands();
                return (Some((reply, row)), spent + more);
            }
            Changed::Left => {
                steps.stands();
                return (None, spent + more);
            }
            Changed::LostRoot(root) => {
                steps.stands();
                spent += more;
                turn += 1;
                first = Some(root);
            }
        }
    }
}

/// A whole round: the reply with its row, or none where the round is left; and how many steps it took.
#[inline(always)]
pub fn try_round<S: Steps>(
    steps: &mut S,
    desk: &Desk,
    room: &mut Room,
    own: &Own,
    used: &mut SeatRows,
    round: Round,
) -> (Option<(Reply, u64)>, u64)
    requires phase { (S.now steps.old).phase ≡ TryWord round 1 None }
    requires desk { IsOf (S.now steps.old) desk.now }
    requires room { HasAllRoom (settings_at desk.now) room.old }
    requires own { IsOwn (S.now steps.old) own.now }
    requires used { used.old ≡ (S.now steps.old).account.used }
    ensures goes { S.now steps.new ≡ went (S.now steps.old) used.new result.1 (ending_of_round round result.0) }
    ensures few { result.1 < 2 ^ 62 + TRIES_STEPS }
    ensures room { HasAllRoom (settings_at desk.now) room.new }
{
    let (answer, spent) = try_buckets(steps, desk, &mut room.buffers, own, used, round);
    if let Some((reply, row)) = answer {
        return (Some((reply, row)), spent);
    }
    let (answer, more) = try_directories(steps, desk, room, own, used, round);
    (answer, spent + more)
}
