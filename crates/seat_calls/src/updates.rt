//! A whole update.

ghost use Rattle.std.specs.Prelude.{◌≡◌, ◌+◌, ◌<◌, ◌≤◌, ◌^◌};
ghost use Rattle.plain_map.specs.Updates.{IsUpdate};
ghost use Rattle.table_model.specs.Phases.{FindRoot, StoreDone};
ghost use Rattle.table_model.specs.declared.rounds.Aim.TheVariants.{ForFirstRound};
ghost use Rattle.seat_calls.specs.Going.{Begins, went};
ghost use Rattle.seat_calls.specs.Desks.{IsOf, settings_at};
ghost use Rattle.seat_calls.specs.Owns.{IsOwn};
ghost use Rattle.seat_calls.specs.Rooms.{HasAllRoom};

use crate::announcing::announce;
use crate::desk::Desk;
use crate::finding::{find, see_done};
use crate::last_looks::last_look;
use crate::lookups::counts;
use crate::own::Own;
use crate::room::Room;
use crate::rounds::try_round;
use crate::steps::Steps;
use bucket_machine::Hashed;
use plain_map::{Call, MOST_SEATS, Record, Reply};
use step_counts::{OP_WORDS, SeatRows};
use table_model::{Aim, Round};
use word_rows::{OpRow, write_op};

// The rounds of an update that is announced, and its last look: the reply, its row, and how many steps they took.
#[inline(always)]
fn settle<S: Steps>(
    steps: &mut S,
    desk: &Desk,
    room: &mut Room,
    own: &Own,
    used: &mut SeatRows,
) -> (Reply, u64, u64)
    requires phase { (S.now steps.old).phase ≡ FindRoot ForFirstRound }
    requires desk { IsOf (S.now steps.old) desk.now }
    requires room { HasAllRoom (settings_at desk.now) room.old }
    requires own { IsOwn (S.now steps.old) own.now }
    requires used { used.old ≡ (S.now steps.old).account.used }
    ensures goes { S.now steps.new ≡ went (S.now steps.old) used.new result.2 (StoreDone result.0 result.1) }
    ensures few { result.2 < 2 ^ 63 + 2 ^ 62 }
    ensures room { HasAllRoom (settings_at desk.now) room.new }
{
    let (first, bucket) = find(steps, desk, Aim::ForFirstRound, own.key.hash);
    let round = Round {
        turn: 1,
        first,
        root: first,
        bucket,
    };
    let (answer, spent) = try_round(steps, desk, room, own, used, round);
    if let Some((reply, row)) = answer {
        return (reply, row, 3 + spent);
    }
    let (root, bucket) = find(steps, desk, Aim::ForSecondRound(first), own.key.hash);
    let round = Round {
        turn: 2,
        first,
        root,
        bucket,
    };
    let (answer, more) = try_round(steps, desk, room, own, used, round);
    if let Some((reply, row)) = answer {
        return (reply, row, 6 + spent + more);
    }
    let (root, bucket) = find(steps, desk, Aim::ForLastLook, own.key.hash);
    let (reply, row) = last_look(steps, desk, own, root, bucket);
    (reply, row, 10 + spent + more + desk.row_words)
}

/// Makes an update: an insert of a value that can be kept, or a remove.
///
/// **Steps:** those of the record, all through `steps`. It takes no memory and waits for nobody.
#[inline(always)]
pub fn update<S: Steps>(
    steps: &mut S,
    desk: &Desk,
    room: &mut Room,
    used: &mut SeatRows,
    packet: u32,
    number: u32,
    call: &Call,
) -> Record
    requires begins { Begins (S.now steps.old) packet number call.now }
    requires update { IsUpdate call.now }
    requires number { 1 ≤ number }
    requires desk { IsOf (S.now steps.old) desk.now }
    requires room { HasAllRoom (settings_at desk.now) room.old }
    requires used { used.old ≡ (S.now steps.old).account.used }
    ensures answered { S.answered steps.new result used.new }
    ensures room { HasAllRoom (settings_at desk.now) room.new }
{
    let seats = desk.layout.settings().seats;
    let mut done = [0; MOST_SEATS];
    let words = &mut done[..seats as usize];
    see_done(steps, desk, words);
    let mut op = [0; OP_WORDS];
    write_op(
        &OpRow {
            number: number as u64,
            call: *call,
        },
        &mut op,
    );
    announce(steps, desk, used, &op);
    let own = Own {
        number,
        key: Hashed::new(&desk.rules.hashing, call.key()),
    };
    let (reply, place, spent) = settle(steps, desk, room, &own, used);
    steps.finish(desk.layout.done(desk.seat), number as u64);
    // The record is made last, since the store of the done word waits for all that is written before it.
    let seen = counts(words);
    Record {
        seat: desk.seat,
        number,
        packet,
        call: *call,
        reply,
        steps: seats as u64 + OP_WORDS as u64 + 1 + spent + 1,
        seen,
        place,
    }
}
