//! The answer that a bucket has for a seat, and where a seat goes without one.

ghost use Rattle.std.specs.Prelude.{◌≡◌, ◌+◌, ◌≤◌, ◌<◌, ◌==◌, ◌^◌, None, if◌then◌else◌, length, nat_le, slice_index, slice_index_or};
ghost use Rattle.plain_map.specs.declared.records.TheConstants.{MOST_SEATS as MOST};
ghost use Rattle.table_model.specs.SeatStates.{record_of, seen_counts, pending_of};
ghost use Rattle.table_model.specs.Goes.{answered_with};

use crate::machine::Machine;
use crate::stage::Stage;
use bucket_states::Bucket;
use plain_map::{MOST_SEATS, Pending, Record, Reply, Seen};
use table_model::{Aim, Round};

/// Whether the seat's call with this number is applied in the bucket.
pub fn is_applied(seat: u32, number: u32, bucket: &Bucket) -> bool
    ensures { result ≡ nat_le number (slice_index bucket.now.applied.items seat) }
{
    match bucket.applied.get(seat as usize) {
        Some(applied) => number as u64 <= *applied,
        None => number == 0,
    }
}

/// The reply of the seat in the bucket.
pub fn reply_in(seat: u32, bucket: &Bucket) -> Option<Reply>
    ensures { result ≡ slice_index_or bucket.now.replies.items seat None }
{
    match bucket.replies.get(seat as usize) {
        Some(reply) => *reply,
        None => None,
    }
}

/// The round is left without the reply.
pub fn after_round(round: Round) -> Stage
    ensures { result ≡ Stage.FindRoot (if round.turn == 1 then Aim.ForSecondRound round.first else Aim.ForLastLook) }
{
    if round.turn == 1 {
        Stage::FindRoot(Aim::ForSecondRound(round.first))
    } else {
        Stage::FindRoot(Aim::ForLastLook)
    }
}

// The seen counts as they stand in a record.
fn padded(seen: &[u32]) -> Seen
    requires { length seen.now ≤ MOST }
    ensures { result ≡ seen_counts seen.now }
{
    let mut counts = [0; MOST_SEATS];
    counts[..seen.len()].copy_from_slice(seen);
    Seen { counts }
}

impl Machine {
    ghost use Rattle.seat_machine.specs.Room.{HasAllRoom};
    ghost use Rattle.seat_machine.specs.Stands.{CallStands, IsKept};
    ghost use Rattle.seat_machine.specs.Steps.{KeepsCall};
    ghost use Rattle.seat_machine.specs.View.{flight_of, phase_of, setup_of};

    /// The call is answered so, by the row with this number. Where a call is applied there always is a reply.
    pub fn settle(&mut self, reply: Option<Reply>, row: u64)
        requires room { HasAllRoom self.old }
        requires call { CallStands self.old }
        ensures phase { phase_of self.new ≡ answered_with row reply }
        ensures same { KeepsCall self.old self.new }
        ensures kept { IsKept self.new }
    {
        match reply {
            Some(reply) => self.stage = Stage::StoreDone(reply, row),
            None => self.stage = Stage::Stuck,
        }
    }

    /// The done word is stored: the call has ended.
    pub fn end(&mut self, reply: Reply, place: u64) -> Record
        requires kept { IsKept self.old }
        requires call { CallStands self.old }
        requires steps { self.old.steps < 2 ^ 63 }
        ensures record { result ≡ record_of self.old.seat (flight_of self.old) reply place }
        ensures stage { self.new.stage ≡ Stage.Idle }
        ensures count { self.new.count ≡ self.old.count + 1 }
        ensures used { self.new.used ≡ self.old.used }
        ensures seat { self.new.seat ≡ self.old.seat }
        ensures setup { setup_of self.new ≡ setup_of self.old }
        ensures kept { IsKept self.new }
    {
        self.stage = Stage::Idle;
        self.count = self.number;
        Record {
            seat: self.seat,
            number: self.number,
            packet: self.packet,
            call: self.call,
            reply,
            steps: self.steps + 1,
            seen: padded(&self.seen),
            place,
        }
    }

    /// The call in flight, as it is told where its seat stops.
    pub fn pending(&self) -> Pending
        requires { CallStands self.now }
        ensures { result ≡ pending_of self.now.seat (flight_of self.now) }
    {
        Pending {
            seat: self.seat,
            number: self.number,
            packet: self.packet,
            call: self.call,
            seen: padded(&self.seen),
        }
    }
}
