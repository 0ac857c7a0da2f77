//! A seat makes the calls of its flows, one after the other.

ghost use Rattle.std.specs.Prelude.{◌≡◌, ◌≤◌, ◌<◌, ◌^◌, ℕ, List, All, length};
ghost use Rattle.plain_map.specs.Serving.{IsAskable};
ghost use Rattle.map_laws.specs.ByKey.{Made};
ghost use Rattle.trace_share.specs.Outcomes.{carried_by};
ghost use Rattle.flow_workers.specs.Counts.{AreBelow, counts_after};
ghost use Rattle.flow_workers.specs.Work.{CanMake, HasMade, HasMadeOne, HasWorked, MayWork};

use crate::replies::ReplyCounts;
use edge_traits::Gate;
use lasting_table::{LastingTable, Seat};
use plain_map::{Call, Reply};
use trace_share::WorksOn;

/// A seat of a lasting table, with the calls that it is to make, and how many had each reply.
#[derive(Drop)]
pub struct FlowWorker {
    /// `None` while it makes them.
    pub seat: Option<Seat>,
    pub calls: Vec<Call>,
    pub replies: ReplyCounts,
}

impl WorksOn<LastingTable> for FlowWorker {
    ghost ready = { MayWork };

    ghost done = { λ _ was now. HasWorked was now };

    // The seat is taken out of the worker meanwhile: it is written at each call, and the worker that lies beside this
    // one would else lose that part of memory each time.
    fn work_on<G: Gate>(&mut self, on: &LastingTable, seat: u32, gate: &G) {
        let Some(mut own) = self.seat.take() else {
            unreachable!()
        };
        let mut replies = self.replies;
        make_calls(&mut own, on, &self.calls, &mut replies, seat, gate);
        self.seat = Some(own);
        self.replies = replies;
    }
}

// Makes these calls, one after the other, and counts their replies. It passes the gate before each, and tells it of
// each answer, as this seat.
fn make_calls<G: Gate>(
    own: &mut Seat,
    on: &LastingTable,
    calls: &[Call],
    replies: &mut ReplyCounts,
    seat: u32,
    gate: &G,
)
    requires can { CanMake on.now own.old (length calls.now) }
    requires askable { All IsAskable calls.now }
    requires few { length calls.now < 2 ^ 32 }
    requires counts { AreBelow (2 ^ 62) replies.now }
    ensures { (made : List Made) × HasMade own.old own.new calls.now made
        × (replies.exit.now ≡ counts_after replies.entry.now made) }
{
    for (place, call) in calls.iter().enumerate() {
        let number = place as u32 + 1;
        gate.pass(seat, number);
        let reply = make_call(own, on, call);
        gate.told(seat, number, carried(&reply));
        replies.count(&reply);
    }
}

// Makes one call. It is never refused, since the seat has numbers enough.
#[inline(always)]
fn make_call(own: &mut Seat, on: &LastingTable, call: &Call) -> Reply
    requires can { CanMake on.now own.old 1 }
    requires askable { IsAskable call.now }
    ensures { HasMadeOne own.old own.new (call.now, result) }
{
    match call {
        Call::Lookup(key) => own.lookup(on, key),
        update => match own.update(on, update) {
            Ok(reply) => reply,
            Err(_) => unreachable!(),
        },
    }
}

// The number that a reply carries, or 0.
fn carried(reply: &Reply) -> u64
    ensures { result ≡ carried_by reply.now }
{
    match reply {
        Reply::Old(value) | Reply::Gone(value) | Reply::Found(value) | Reply::Sum(value) => *value,
        Reply::New | Reply::NoRoom | Reply::Absent => 0,
    }
}
