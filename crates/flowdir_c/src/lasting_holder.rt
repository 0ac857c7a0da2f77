//! A seat of a lasting table beside its table.

ghost use Rattle.std.specs.Prelude.{◌≡◌, ◌≤◌, IsTrue, None, false, length, map, take};
ghost use Rattle.std.specs.Arc.{arc_value};
ghost use Rattle.plain_map.specs.declared.calls.Call.TheVariants.{Lookup};
ghost use Rattle.plain_map.specs.Updates.{IsUpdate};
ghost use Rattle.lasting_table.specs.Values.{IsPartyOf, IsSame};
ghost use Rattle.flowdir_c.specs.LastingTold.{CannotAsk, CannotCopy, HasCopied, HasReplied, IsChange};
ghost use Rattle.flowdir_c.specs.Told.{pair_of};

use crate::answer::{Answer, FlowPair, answer_by};
use lasting_table::{LastingTable, Seat};
use plain_map::{Call, Key, Pair, VALUE_LIMIT};
use std::alloc::Global;
use std::sync::Arc;
use step_counts::{MOST_ITEMS, Settings};

/// A seat beside its table.
#[derive(Drop)]
pub struct LastingHolder {
    pub(crate) table: Arc<LastingTable, Global>,
    pub(crate) seat: Seat,
    pub(crate) settings: Settings,
    ghost of: { IsPartyOf (arc_value table) seat },
    ghost sized: { settings ≡ (arc_value table).plan.settings },
}

// A pair that stands where none was copied yet.
fn no_pair() -> Pair {
    Pair {
        key: Key {
            k0: 0,
            k1: 0,
            k2: 0,
            k3: 0,
            k4: 0,
        },
        value: 0,
        bytes: 0,
    }
}

// Writes these pairs as C has them, from the first place on.
fn put_pairs(pairs: &[Pair], out: &mut [FlowPair])
    requires { length pairs.now ≤ length out.old }
    ensures pairs { map pair_of (take (length pairs.now) out.new) ≡ pairs.now }
    ensures len { length out.new ≡ length out.old }
{
    for i in 0..pairs.len() {
        out[i] = FlowPair::of_pair(&pairs[i]);
    }
}

/// Copies the pairs of a bucket by this seat of the table, and tells how many there are; none, if there is no such
/// bucket, if the room is too little or if the seat has asked too often.
pub(crate) fn copy_by(
    table: &LastingTable,
    seat: &mut Seat,
    settings: &Settings,
    bucket: u64,
    out: &mut [FlowPair],
) -> Option<usize>
    requires seat { IsPartyOf table.now seat.old }
    requires settings { settings.now ≡ table.now.plan.settings }
    ensures told { HasCopied bucket seat.old seat.new out.old out.new result }
    ensures refuses { CannotCopy seat.old bucket (length out.old) → result ≡ None }
    ensures same { IsSame seat.old seat.new }
{
    let items = settings.items as usize;
    if bucket >= 1u64 << settings.depth || out.len() < items || !seat.can_ask() {
        return None;
    }
    let mut found = [no_pair(); MOST_ITEMS as usize];
    let room = &mut found[..items];
    let count = seat.copy(table, bucket, room);
    put_pairs(&room[..count], out);
    Some(count)
}

// Whether a table takes this update: its value and amount can be kept.
#[inline(always)]
fn is_update(call: &Call) -> bool
    ensures small { IsTrue result → IsUpdate call.now }
    ensures large { result ≡ false → IsUpdate call.now → ⊥ }
{
    match call {
        Call::Insert(_, value) | Call::Put(_, value) => *value < VALUE_LIMIT,
        Call::Remove(_) => true,
        Call::Lookup(_) => false,
        Call::Tally(_, amount) => *amount < VALUE_LIMIT,
        Call::Count(_, value, amount) => *value < VALUE_LIMIT && *amount < VALUE_LIMIT,
    }
}

impl LastingHolder {
    /// Makes an update, if it can be asked. A lookup is none.
    #[inline(always)]
    pub(crate) fn update(&mut self, call: &Call) -> Option<Answer>
        requires { IsChange call.now }
        ensures told { HasReplied call.now self.old.seat self.new.seat result }
        ensures refuses { CannotAsk call.now self.old.seat → result ≡ None }
        ensures same { IsSame self.old.seat self.new.seat }
        ensures table { arc_value self.new.table ≡ arc_value self.old.table }
    {
        if !is_update(call) {
            return None;
        }
        match self.seat.update(&self.table, call) {
            Ok(reply) => Some(answer_by(&reply, 0)),
            Err(_) => None,
        }
    }

    /// Looks a key up, if the seat has not asked too often.
    #[inline(always)]
    pub(crate) fn lookup(&mut self, key: &Key) -> Option<Answer>
        ensures told { HasReplied (Lookup key.now) self.old.seat self.new.seat result }
        ensures refuses { CannotAsk (Lookup key.now) self.old.seat → result ≡ None }
        ensures same { IsSame self.old.seat self.new.seat }
        ensures table { arc_value self.new.table ≡ arc_value self.old.table }
    {
        if !self.seat.can_ask() {
            return None;
        }
        let reply = self.seat.lookup(&self.table, key);
        Some(answer_by(&reply, 0))
    }

    /// Copies the pairs of a bucket, and tells how many there are; none, if there is no such bucket, if the room is too
    /// little or if the seat has asked too often.
    pub(crate) fn copy(&mut self, bucket: u64, out: &mut [FlowPair]) -> Option<usize>
        ensures told { HasCopied bucket self.old.seat self.new.seat out.old out.new result }
        ensures refuses { CannotCopy self.old.seat bucket (length out.old) → result ≡ None }
        ensures same { IsSame self.old.seat self.new.seat }
        ensures table { arc_value self.new.table ≡ arc_value self.old.table }
    {
        copy_by(&self.table, &mut self.seat, &self.settings, bucket, out)
    }
}
