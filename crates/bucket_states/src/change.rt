//! The bucket change: a bucket takes the announced calls of all seats, in the order of the seats.
//!
//! Whoever finds a bucket carries out what all seats have announced for it, so that no seat is left
//! behind. A new key that the bucket has no place for freezes it, where it can still be split: from
//! then on it stays as it is.

ghost use Rattle.std.specs.Prelude.{◌≡◌, ◌<◌, ◌≤◌, length, vec_len, vec_capacity, IsTrue};
ghost use Rattle.plain_map.specs.PlainObject.{InRange};
ghost use Rattle.bucket_states.specs.Items.{prefix_of};
ghost use Rattle.bucket_states.specs.States.{state_of, KeepsShape, KeepsRoom};
ghost use Rattle.bucket_states.specs.Change.{is_due, after_op, change};

use crate::items::answer;
use crate::{Bucket, Op};
use hash_bits::bits;
use plain_map::{Key, Rules};

impl Bucket {
    /// Takes the announced calls, one place for each seat.
    ///
    /// A call is taken where its key has the bucket's prefix and its number is above the number that
    /// the bucket has of the seat. It takes no memory.
    pub fn apply_all(&mut self, rules: &Rules, ops: &[Option<Op>])
        requires range { InRange rules.now }
        requires depth { self.old.depth ≤ rules.now.depth }
        requires applied { length ops.now ≤ vec_len self.old.applied }
        requires replies { length ops.now ≤ vec_len self.old.replies }
        requires room { rules.now.items ≤ vec_capacity self.old.items }
        ensures state { state_of self.new ≡ change rules.now ops.now (state_of self.old) }
        ensures shape { KeepsShape (state_of self.old) (state_of self.new) }
        ensures room { KeepsRoom self.old self.new }
    {
        for (seat, op) in ops.iter().enumerate() {
            if let Some(op) = op {
                self.apply(rules, seat, op);
            }
        }
    }

    // Takes the call of one seat.
    fn apply(&mut self, rules: &Rules, seat: usize, op: &Op)
        requires range { InRange rules.now }
        requires depth { self.old.depth ≤ rules.now.depth }
        requires applied { seat < vec_len self.old.applied }
        requires replies { seat < vec_len self.old.replies }
        requires room { rules.now.items ≤ vec_capacity self.old.items }
        ensures state { state_of self.new ≡ after_op rules.now seat op.now (state_of self.old) }
        ensures room { KeepsRoom self.old self.new }
    {
        if self.frozen || !self.is_due(rules, seat, op) {
            return;
        }
        match answer(&mut self.items, rules, self.depth, &op.call) {
            Some(reply) => {
                self.applied[seat] = op.number;
                self.replies[seat] = Some(reply);
            }
            None => self.frozen = true,
        }
    }

    // Whether the call is for this bucket, and not in it yet.
    fn is_due(&self, rules: &Rules, seat: usize, op: &Op) -> bool
        requires range { InRange rules.now }
        requires depth { self.now.depth ≤ rules.now.depth }
        requires applied { seat < vec_len self.now.applied }
        ensures { result ≡ is_due rules.now (state_of self.now) seat op.now }
    {
        prefix_of(rules, self.depth, op.call.key()) == self.prefix && self.applied[seat] < op.number
    }
}

// The first bits of a key's hash.
#[tactic(auto, unfolding(crate::specs::Items::prefix_of))]
pub(crate) fn prefix_of(rules: &Rules, depth: u32, key: &Key) -> u64
    requires { depth ≤ 64 }
    ensures { result ≡ prefix_of rules.now depth key.now }
{
    bits(key.hash(&rules.hashing), depth)
}
