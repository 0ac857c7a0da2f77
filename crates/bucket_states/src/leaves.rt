//! The small steps of a directory change, as they are taken on one bucket: its split, and the answer to one call.
//!
//! None of them takes memory.

ghost use Rattle.std.specs.Prelude.{
  ◌≡◌,
  ℕ,
  ◌==◌,
  ◌^◌,
  ◌<◌,
  ◌≤◌,
  filter,
  length,
  vec_len,
  vec_capacity,
};
ghost use Rattle.bucket_states.specs.Items.{items_after, overflows, prefix_of, reply_in};
ghost use Rattle.bucket_states.specs.States.{state_of, CanHold, KeepsShape, KeepsRoom};
ghost use Rattle.bucket_states.specs.Change.{answered};
ghost use Rattle.bucket_states.specs.Halves.{half};

use crate::bucket::refill;
use crate::change::prefix_of;
use crate::items::answer;
use crate::{Bucket, Op};
use plain_map::{Call, Key, Pair, Reply, Rules};

impl Bucket {
    /// Whether the key is one of the bucket's: the first bits of its hash are the bucket's prefix.
    pub fn holds(&self, rules: &Rules, key: &Key) -> bool
        requires { self.now.depth ≤ 64 }
        ensures { result ≡ (prefix_of rules.now self.now.depth key.now == self.now.prefix) }
    {
        prefix_of(rules, self.depth, key) == self.prefix
    }

    /// Whether the call brings a new key where there is no place, and the bucket can still be split.
    #[tactic(auto, using(std::proofs::lemmas::Bool::Decides::nat_tests), unfolding(crate::specs::Items::overflows))]
    pub fn overflows(&self, rules: &Rules, call: &Call) -> bool
        ensures { result ≡ overflows rules.now self.now.depth self.now.items.items call.now }
    {
        match call {
            Call::Insert(key, _) | Call::Count(key, _, _) | Call::Put(key, _) => {
                self.find(key).is_none()
                    && self.items.len() >= rules.items as usize
                    && self.depth < rules.depth
            }
            Call::Remove(_) | Call::Lookup(_) | Call::Tally(_, _) => false,
        }
    }

    /// Answers the announced call of a seat. A new key that has no place is refused.
    pub fn answer(&mut self, rules: &Rules, seat: usize, op: &Op)
        requires applied { seat < vec_len self.old.applied }
        requires replies { seat < vec_len self.old.replies }
        requires room { rules.now.items ≤ vec_capacity self.old.items }
        ensures state { state_of self.new ≡ answered rules.now (state_of self.old) seat op.now }
        ensures shape { KeepsShape (state_of self.old) (state_of self.new) }
        ensures room { KeepsRoom self.old self.new }
    {
        let reply = answer_here(&mut self.items, rules, &op.call);
        self.applied[seat] = op.number;
        self.replies[seat] = Some(reply);
    }

    /// The two parts of this bucket become two other buckets: the keys whose next hash bit is 0, and those where it is
    /// 1.
    ///
    /// The items keep their order, and both parts have all numbers and replies. It takes no memory.
    pub fn split_one(&self, rules: &Rules, zero: &mut Bucket, one: &mut Bucket)
        requires depth { self.now.depth < 64 }
        requires prefix { self.now.prefix < 2 ^ 63 }
        requires zero { CanHold (state_of self.now) zero.old }
        requires one { CanHold (state_of self.now) one.old }
        ensures zero { state_of zero.new ≡ half rules.now 0 (state_of self.now) }
        ensures one { state_of one.new ≡ half rules.now 1 (state_of self.now) }
        ensures few { (length zero.new.items.items ≤ length self.now.items.items)
            × (length one.new.items.items ≤ length self.now.items.items) }
        ensures room { KeepsRoom zero.old zero.new × KeepsRoom one.old one.new }
    {
        self.half_into(rules, 0, zero);
        self.half_into(rules, 1, one);
    }

    // One of the two parts of this bucket becomes another bucket: the part of the keys whose next hash bit is this one.
    fn half_into(&self, rules: &Rules, bit: u64, out: &mut Bucket)
        requires bit { bit ≤ 1 }
        requires depth { self.now.depth < 64 }
        requires prefix { self.now.prefix < 2 ^ 63 }
        requires room { CanHold (state_of self.now) out.old }
        ensures state { state_of out.new ≡ half rules.now bit (state_of self.now) }
        ensures fits { self.now.prefix < 2 ^ self.now.depth → out.new.prefix < 2 ^ out.new.depth }
        ensures few { length out.new.items.items ≤ length self.now.items.items }
        ensures room { KeepsRoom out.old out.new }
    {
        out.prefix = 2 * self.prefix + bit;
        out.depth = self.depth + 1;
        out.frozen = false;
        select(&self.items, rules, out.depth, out.prefix, &mut out.items);
        refill(&mut out.applied, &self.applied);
        refill(&mut out.replies, &self.replies);
    }
}

// The answer to a call, with the change that it makes. At the greatest depth no bucket has to be split first.
fn answer_here(items: &mut Vec<Pair>, rules: &Rules, call: &Call) -> Reply
    requires { rules.now.items ≤ vec_capacity items.old }
    ensures reply { result ≡ reply_in rules.now items.old.items call.now }
    ensures after { items.new.items ≡ items_after rules.now items.old.items call.now }
    ensures room { vec_capacity items.new ≡ vec_capacity items.old }
{
    match answer(items, rules, rules.depth, call) {
        Some(reply) => reply,
        None => unreachable!(),
    }
}

// Copies the pairs whose keys have the prefix at the depth.
fn select(items: &[Pair], rules: &Rules, depth: u32, prefix: u64, into: &mut Vec<Pair>)
    requires depth { depth ≤ 64 }
    requires room { length items.now ≤ vec_capacity into.old }
    ensures items { into.new.items ≡ filter (λ pair. prefix_of rules.now depth pair.key == prefix) items.now }
    ensures few { vec_len into.new ≤ length items.now }
    ensures room { vec_capacity into.new ≡ vec_capacity into.old }
{
    into.clear();
    for pair in items {
        if prefix_of(rules, depth, &pair.key) == prefix {
            into.push_reserved(*pair);
        }
    }
}
