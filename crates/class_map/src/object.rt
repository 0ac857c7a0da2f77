//! The plain map: one finite map, which answers one call after the other.
//!
//! It is what all other parts are measured against. Its pairs stand in the order of their keys, and
//! beside them how many keys each class has, so that neither a lookup nor an insert goes over them.

ghost use Rattle.std.specs.Prelude.{◌≡◌, ◌<◌, IfOk, OnOk, OnErr, None, length, remove};
ghost use Rattle.std.specs.Option.{ForSome};
ghost use Rattle.std.specs.FinMap as map;
ghost use Rattle.std.specs.FinMap.{get};
ghost use Rattle.plain_map.specs.Keys.{held_in};
ghost use Rattle.plain_map.specs.PlainObject.{
  InRange,
  Sessions,
  pairs_of,
  brought,
  counted,
  valued,
  has_room,
  insert_reply,
  count_reply,
  reply_of,
  map_after,
};
ghost use Rattle.class_map.specs.ClassCounts.{AreCountsOf};

use crate::class_counts::ClassCounts;
use crate::places::place_of;
use plain_map::{Call, Key, Pair, Reply, Rules, add_bytes};
use std::alloc::{AllocError, Global};
use std::marker::Model;

/// Sessions by key, with room for so many keys in each class.
///
/// **Time:** a call takes a binary search or two, and one that brings or takes out a key also moves the pairs behind
/// it. A key that comes by other rules than the one before has all keys counted anew.
#[derive(Drop)]
pub struct PlainMap {
    alloc: Global,
    // In the order of their keys.
    pairs: Vec<Pair>,
    // Of these pairs, by the rules of the last call that needed them.
    counts: Option<ClassCounts>,
}

impl Model for PlainMap {
    ghost use Rattle.std.specs.FinMap as map;
    ghost use Rattle.plain_map.specs.Keys.{coded_key, coded_session};
    ghost use Rattle.plain_map.specs.PlainObject.{Sessions};

    ghost Value = { Sessions };

    ghost coded = { map.code coded_key coded_session };

    ghost use Rattle.plain_map.specs.Held.{sessions_of};
    ghost use Rattle.class_map.specs.Held.{IsKept};

    ghost view = { λ m. sessions_of m.pairs.items };

    ghost invariant = { λ m. IsKept m.pairs.items m.counts };
}

impl PlainMap {
    ghost use Rattle.plain_map.specs.declared.calls.Call.TheVariants.{Remove, Lookup, Tally};
    ghost use Rattle.plain_map.specs.PlainObject.{IsInsertOfNew};

    /// The empty map, which takes no memory.
    pub fn new(alloc: Global) -> PlainMap
        ensures { result ≡ map.empty }
    {
        PlainMap {
            alloc,
            pairs: Vec::new(alloc),
            counts: None,
        }
    }

    /// Answers a call, and changes the map as the call asks.
    ///
    /// The only error is want of memory. It comes only where the call brings a key that is not there, and
    /// leaves the map as it was.
    pub fn answer(&mut self, rules: &Rules, call: &Call) -> Result<Reply, AllocError>
        requires { InRange rules.now }
        ensures reply { IfOk result (λ reply. reply ≡ reply_of rules.now self.old call.now) }
        ensures change { OnOk result (self.new ≡ map_after rules.now self.old call.now) }
        ensures err { OnErr result (self.new ≡ self.old) }
        ensures err_only_at_new { OnErr result (IsInsertOfNew self.old call.now) }
    {
        match *call {
            Call::Insert(key, value) => self.insert(
                rules,
                Pair {
                    key,
                    value,
                    bytes: 0,
                },
            ),
            Call::Remove(key) => Ok(self.remove(&key)),
            Call::Lookup(key) => Ok(self.lookup(&key)),
            Call::Tally(key, amount) => Ok(self.tally(&key, amount)),
            Call::Count(key, value, amount) => self.count(
                rules,
                Pair {
                    key,
                    value,
                    bytes: amount,
                },
            ),
            Call::Put(key, value) => self.put(
                rules,
                Pair {
                    key,
                    value,
                    bytes: 0,
                },
            ),
        }
    }

    /// The pairs, in the order of their keys.
    pub fn pairs(&self) -> &[Pair]
        ensures { result.now ≡ pairs_of self.now }
    {
        &self.pairs
    }

    fn lookup(&self, key: &Key) -> Reply
        ensures { (rules : Rules) → result ≡ reply_of rules self.now (Lookup key.now) }
    {
        match place_of(&self.pairs, key) {
            Ok(at) => Reply::Found(self.pairs[at].value),
            Err(_) => Reply::Absent,
        }
    }

    fn remove(&mut self, key: &Key) -> Reply
        ensures reply { (rules : Rules) → result ≡ reply_of rules self.old (Remove key.now) }
        ensures change { self.new ≡ map.remove self.old key.now }
    {
        match place_of(&self.pairs, key) {
            Ok(at) => {
                self.counts = without(self.counts.take(), &self.pairs, at);
                let pair = self.pairs.remove(at);
                Reply::Gone(pair.value)
            }
            Err(_) => Reply::Absent,
        }
    }

    fn tally(&mut self, key: &Key, amount: u64) -> Reply
        ensures reply { (rules : Rules) → result ≡ reply_of rules self.old (Tally key.now amount) }
        ensures change { (rules : Rules) → self.new ≡ map_after rules self.old (Tally key.now amount) }
    {
        match place_of(&self.pairs, key) {
            Ok(at) => {
                let bytes = add_bytes(self.pairs[at].bytes, amount);
                self.pairs[at].bytes = bytes;
                Reply::Sum(bytes)
            }
            Err(_) => Reply::Absent,
        }
    }

    // Adds the pair's bytes to those of its key, or brings the pair where the key is not there.
    fn count(&mut self, rules: &Rules, pair: Pair) -> Result<Reply, AllocError>
        requires range { InRange rules.now }
        ensures reply { IfOk result (λ reply. reply ≡
            count_reply pair.bytes (get self.old pair.key) (has_room rules.now self.old pair.key)) }
        ensures change { OnOk result (self.new ≡ counted rules.now self.old pair.key pair.value pair.bytes) }
        ensures err { OnErr result (self.new ≡ self.old) }
        ensures err_only_at_new { OnErr result (get self.old pair.key ≡ None) }
    {
        match place_of(&self.pairs, &pair.key) {
            Ok(at) => {
                let bytes = add_bytes(self.pairs[at].bytes, pair.bytes);
                self.pairs[at].bytes = bytes;
                Ok(Reply::Sum(bytes))
            }
            Err(_) => self.insert(rules, pair),
        }
    }

    // Gives the pair's key its value, or brings the pair where the key is not there.
    fn put(&mut self, rules: &Rules, pair: Pair) -> Result<Reply, AllocError>
        requires range { InRange rules.now }
        requires begins { pair.bytes ≡ 0 }
        ensures reply { IfOk result (λ reply. reply ≡
            insert_reply (get self.old pair.key) (has_room rules.now self.old pair.key)) }
        ensures change { OnOk result (self.new ≡ valued rules.now self.old pair.key pair.value) }
        ensures err { OnErr result (self.new ≡ self.old) }
        ensures err_only_at_new { OnErr result (get self.old pair.key ≡ None) }
    {
        match place_of(&self.pairs, &pair.key) {
            Ok(at) => {
                let old = self.pairs[at].value;
                self.pairs[at].value = pair.value;
                Ok(Reply::Old(old))
            }
            Err(_) => self.insert(rules, pair),
        }
    }

    // Brings the pair, where its key is not there and its class has room.
    fn insert(&mut self, rules: &Rules, pair: Pair) -> Result<Reply, AllocError>
        requires range { InRange rules.now }
        ensures reply { IfOk result (λ reply. reply ≡
            insert_reply (get self.old pair.key) (has_room rules.now self.old pair.key)) }
        ensures change { OnOk result (self.new ≡ brought rules.now self.old pair.key (held_in pair)) }
        ensures err { OnErr result (self.new ≡ self.old) }
        ensures err_only_at_new { OnErr result (get self.old pair.key ≡ None) }
    {
        let at = match place_of(&self.pairs, &pair.key) {
            Ok(at) => return Ok(Reply::Old(self.pairs[at].value)),
            Err(at) => at,
        };
        let mut counts = counts_by(rules, self.counts.take(), self.alloc, &self.pairs)?;
        let class = rules.class_of(&pair.key);
        if counts.at(class) < u64::from(rules.items) {
            self.pairs.insert(at, pair)?;
            counts.gain(class);
            self.counts = Some(counts);
            Ok(Reply::New)
        } else {
            self.counts = Some(counts);
            Ok(Reply::NoRoom)
        }
    }
}

// The counts of these pairs by these rules: those that are there already, where they are by these rules.
fn counts_by(
    rules: &Rules,
    held: Option<ClassCounts>,
    alloc: Global,
    pairs: &[Pair],
) -> Result<ClassCounts, AllocError>
    requires range { InRange rules.now }
    requires held { ForSome held (AreCountsOf pairs.now) }
    ensures counts { IfOk result (AreCountsOf pairs.now) }
    ensures rules { IfOk result (λ counts. counts.rules ≡ rules.now) }
{
    match held {
        Some(counts) if counts.rules == *rules => Ok(counts),
        _ => ClassCounts::of(alloc, rules, pairs),
    }
}

// The counts of these pairs but for the one at this place.
fn without(held: Option<ClassCounts>, pairs: &[Pair], at: usize) -> Option<ClassCounts>
    requires held { ForSome held (AreCountsOf pairs.now) }
    requires within { at < length pairs.now }
    ensures { ForSome result (AreCountsOf (remove pairs.now at)) }
{
    match held {
        Some(mut counts) => {
            let rules = counts.rules;
            counts.lose(rules.class_of(&pairs[at].key));
            Some(counts)
        }
        None => None,
    }
}
