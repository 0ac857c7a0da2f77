//! A plain map for each class.

ghost use Rattle.std.specs.Prelude.{◌≡◌, ◌^◌, ◌<◌, All, IfOk, MatchBool, OnErr};
ghost use Rattle.std.specs.FinMap.{empty};
ghost use Rattle.plain_map.specs.Places.{IsInKeyOrder};
ghost use Rattle.plain_map.specs.PlainObject.{InRange, IsInsertOfNew, Sessions, map_after, pairs_of, reply_of};
ghost use Rattle.class_map.specs.Pairs.{AreAmong, IsHeld};
ghost use Rattle.class_map.specs.Rows.{HasEachClass, Holds, one_class};

use crate::object::PlainMap;
use crate::pairs::{are_in, is_in};
use hash_bits::prefix_laws;
use plain_map::{Call, Pair, Reply, Rules, answer_laws};
use std::alloc::{AllocError, Global};
use std::marker::Model;

/// Sessions by key, each class in a map of its own.
///
/// A call touches the keys of its own class alone, of which there are at most 16.
#[derive(Drop)]
pub struct ClassMap {
    rows: Vec<PlainMap>,
}

// What each class holds.
impl Model for ClassMap {
    ghost use Rattle.std.specs.Prelude.{List};
    ghost use Rattle.std.specs.Coded.{coded_list};
    ghost use Rattle.std.specs.FinMap as map;
    ghost use Rattle.plain_map.specs.Keys.{coded_key, coded_session};
    ghost use Rattle.plain_map.specs.PlainObject.{Sessions};

    ghost Value = { List Sessions };

    ghost coded = { coded_list (map.code coded_key coded_session) };

    ghost view = { λ m. m.rows.items };
}

impl ClassMap {
    /// The empty map. The rules are those of all its calls.
    pub fn new(alloc: Global, rules: &Rules) -> Result<ClassMap, AllocError>
        requires { InRange rules.now }
        ensures { IfOk result (λ map. Holds map rules.now empty) }
    {
        let mut rows = Vec::new(alloc);
        for _ in 0..1u64 << rules.depth {
            rows.push(PlainMap::new(alloc))?;
        }
        Ok(ClassMap { rows })
    }

    /// Answers a call, and changes the map as the call asks.
    ///
    /// The only error is want of memory. It comes only at an insert of a key that is not there, and
    /// leaves the map as it was.
    pub fn answer(&mut self, rules: &Rules, call: &Call) -> Result<Reply, AllocError>
        requires range { InRange rules.now }
        requires rows { HasEachClass self.old rules.now }
        ensures rows { HasEachClass self.new rules.now }
        ensures reply { (sessions : Sessions) → Holds self.old rules.now sessions →
            IfOk result (λ reply. (reply ≡ reply_of rules.now sessions call.now)
            × Holds self.new rules.now (map_after rules.now sessions call.now)) }
        ensures err { (sessions : Sessions) → Holds self.old rules.now sessions →
            OnErr result (IsInsertOfNew sessions call.now × Holds self.new rules.now sessions) }
    {
        prefix_laws();
        answer_laws();
        let class = rules.class_of(call.key()) as usize;
        self.rows[class].answer(&own_rules(rules), call)
    }

    /// Whether the map holds just these pairs, which are in the order of their keys.
    pub fn holds_just(&self, rules: &Rules, pairs: &[Pair]) -> bool
        requires range { InRange rules.now }
        requires rows { HasEachClass self.now rules.now }
        ensures { (sessions : Sessions) → Holds self.now rules.now sessions → IsInKeyOrder pairs.now →
            MatchBool result (pairs.now ≡ pairs_of sessions) (pairs.now ≡ pairs_of sessions → ⊥) }
    {
        prefix_laws();
        if !self.holds_all(rules, pairs) {
            return false;
        }
        self.holds_no_other(pairs)
    }

    // Whether each of the pairs is held.
    fn holds_all(&self, rules: &Rules, pairs: &[Pair]) -> bool
        requires range { InRange rules.now }
        requires rows { HasEachClass self.now rules.now }
        ensures { (sessions : Sessions) → Holds self.now rules.now sessions →
            MatchBool result (All (IsHeld sessions) pairs.now) (All (IsHeld sessions) pairs.now → ⊥) }
    {
        for pair in pairs {
            if !self.has(rules, pair) {
                return false;
            }
        }
        true
    }

    // Whether the pair is held.
    fn has(&self, rules: &Rules, pair: &Pair) -> bool
        requires range { InRange rules.now }
        requires rows { HasEachClass self.now rules.now }
        ensures { (sessions : Sessions) → Holds self.now rules.now sessions →
            MatchBool result (IsHeld sessions pair.now) (IsHeld sessions pair.now → ⊥) }
    {
        let class = rules.class_of(&pair.key) as usize;
        is_in(self.rows[class].pairs(), pair)
    }

    // Whether all that is held is among the pairs.
    fn holds_no_other(&self, pairs: &[Pair]) -> bool
        ensures { IsInKeyOrder pairs.now → MatchBool result (All (AreAmong pairs.now) self.now)
            (All (AreAmong pairs.now) self.now → ⊥) }
    {
        for row in &self.rows {
            if !are_in(row.pairs(), pairs) {
                return false;
            }
        }
        true
    }
}

// The rules of a class's own map: all keys are of one class.
fn own_rules(rules: &Rules) -> Rules
    requires { InRange rules.now }
    ensures rules { result ≡ one_class rules.now }
    ensures range { InRange result }
{
    Rules {
        items: rules.items,
        depth: 0,
        hashing: rules.hashing,
    }
}
