//! The classes of keys, and the callers that make their calls.

ghost use Rattle.plain_map.specs.PlainObject.{InRange};

use crate::asked::Asked;
use hash_bits::Hashing;
use plain_map::{Key, Rules};

/// The classes of keys. Each class belongs to a caller.
#[derive(Clone, Copy)]
pub struct Classes {
    pub rules: Rules,
    pub ghost in_range: { InRange rules },
}

impl Classes {
    ghost use Rattle.std.specs.Prelude.{◌≡◌, ◌≤◌, ◌<◌};
    ghost use Rattle.flows_runner.specs.Asked.{CanBeAsked, flow_seat, rules_of};

    /// Those that are asked for.
    pub fn of(asked: &Asked) -> Classes
        requires { CanBeAsked asked.now }
        ensures { result.rules ≡ rules_of asked.now }
    {
        let rules = Rules {
            items: asked.items,
            depth: asked.depth,
            hashing: Hashing::Mix(asked.seed),
        };
        Classes { rules }
    }

    /// The caller that makes the calls of the key's class. Of one caller nothing is hashed, since it makes them all.
    pub fn caller_of(&self, seats: usize, key: &Key) -> usize
        requires some { 1 ≤ seats }
        ensures seat { result ≡ flow_seat self.now.rules seats key.now }
        ensures inside { result < seats }
    {
        if seats == 1 {
            return 0;
        }
        (self.rules.class_of(key) % seats as u64) as usize
    }
}
