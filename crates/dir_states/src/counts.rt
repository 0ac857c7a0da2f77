//! The pairs of an opening, counted class by class.

ghost use Rattle.std.specs.Prelude.{◌≡◌, ◌-◌, ◌^◌, ◌<◌, ◌≤◌, nat_lt, [], MatchOption, length, vec_capacity};
ghost use Rattle.plain_map.specs.PlainObject.{InRange};
ghost use Rattle.table_model.specs.Setup.{HaveRoom, IsFirstWithoutRoom};
ghost use Rattle.dir_states.specs.Openings.{AreCounted, span};

use crate::leaves::Table;
use plain_map::{Pair, Rules};

/// No pair is counted yet.
pub(crate) fn zeros(table: &Table, counts: &mut Vec<u32>)
    requires range { InRange table.now.rules }
    requires room { 2 ^ table.now.rules.depth ≤ vec_capacity counts.old }
    ensures none { AreCounted table.now.rules [] counts.new.items }
    ensures room { vec_capacity counts.new ≡ vec_capacity counts.old }
{
    counts.clear();
    for _ in 0..1u64 << table.rules.depth {
        counts.push_reserved(0);
    }
}

/// Counts the pairs of each class. It stops at the first pair whose class has as many as a bucket has room for.
pub(crate) fn count(rules: &Rules, first: &[Pair], counts: &mut [u32]) -> Option<usize>
    requires range { InRange rules.now }
    requires none { AreCounted rules.now [] counts.old }
    ensures room { MatchOption result (HaveRoom rules.now first.now) (IsFirstWithoutRoom rules.now first.now) }
    ensures counts { MatchOption result (AreCounted rules.now first.now counts.new) (λ _. Unit {0}) }
    ensures len { length counts.new ≡ length counts.old }
{
    for (place, pair) in first.iter().enumerate() {
        let class = rules.class_of(&pair.key) as usize;
        if counts[class] >= rules.items {
            return Some(place);
        }
        counts[class] += 1;
    }
    None
}

/// Whether the classes from `low` up to `high` have more pairs than so many.
pub(crate) fn is_crowded(counts: &[u32], most: u32, low: usize, high: usize) -> bool
    requires low { low ≤ high }
    requires high { high ≤ length counts.now }
    ensures { result ≡ nat_lt most (span counts.now low (high - low)) }
{
    let mut room = most;
    for class in low..high {
        if counts[class] > room {
            return true;
        }
        room -= counts[class];
    }
    false
}
