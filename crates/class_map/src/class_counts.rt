//! How many keys each class has, so that an insert need not count them.

ghost use Rattle.std.specs.Prelude.{◌≡◌, ◌+◌, ◌-◌, ◌^◌, ◌<◌, IfOk, slice_index, slice_set};

use plain_map::{Pair, Rules};
use std::alloc::{AllocError, Global};

/// The counts of all classes, by one set of rules.
#[derive(Drop)]
pub(crate) struct ClassCounts {
    pub(crate) rules: Rules,
    // By class, so that there are 2^depth.
    counts: Vec<u64>,
}

impl ClassCounts {
    ghost use Rattle.plain_map.specs.PlainObject.{InRange};
    ghost use Rattle.class_map.specs.ClassCounts.{HasEachClass, AreCountsOf};

    // Counts the keys of these pairs.
    pub(crate) fn of(
        alloc: Global,
        rules: &Rules,
        pairs: &[Pair],
    ) -> Result<ClassCounts, AllocError>
        requires { InRange rules.now }
        ensures counts { IfOk result (AreCountsOf pairs.now) }
        ensures rules { IfOk result (λ counts. counts.rules ≡ rules.now) }
    {
        let mut counts = ClassCounts {
            rules: *rules,
            counts: vec![in alloc; 0u64; 1usize << rules.depth]?,
        };
        for pair in pairs {
            counts.gain(rules.class_of(&pair.key));
        }
        Ok(counts)
    }

    // How many keys the class has.
    pub(crate) fn at(&self, class: u64) -> u64
        requires each { HasEachClass self.now.rules self.now.counts.items }
        requires class { class < 2 ^ self.now.rules.depth }
        ensures { result ≡ slice_index self.now.counts.items class }
    {
        self.counts[class as usize]
    }

    // The class has one key more.
    pub(crate) fn gain(&mut self, class: u64)
        requires each { HasEachClass self.old.rules self.old.counts.items }
        requires class { class < 2 ^ self.old.rules.depth }
        requires fits { slice_index self.old.counts.items class + 1 < 2 ^ 64 }
        ensures rules { self.new.rules ≡ self.old.rules }
        ensures counts { self.new.counts.items ≡ slice_set self.old.counts.items class
            (slice_index self.old.counts.items class + 1) }
    {
        self.counts[class as usize] += 1;
    }

    // The class has one key less.
    pub(crate) fn lose(&mut self, class: u64)
        requires each { HasEachClass self.old.rules self.old.counts.items }
        requires class { class < 2 ^ self.old.rules.depth }
        requires some { 0 < slice_index self.old.counts.items class }
        ensures rules { self.new.rules ≡ self.old.rules }
        ensures counts { self.new.counts.items ≡ slice_set self.old.counts.items class
            (slice_index self.old.counts.items class - 1) }
    {
        self.counts[class as usize] -= 1;
    }
}
