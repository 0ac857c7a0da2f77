//! What a batch asks of its table.

ghost use Rattle.std.specs.List.Sorted.{IsStrictlySortedBy-prop};
ghost use Rattle.plain_map.specs.Keys.{key_cmp};
ghost use Rattle.batch_rows.specs.Counts.{AreInOrder};

use plain_map::Key;

/// What a batch asks of its table.
#[derive(Drop)]
pub struct Demand {
    /// The keys of its inserts, in order and each once.
    pub inserted: Vec<Key>,
    /// How many updates each seat makes, seat 0 first.
    pub updates: Vec<u32>,
    pub ghost in_order: { AreInOrder inserted.items } by { IsStrictlySortedBy-prop key_cmp inserted.items },
}
