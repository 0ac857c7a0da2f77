//! A seat beside its directory.

ghost use Rattle.std.specs.Prelude.{◌≡◌, ◌+◌, ◌≤◌, length};
ghost use Rattle.std.specs.Arc.{arc_value};
ghost use Rattle.plain_map.specs.declared.calls.Call.TheVariants.{Count, Insert, Lookup, Put, Remove, Tally};
ghost use Rattle.shared_table.specs.SeatValues.{account_of};
ghost use Rattle.shared_table.specs.Values.{IsOf, IsSame};
ghost use Rattle.flowdir_c.specs.Told.{HasTold, calls_after};

use crate::answer::{Told, told_by};
use plain_map::{Key, VALUE_LIMIT};
use shared_table::{Directory, Seat};
use std::alloc::Global;
use std::sync::Arc;

/// A seat beside its directory, and how many calls it has answered.
#[derive(Drop)]
pub struct Holder {
    pub(crate) directory: Arc<Directory, Global>,
    pub(crate) seat: Seat,
    pub(crate) calls: u32,
    ghost of: { IsOf (arc_value directory) seat },
    ghost counted: { length (account_of seat).records ≡ calls },
}

impl Holder {
    /// Inserts a key with a value, where it is not there.
    pub(crate) fn insert(&mut self, key: Key, value: u64) -> Told
        ensures told { HasTold (Insert key value) self.old.calls self.old.seat self.new.seat result }
        ensures calls { self.new.calls ≡ calls_after result self.old.calls }
        ensures same { IsSame self.old.seat self.new.seat }
        ensures directory { arc_value self.new.directory ≡ arc_value self.old.directory }
    {
        if value >= VALUE_LIMIT || self.calls >= u32::MAX - 1 {
            return Told::Bad;
        }
        let made = self.seat.insert(&self.directory, 0, key, value);
        match made {
            Ok(made) => {
                self.calls += 1;
                told_by(&made)
            }
            Err(_) => Told::Full,
        }
    }

    /// Takes a key out, where it is there.
    pub(crate) fn remove(&mut self, key: Key) -> Told
        ensures told { HasTold (Remove key) self.old.calls self.old.seat self.new.seat result }
        ensures calls { self.new.calls ≡ calls_after result self.old.calls }
        ensures same { IsSame self.old.seat self.new.seat }
        ensures directory { arc_value self.new.directory ≡ arc_value self.old.directory }
    {
        if self.calls >= u32::MAX - 1 {
            return Told::Bad;
        }
        let made = self.seat.remove(&self.directory, 0, key);
        match made {
            Ok(made) => {
                self.calls += 1;
                told_by(&made)
            }
            Err(_) => Told::Full,
        }
    }

    /// Adds bytes to a key's, where it is there.
    pub(crate) fn tally(&mut self, key: Key, bytes: u64) -> Told
        ensures told { HasTold (Tally key bytes) self.old.calls self.old.seat self.new.seat result }
        ensures calls { self.new.calls ≡ calls_after result self.old.calls }
        ensures same { IsSame self.old.seat self.new.seat }
        ensures directory { arc_value self.new.directory ≡ arc_value self.old.directory }
    {
        if bytes >= VALUE_LIMIT || self.calls >= u32::MAX - 1 {
            return Told::Bad;
        }
        let made = self.seat.tally(&self.directory, 0, key, bytes);
        match made {
            Ok(made) => {
                self.calls += 1;
                told_by(&made)
            }
            Err(_) => Told::Full,
        }
    }

    /// Adds bytes to a key's, and inserts the key with this value and these bytes where it is not there.
    pub(crate) fn count(&mut self, key: Key, value: u64, bytes: u64) -> Told
        ensures told { HasTold (Count key value bytes) self.old.calls self.old.seat self.new.seat result }
        ensures calls { self.new.calls ≡ calls_after result self.old.calls }
        ensures same { IsSame self.old.seat self.new.seat }
        ensures directory { arc_value self.new.directory ≡ arc_value self.old.directory }
    {
        if value >= VALUE_LIMIT || bytes >= VALUE_LIMIT || self.calls >= u32::MAX - 1 {
            return Told::Bad;
        }
        let made = self.seat.count(&self.directory, 0, key, value, bytes);
        match made {
            Ok(made) => {
                self.calls += 1;
                told_by(&made)
            }
            Err(_) => Told::Full,
        }
    }

    /// Gives a key this value, whether it is there or not.
    pub(crate) fn put(&mut self, key: Key, value: u64) -> Told
        ensures told { HasTold (Put key value) self.old.calls self.old.seat self.new.seat result }
        ensures calls { self.new.calls ≡ calls_after result self.old.calls }
        ensures same { IsSame self.old.seat self.new.seat }
        ensures directory { arc_value self.new.directory ≡ arc_value self.old.directory }
    {
        if value >= VALUE_LIMIT || self.calls >= u32::MAX - 1 {
            return Told::Bad;
        }
        let made = self.seat.put(&self.directory, 0, key, value);
        match made {
            Ok(made) => {
                self.calls += 1;
                told_by(&made)
            }
            Err(_) => Told::Full,
        }
    }

    /// Looks a key up.
    #[inline(always)]
    pub(crate) fn lookup(&mut self, key: &Key) -> Told
        ensures told { HasTold (Lookup key.now) self.old.calls self.old.seat self.new.seat result }
        ensures calls { self.new.calls ≡ calls_after result self.old.calls }
        ensures same { IsSame self.old.seat self.new.seat }
        ensures directory { arc_value self.new.directory ≡ arc_value self.old.directory }
    {
        if self.calls >= u32::MAX - 1 {
            return Told::Bad;
        }
        let found = self.seat.lookup(&self.directory, 0, key);
        self.calls += 1;
        told_by(&found)
    }
}
