//! The directory change: the new leaves, and the directory that names them.
//!
//! All room is made once, and a change takes no memory.

ghost use Rattle.std.specs.Prelude.{◌≡◌, ◌^◌, ◌<◌, ◌≤◌, [], All, IfOk, length, map};
ghost use Rattle.std.specs.Bool.{OnFalse, OnTrue};
ghost use Rattle.plain_map.specs.PlainObject.{InRange};
ghost use Rattle.table_model.specs.DirectoryChange.{change_leaves, with_leaves};
ghost use Rattle.dir_states.specs.Fit.{AreFit, MakesLeaves};
ghost use Rattle.dir_states.specs.Changes.{ChangeHasRoom, directory_of, items_of, leaves_of, seats_of};
ghost use Rattle.dir_states.specs.Rooms.{AreKept, HasItems, HasRooms, IsTable, most_leaves};
ghost use Rattle.dir_states.specs.Views.{as_directory, as_leaf, as_loaded};

use crate::leaves::{Leaves, Table};
use crate::numbers::with_leaves;
use crate::steps::after_seat;
use crate::{DirState, Loaded, NewLeaf};
use bucket_states::{Bucket, Op};
use plain_map::Rules;
use std::alloc::{AllocError, Global};
use step_counts::Settings;

/// A new directory and its new leaves, with room that is made once.
#[derive(Drop)]
pub struct Change {
    state: DirState,
    leaves: Leaves,
    seats: u32,
    items: usize,
    depth: u32,
}

impl Change {
    /// No change yet, with room for every change of these settings.
    ///
    /// The only error is want of memory.
    pub fn with_room(alloc: Global, settings: &Settings) -> Result<Change, AllocError>
        ensures { IfOk result (ChangeHasRoom settings.now.seats settings.now.items settings.now.depth) }
    {
        Change::with_items(alloc, settings, settings.items as usize)
    }

    /// No change yet, with room for the changes of these settings over buckets of so many items.
    ///
    /// The only error is want of memory.
    pub fn with_items(
        alloc: Global,
        settings: &Settings,
        items: usize,
    ) -> Result<Change, AllocError>
        ensures { IfOk result (ChangeHasRoom settings.now.seats items settings.now.depth) }
    {
        let most = most_leaves(settings.seats, settings.depth);
        let mut spare = Vec::with_capacity(alloc, most)?;
        for _ in 0..most {
            spare.push_reserved(NewLeaf {
                from: None,
                bucket: Bucket {
                    prefix: 0,
                    depth: 0,
                    frozen: false,
                    items: Vec::with_capacity(alloc, items)?,
                    applied: Vec::with_capacity(alloc, settings.seats as usize)?,
                    replies: Vec::with_capacity(alloc, settings.seats as usize)?,
                },
            });
        }
        Ok(Change {
            state: DirState::with_room(alloc, settings)?,
            leaves: Leaves {
                made: Vec::with_capacity(alloc, most)?,
                spare,
            },
            seats: settings.seats,
            items,
            depth: settings.depth,
        })
    }

    /// The directory after the change.
    pub fn state(&self) -> &DirState
        ensures { as_directory result.now ≡ directory_of self.now }
    {
        &self.state
    }

    /// The new leaves, in the order of their prefixes as bit strings.
    pub fn leaves(&self) -> &[NewLeaf]
        ensures { map as_leaf result.now ≡ leaves_of self.now }
    {
        &self.leaves.made
    }

    /// Becomes the change of a directory by the announced ops, where the bucket of each op was loaded: the new leaves,
    /// and the directory that numbers them from `fresh` on.
    ///
    /// `false` comes only where what was loaded cannot be that of a table: a leaf is too deep, has a prefix that does
    /// not go with its depth, or not a number and a reply for each seat. It takes no memory.
    pub fn change(
        &mut self,
        rules: &Rules,
        directory: &DirState,
        loaded: &[Loaded],
        ops: &[Option<Op>],
        fresh: u64,
    ) -> bool
        requires room { ChangeHasRoom (seats_of self.old) (items_of self.old) rules.now.depth self.old }
        requires range { InRange rules.now }
        requires depth { directory.now.depth ≤ rules.now.depth }
        requires seats { length ops.now ≤ seats_of self.old }
        requires items { rules.now.items ≤ items_of self.old }
        requires loaded { All (HasItems (items_of self.old)) loaded.now }
        requires fresh { fresh < 2 ^ 63 }
        ensures leaves { OnTrue result (leaves_of self.new ≡ change_leaves rules.now (as_directory directory.now)
            (map as_loaded loaded.now) ops.now) }
        ensures state { OnTrue result (directory_of self.new
            ≡ with_leaves fresh (leaves_of self.new) (as_directory directory.now)) }
        ensures not_fit { OnFalse result (¬ AreFit rules.now.depth (seats_of self.old)
            (change_leaves rules.now (as_directory directory.now) (map as_loaded loaded.now) ops.now)) }
        ensures room { ChangeHasRoom (seats_of self.old) (items_of self.old) rules.now.depth self.new }
    {
        let table = Table {
            rules: *rules,
            seats: self.seats,
            items: self.items,
            most: most_leaves(self.seats, self.depth),
        };
        clear(&table, &mut self.leaves);
        if !walk(&table, directory, loaded, ops, &mut self.leaves) {
            return false;
        }
        with_leaves(&mut self.state, fresh, &self.leaves.made, directory);
        true
    }
}

// How many leaves there is room for: each op gives the two parts of its bucket, and a leaf for each split; and one more
// is there while a leaf is split.
fn most_leaves(seats: u32, depth: u32) -> usize
    requires { depth ≤ 64 }
    ensures { result ≡ most_leaves seats depth }
{
    seats as usize * (depth as usize + 2) + 1
}

// All leaves are spare again.
fn clear(table: &Table, leaves: &mut Leaves)
    requires room { HasRooms table.now leaves.old }
    ensures none { leaves.new.made.items ≡ [] }
    ensures kept { AreKept table.now leaves.new }
{
    while let Some(leaf) = leaves.made.pop() {
        leaves.spare.push_reserved(leaf);
    }
}

// The leaves after the ops of all seats, one after the other. It fails only where they are not fit.
#[tactic(auto, unfolding(table_model::specs::DirectoryChange::change_leaves))]
fn walk(
    table: &Table,
    directory: &DirState,
    loaded: &[Loaded],
    ops: &[Option<Op>],
    leaves: &mut Leaves,
) -> bool
    requires table { IsTable table.now }
    requires seats { length ops.now ≤ table.now.seats }
    requires most { table.now.most ≡ most_leaves table.now.seats table.now.rules.depth }
    requires depth { directory.now.depth ≤ 64 }
    requires kept { AreKept table.now leaves.old }
    requires none { leaves.old.made.items ≡ [] }
    requires items { All (HasItems table.now.items) loaded.now }
    ensures made { MakesLeaves table.now.rules.depth table.now.seats
        (change_leaves table.now.rules (as_directory directory.now) (map as_loaded loaded.now) ops.now)
        leaves.new.made.items result }
    ensures kept { AreKept table.now leaves.new }
{
    for (seat, op) in ops.iter().enumerate() {
        if !after_seat(table, directory, loaded, seat, op, leaves) {
            return false;
        }
    }
    true
}
