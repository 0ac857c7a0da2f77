//! A closed directory whose words are read where they stand, for callers that need no copy of them.

ghost use Rattle.std.specs.Prelude.{◌≡◌, IfOk, IsPermutation, map};
ghost use Rattle.std.specs.List.Sorted.{IsSortedByKey};
ghost use Rattle.plain_map.specs.Keys.{key_cmp};
ghost use Rattle.word_rows.specs.LayoutView.{shape_of};
ghost use Rattle.table_model.specs.Closed.{closed_depth, closed_leaves, closed_pairs};
ghost use Rattle.closed_words.specs.Views.{as_leaf};

use crate::closed::{depth_in, leaves_in, pairs_in};
use crate::rooms::Rooms;
use atomic_table::Closed;
use closed_words::{ClosedLeaf, Words};
use plain_map::Pair;
use std::alloc::{AllocError, Global};
use std::marker::Model;
use word_rows::Layout;

/// A closed directory. Its memory is given back when it is dropped.
pub struct ClosedTable {
    pub(crate) layout: Layout,
    pub(crate) table: Closed<(), Global>,
    // How many words it has.
    pub(crate) count: usize,
    // Of the seats that it had.
    pub(crate) rooms: Rooms,
}

impl Model for ClosedTable {
    ghost use Rattle.shared_table.specs.Values.{ClosedValue};

    ghost Value = { ClosedValue };

    ghost use Rattle.shared_table.specs.Insides.{closed_value, ClosedStands};

    ghost view = { closed_value };

    ghost invariant = { ClosedStands };
}

impl Drop for ClosedTable {
    fn drop(self) {
        let ClosedTable {
            layout: _,
            table,
            count: _,
            rooms: _,
        } = self;
        table.free();
    }
}

impl Words for ClosedTable {
    ghost words = { λ closed. closed.words };

    fn count(&self) -> usize {
        self.count
    }

    fn word(&self, at: usize) -> u64 {
        self.table.word(at)
    }
}

impl ClosedTable {
    // The rooms of the seats that it had. The memory of its words is given back.
    pub(crate) fn into_rooms(self) -> Rooms {
        let ClosedTable {
            layout: _,
            table,
            count: _,
            rooms,
        } = self;
        table.free();
        rooms
    }

    /// Where each word lies.
    pub fn layout(&self) -> &Layout
        ensures { shape_of result.now ≡ self.now.shape }
    {
        &self.layout
    }

    /// The depth of the directory.
    pub fn depth(&self) -> u64
        ensures { result ≡ closed_depth self.now.shape self.now.words }
    {
        depth_in(&self.layout, self)
    }

    /// The leaves, in the order of their prefixes as bit strings. The only error is want of memory.
    pub fn leaves(&self, alloc: Global) -> Result<Vec<ClosedLeaf>, AllocError>
        ensures { IfOk result (λ leaves. map as_leaf leaves.items ≡ closed_leaves self.now.shape self.now.words) }
    {
        leaves_in(alloc, &self.layout, self)
    }

    /// The pairs that are held, in the order of their keys. The only error is want of memory.
    ///
    /// After a run they are the pairs of the sessions that its order leaves: `order_laws::reopen_laws`.
    pub fn pairs(&self, alloc: Global) -> Result<Vec<Pair>, AllocError>
        ensures held { IfOk result (λ pairs.
            IsPermutation (closed_pairs self.now.shape self.now.words) pairs.items) }
        ensures sorted { IfOk result (λ pairs. IsSortedByKey (λ pair. pair.key) key_cmp pairs.items) }
    {
        pairs_in(alloc, &self.layout, self)
    }
}
