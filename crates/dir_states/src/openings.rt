//! The room of an opening, and what it shows.

ghost use Rattle.std.specs.Prelude.{◌≡◌, IfOk, map};
ghost use Rattle.dir_states.specs.Openings.{OpeningHasRoom, first_directory, first_leaves};
ghost use Rattle.dir_states.specs.Views.{as_directory, as_leaf};

use crate::leaves::Leaves;
use crate::{DirState, NewLeaf};
use bucket_states::Bucket;
use std::alloc::{AllocError, Global};
use step_counts::Settings;

/// A pair of those that a table is opened with finds as many earlier ones of its class as a bucket has room for.
#[derive(Clone, Copy, PartialEq, Eq)]
pub struct NoRoomAt {
    /// The place of the first such pair.
    pub place: usize,
}

/// The directory and the leaves of an opening, with room that is made once.
#[derive(Drop)]
pub struct Opening {
    pub(crate) state: DirState,
    pub(crate) base: DirState,
    pub(crate) leaves: Leaves,
    pub(crate) counts: Vec<u32>,
    pub(crate) seats: u32,
}

impl Opening {
    /// No opening yet, with room for every opening of these settings.
    ///
    /// The only error is want of memory.
    pub fn with_room(alloc: Global, settings: &Settings) -> Result<Opening, AllocError>
        ensures { IfOk result (OpeningHasRoom settings.now.seats settings.now.items settings.now.depth) }
    {
        let most = 1usize << settings.depth;
        let mut spare = Vec::with_capacity(alloc, most)?;
        for _ in 0..most {
            spare.push_reserved(NewLeaf {
                from: None,
                bucket: Bucket::with_room(alloc, settings)?,
            });
        }
        Ok(Opening {
            state: DirState::with_room(alloc, settings)?,
            base: DirState::with_room(alloc, settings)?,
            leaves: Leaves {
                made: Vec::with_capacity(alloc, most)?,
                spare,
            },
            counts: Vec::with_capacity(alloc, most)?,
            seats: settings.seats,
        })
    }

    /// The directory, in which the leaves are numbered from 0 on.
    pub fn state(&self) -> &DirState
        ensures { as_directory result.now ≡ first_directory self.now }
    {
        &self.state
    }

    /// The leaves, in the order of their prefixes as bit strings.
    pub fn leaves(&self) -> &[NewLeaf]
        ensures { map as_leaf result.now ≡ first_leaves self.now }
    {
        &self.leaves.made
    }
}
