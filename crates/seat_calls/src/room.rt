//! The room of directory tries, made once for all calls of a seat.

ghost use Rattle.std.specs.Prelude.{IfOk};
ghost use Rattle.seat_calls.specs.Rooms.{HasAllRoom};

use crate::limits::MOST_WORDS;
use bucket_states::{Bucket, Op};
use dir_states::{Change, DirState, Loaded};
use plain_map::{BucketRow, MOST_SEATS};
use std::alloc::{AllocError, Global};
use step_counts::Settings;

/// What one bucket try reads: the words of a row, and the ops that are announced.
///
/// It is made once, since a function clears its own locals at each call.
#[derive(Clone, Copy)]
pub struct Buffers {
    pub words: [u64; MOST_WORDS],
    pub ops: [Option<Op>; MOST_SEATS],
}

/// Room for the tries of a call.
#[derive(Drop)]
pub struct Room {
    /// For a bucket try.
    pub buffers: Buffers,
    /// The directory that was loaded.
    pub directory: DirState,
    /// One bucket row, as it is read or written.
    pub row: BucketRow,
    /// The buckets that were loaded, one place for each seat.
    pub loaded: Vec<Loaded>,
    /// The change.
    pub change: Change,
}

impl Room {
    /// Room for every try at a table of these settings.
    ///
    /// The only error is want of memory.
    pub fn new(alloc: Global, settings: &Settings) -> Result<Room, AllocError>
        ensures { IfOk result (HasAllRoom settings.now) }
    {
        let mut loaded = Vec::with_capacity(alloc, settings.seats as usize)?;
        for _ in 0..settings.seats {
            loaded.push_reserved(Loaded {
                bucket: 0,
                row: 0,
                state: Bucket::with_room(alloc, settings)?,
            });
        }
        Ok(Room {
            buffers: Buffers {
                words: [0; MOST_WORDS],
                ops: [None; MOST_SEATS],
            },
            directory: DirState::with_room(alloc, settings)?,
            row: BucketRow::with_room(alloc, settings)?,
            loaded,
            change: Change::with_room(alloc, settings)?,
        })
    }
}
