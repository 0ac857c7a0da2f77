//! The most that the settings of any table allow: the rooms of fixed size, and what a call's parts are bounded by.

use plain_map::MOST_SEATS;
use step_counts::{BUCKET_HEAD_WORDS, ITEM_WORDS, MOST_DEPTH, MOST_ITEMS, OP_WORDS, SEAT_WORDS};

/// The most words of a bucket row.
pub const MOST_WORDS: usize = BUCKET_HEAD_WORDS
    + ITEM_WORDS * MOST_ITEMS as usize
    + SEAT_WORDS * MOST_SEATS;

/// The most leaves that a directory change has room for: of each seat a bucket's two parts and a leaf for each split,
/// and one.
pub(crate) const MOST_LEAVES: usize = MOST_SEATS * (MOST_DEPTH as usize + 2) + 1;

/// The most steps of finding all announced ops.
pub(crate) const FINDING_STEPS: u64 = (1 + OP_WORDS as u64) * MOST_SEATS as u64;

/// The most steps of a look at a bucket: its word and its row.
pub(crate) const LOOK_STEPS: u64 = 1 + MOST_WORDS as u64;

/// The most steps of a bucket try after its look.
pub(crate) const CHANGE_STEPS: u64 = FINDING_STEPS + MOST_WORDS as u64 + 1;

/// The most steps of a bucket try.
pub(crate) const TRY_STEPS: u64 = LOOK_STEPS + CHANGE_STEPS;

/// The most steps of the bucket tries of a round.
pub(crate) const TRIES_STEPS: u64 = 3 * TRY_STEPS;

/// The most steps of loading the buckets of all ops.
pub(crate) const LOADING_STEPS: u64 = LOOK_STEPS * MOST_SEATS as u64;

/// The most steps of storing all leaves of a change.
pub(crate) const LEAF_STEPS: u64 = LOOK_STEPS * MOST_LEAVES as u64;
