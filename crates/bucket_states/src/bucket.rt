//! One bucket as a value, with room that is made once.

ghost use Rattle.std.specs.Prelude.{◌≡◌, ◌≤◌, IfOk, length, vec_capacity};
ghost use Rattle.plain_map.specs.Rows.{bucket_content};
ghost use Rattle.bucket_states.specs.Items.{number_at, reply_in};
ghost use Rattle.bucket_states.specs.States.{
  state_of,
  empty_state,
  state_in_row,
  row_of_state,
  HasRoom,
  CanHold,
  RowCanHold,
  KeepsRoom,
  RowKeepsRoom,
};

use crate::items::{place_of, reply};
use plain_map::{BucketRow, Call, Key, Pair, Reply, Rules};
use std::alloc::{AllocError, Global};
use step_counts::Settings;

/// One version of a bucket.
#[derive(Drop)]
pub struct Bucket {
    /// The first `depth` bits of the hashes of its keys, as a number below 2^depth.
    pub prefix: u64,
    /// In bits, at most the greatest depth.
    pub depth: u32,
    /// It changes no more.
    pub frozen: bool,
    /// In the order in which they came.
    pub items: Vec<Pair>,
    /// For each seat the number of its last update that is in here, 0 for none.
    pub applied: Vec<u64>,
    /// For each seat the answer to that update.
    pub replies: Vec<Option<Reply>>,
}

impl Bucket {
    /// The bucket of depth 0 that has no item and no update, with room for every bucket of these settings.
    ///
    /// The only error is want of memory.
    pub fn with_room(alloc: Global, settings: &Settings) -> Result<Bucket, AllocError>
        ensures empty { IfOk result (λ bucket. state_of bucket ≡ empty_state settings.now.seats) }
        ensures room { IfOk result (HasRoom settings.now.seats settings.now.items) }
    {
        let seats = settings.seats as usize;
        let items = Vec::with_capacity(alloc, settings.items as usize)?;
        let applied = vec![in alloc; 0; seats]?;
        let replies = vec![in alloc; None; seats]?;
        Ok(Bucket {
            prefix: 0,
            depth: 0,
            frozen: false,
            items,
            applied,
            replies,
        })
    }

    /// Becomes what another bucket is. It takes no memory.
    pub fn copy_from(&mut self, other: &Bucket)
        requires { CanHold (state_of other.now) self.old }
        ensures state { state_of self.new ≡ state_of other.now }
        ensures room { KeepsRoom self.old self.new }
    {
        self.prefix = other.prefix;
        self.depth = other.depth;
        self.frozen = other.frozen;
        refill(&mut self.items, &other.items);
        refill(&mut self.applied, &other.applied);
        refill(&mut self.replies, &other.replies);
    }

    /// Becomes what a row says. It takes no memory.
    pub fn from_row(&mut self, row: &BucketRow)
        requires { CanHold (state_in_row (bucket_content row.now)) self.old }
        ensures state { state_of self.new ≡ state_in_row (bucket_content row.now) }
        ensures room { KeepsRoom self.old self.new }
    {
        self.prefix = row.prefix;
        self.depth = row.depth;
        self.frozen = row.frozen;
        refill(&mut self.items, &row.items);
        refill(&mut self.applied, &row.applied);
        refill(&mut self.replies, &row.replies);
    }

    /// Writes a row of this bucket that is made from the bucket row with the number `base`. It takes no memory.
    pub fn to_row(&self, base: Option<u64>, row: &mut BucketRow)
        requires { RowCanHold (state_of self.now) row.old }
        ensures content { bucket_content row.new ≡ row_of_state base (state_of self.now) }
        ensures room { RowKeepsRoom row.old row.new }
    {
        row.prefix = self.prefix;
        row.depth = self.depth;
        row.base = base;
        row.frozen = self.frozen;
        refill(&mut row.items, &self.items);
        refill(&mut row.applied, &self.applied);
        refill(&mut row.replies, &self.replies);
    }

    /// The session number that the bucket holds at a key.
    pub fn find(&self, key: &Key) -> Option<u64>
        ensures { result ≡ number_at key.now self.now.items.items }
    {
        match place_of(&self.items, key) {
            Some(at) => Some(self.items[at].value),
            None => None,
        }
    }

    /// The answer to a call by the pairs that the bucket holds. They stay as they are.
    pub fn reply(&self, rules: &Rules, call: &Call) -> Reply
        ensures { result ≡ reply_in rules.now self.now.items.items call.now }
    {
        reply(&self.items, rules, call)
    }
}

// Copies the items into a vector that has room for them.
pub(crate) fn refill<T: Copy>(into: &mut Vec<T>, items: &[T])
    requires { length items.now ≤ vec_capacity into.old }
    ensures items { into.new.items ≡ items.now }
    ensures room { vec_capacity into.new ≡ vec_capacity into.old }
{
    into.clear();
    for item in items {
        into.push_reserved(*item);
    }
}
