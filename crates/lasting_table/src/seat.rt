//! One seat of a lasting table, which answers one call after the other.
//!
//! **Words**: those of its table. A lookup and a copy load, and store nothing but the seat's own want and hold
//! words. An update also stores the seat's op, its announcement and a free row of its own, and exchanges a bucket
//! word.
//! **Keeps**: `OneRun`, the rule that there is a run of the lasting table.
//! **Steps**: at most `look_bound` for a lookup and for a copy of a bucket, and `update_bound` for an update.
//! **Why it ends**: two tries, and then a row that nobody writes while the seat holds it.

ghost use Rattle.std.specs.Prelude.{◌≡◌, ◌<◌, ◌≤◌, ◌^◌, ◌↔◌, Err, IsTrue, Ok, length, take};
ghost use Rattle.plain_map.specs.declared.calls.Call.TheVariants.{Count, Insert, Lookup, Put, Remove, Tally};
ghost use Rattle.plain_map.specs.declared.calls.Reply.{Reply as ReplyValue};
ghost use Rattle.plain_map.specs.Updates.{IsUpdate, value_limit};
ghost use Rattle.lasting_calls.specs.declared.calls.Spent.{Spent as SpentValue};
ghost use Rattle.lasting_calls.specs.declared.calls.Spent.TheVariants.{Asked as SpentAskings, Updates};
ghost use Rattle.lasting_model.specs.Plans.{MOST_UPDATES, buckets_of};
ghost use Rattle.lasting_model.specs.Goes.{Called, Copied, Pairs, Replied};
ghost use Rattle.lasting_table.specs.Parties.{own_answers};
ghost use Rattle.lasting_table.specs.Values.{Answers, IsPartyOf, IsSame, answered_updates, asked_times};

use crate::runs::{run_copy, run_lookup, run_update};
use crate::table::LastingTable;
use crate::view::View;
use atomic_table::Badge;
use lasting_calls::{Desk, MOST_ASKED, SeatState, Spent};
use plain_map::{Call, Key, Pair, Reply};
use std::marker::{Brand, Model};
use std::mem;

/// One seat of a lasting table. It may go from thread to thread; whoever has it makes its calls.
#[derive(Drop)]
pub struct Seat {
    pub(crate) badge: Badge<View>,
    pub(crate) desk: Desk,
    // What it keeps for its updates.
    pub(crate) state: SeatState,
}

impl Model for Seat {
    ghost use Rattle.lasting_table.specs.Parties.{PartyValue};

    ghost Value = { PartyValue };

    ghost use Rattle.lasting_table.specs.Values.{SeatStands, party_value};

    ghost view = { λ s. party_value s.desk s.badge.table_id s.badge.views };

    ghost invariant = { λ s. SeatStands s.desk s.badge.views s.state };
}

impl Seat {
    /// Whether it may make another call: it has asked for a hold less than 2^62 times, and each call asks once at most.
    pub fn can_ask(&self) -> bool
        ensures asks { IsTrue result ↔ (asked_times self.now < 2 ^ 62) }
        ensures counted { asked_times self.now ≤ length (own_answers self.now.holding) }
    {
        self.state.time < MOST_ASKED
    }

    /// Looks a key up. It is never refused, and takes no memory.
    ///
    /// **Steps:** 3 and one for each item of its bucket, and six more for an item that has the key's last word, where
    /// no other thread writes there; in no case more than `look_bound`. It waits for nobody.
    #[inline(always)]
    pub fn lookup(&mut self, table: &LastingTable, key: &Key) -> Reply
        requires seat { IsPartyOf table.now self.old }
        requires late { asked_times self.old < 2 ^ 62 }
        ensures same { IsSame self.old self.new }
        ensures answered { Answers (Called (Lookup key.now)) (Replied result) self.old self.new }
        ensures updates { answered_updates self.new ≡ answered_updates self.old }
    {
        let badge = mem::replace(&mut self.badge, Badge::blank());
        let mut asked = self.state.time;
        let (token, reply) = run_lookup::<Brand>(
            &table.board.shared,
            badge.into_seat(),
            &self.desk,
            &mut asked,
            key,
        );
        self.badge = token.into_badge();
        self.state.time = asked;
        reply
    }

    /// Copies all pairs of a bucket, which are those of one class of keys at one moment of the call, and tells how many
    /// there are. It takes no memory.
    ///
    /// **Steps:** 3 and seven for each pair, where no other thread writes there; in no case more than `look_bound`. It
    /// waits for nobody.
    #[inline(always)]
    pub fn copy(&mut self, table: &LastingTable, bucket: u64, out: &mut [Pair]) -> usize
        requires seat { IsPartyOf table.now self.old }
        requires late { asked_times self.old < 2 ^ 62 }
        requires bucket { bucket < buckets_of table.now.plan.settings }
        requires room { table.now.plan.settings.items ≤ length out.old }
        ensures same { IsSame self.old self.new }
        ensures few { result ≤ length out.new }
        ensures answered { Answers (Copied bucket) (Pairs (take result out.new)) self.old self.new }
        ensures updates { answered_updates self.new ≡ answered_updates self.old }
    {
        let badge = mem::replace(&mut self.badge, Badge::blank());
        let mut asked = self.state.time;
        let (token, count) = run_copy::<Brand>(
            &table.board.shared,
            badge.into_seat(),
            &self.desk,
            &mut asked,
            bucket,
            out,
        );
        self.badge = token.into_badge();
        self.state.time = asked;
        count
    }

    /// Inserts a key with a value, where it is not there: `New`, `NoRoom`, or `Old` with the value that it has.
    ///
    /// **Steps:** at most `update_bound`; it waits for nobody and takes no memory.
    ///
    /// **Errors:** what is used up. Then nothing happened.
    #[inline(always)]
    pub fn insert(&mut self, table: &LastingTable, key: Key, value: u64) -> Result<Reply, Spent>
        requires seat { IsPartyOf table.now self.old }
        requires value { value < value_limit }
        ensures same { IsSame self.old self.new }
        ensures answered { (reply : ReplyValue) → result ≡ Ok reply →
            Answers (Called (Insert key value)) (Replied reply) self.old self.new }
        ensures waits { (spent : SpentValue) → result ≡ Err spent → self.new ≡ self.old }
    {
        self.update(table, &Call::Insert(key, value))
    }

    /// Takes a key out, where it is there: `Gone` with its value, or `Absent`.
    ///
    /// **Steps:** at most `update_bound`; it waits for nobody and takes no memory.
    ///
    /// **Errors:** what is used up. Then nothing happened.
    #[inline(always)]
    pub fn remove(&mut self, table: &LastingTable, key: Key) -> Result<Reply, Spent>
        requires seat { IsPartyOf table.now self.old }
        ensures same { IsSame self.old self.new }
        ensures answered { (reply : ReplyValue) → result ≡ Ok reply →
            Answers (Called (Remove key)) (Replied reply) self.old self.new }
        ensures waits { (spent : SpentValue) → result ≡ Err spent → self.new ≡ self.old }
    {
        self.update(table, &Call::Remove(key))
    }

    /// Adds bytes to the session of a key, where it is there: `Sum` with their total, which stops at 2^61 - 1, or
    /// `Absent`.
    ///
    /// **Steps:** at most `update_bound`; it waits for nobody and takes no memory.
    ///
    /// **Errors:** what is used up. Then nothing happened.
    #[inline(always)]
    pub fn tally(&mut self, table: &LastingTable, key: Key, bytes: u64) -> Result<Reply, Spent>
        requires seat { IsPartyOf table.now self.old }
        requires bytes { bytes < value_limit }
        ensures same { IsSame self.old self.new }
        ensures answered { (reply : ReplyValue) → result ≡ Ok reply →
            Answers (Called (Tally key bytes)) (Replied reply) self.old self.new }
        ensures waits { (spent : SpentValue) → result ≡ Err spent → self.new ≡ self.old }
    {
        self.update(table, &Call::Tally(key, bytes))
    }

    /// Adds bytes to the session of a key, and inserts the key with this value and these bytes where it is not there:
    /// `New`, `NoRoom`, or `Sum` with the total, which stops at 2^61 - 1.
    ///
    /// **Steps:** at most `update_bound`; it waits for nobody and takes no memory.
    ///
    /// **Errors:** what is used up. Then nothing happened.
    #[inline(always)]
    pub fn count(
        &mut self,
        table: &LastingTable,
        key: Key,
        value: u64,
        bytes: u64,
    ) -> Result<Reply, Spent>
        requires seat { IsPartyOf table.now self.old }
        requires value { value < value_limit }
        requires bytes { bytes < value_limit }
        ensures same { IsSame self.old self.new }
        ensures answered { (reply : ReplyValue) → result ≡ Ok reply →
            Answers (Called (Count key value bytes)) (Replied reply) self.old self.new }
        ensures waits { (spent : SpentValue) → result ≡ Err spent → self.new ≡ self.old }
    {
        self.update(table, &Call::Count(key, value, bytes))
    }

    /// Gives a key this value, whether it is there or not: `New`, `NoRoom`, or `Old` with the value that it had. Its
    /// bytes stay.
    ///
    /// **Steps:** at most `update_bound`; it waits for nobody and takes no memory.
    ///
    /// **Errors:** what is used up. Then nothing happened.
    #[inline(always)]
    pub fn put(&mut self, table: &LastingTable, key: Key, value: u64) -> Result<Reply, Spent>
        requires seat { IsPartyOf table.now self.old }
        requires value { value < value_limit }
        ensures same { IsSame self.old self.new }
        ensures answered { (reply : ReplyValue) → result ≡ Ok reply →
            Answers (Called (Put key value)) (Replied reply) self.old self.new }
        ensures waits { (spent : SpentValue) → result ≡ Err spent → self.new ≡ self.old }
    {
        self.update(table, &Call::Put(key, value))
    }

    /// Makes any update.
    ///
    /// **Steps:** at most `update_bound`; it waits for nobody and takes no memory.
    ///
    /// **Errors:** what is used up: the numbers of its updates, of which it has 2^48, or of its askings for a hold, of
    /// which it has 2^62. Then nothing happened.
    #[inline(always)]
    pub fn update(&mut self, table: &LastingTable, call: &Call) -> Result<Reply, Spent>
        requires seat { IsPartyOf table.now self.old }
        requires update { IsUpdate call.now }
        ensures same { IsSame self.old self.new }
        ensures answered { (reply : ReplyValue) → result ≡ Ok reply →
            Answers (Called call.now) (Replied reply) self.old self.new }
        ensures waits { (spent : SpentValue) → result ≡ Err spent → self.new ≡ self.old }
        ensures updates { (result ≡ Err Updates) ↔ (MOST_UPDATES ≤ answered_updates self.old) }
        ensures asked { (result ≡ Err SpentAskings)
            ↔ ((answered_updates self.old < MOST_UPDATES) × (2 ^ 62 ≤ asked_times self.old)) }
    {
        let badge = mem::replace(&mut self.badge, Badge::blank());
        let (token, made) = run_update::<Brand>(
            &table.board.shared,
            badge.into_seat(),
            &self.desk,
            &mut self.state,
            call,
        );
        self.badge = token.into_badge();
        made
    }
}
