//! One seat of a lasting table, which answers one call after the other.
//!
//! **Words**: those of its table. A lookup and a copy load, and store nothing but the seat's own want and hold
//! words. An update also stores the seat's op, its announcement and a free row of its own, and exchanges a bucket
//! word.
//! **Keeps**: `OneRun`, the rule that there is a run of the table.
//! **Steps**: at most `look_bound` for a lookup and for a copy of a bucket, and `update_bound` for an update.
//! **Why it ends**: two tries, and then a row that nobody writes while the seat holds it.

ghost use Rattle.std.specs.Prelude.{◌≡◌, ◌+◌, ◌<◌, ◌≤◌, ◌^◌, ◌↔◌, Err, IsTrue, Ok, length, take};
ghost use Rattle.plain_map.specs.declared.calls.Call.TheVariants.{Count, Insert, Lookup, Put, Remove, Tally};
ghost use Rattle.plain_map.specs.declared.calls.Reply.{Reply as ReplyValue};
ghost use Rattle.plain_map.specs.Updates.{IsUpdate, value_limit};
ghost use Rattle.exchange_model.specs.Plans.{buckets_of};
ghost use Rattle.exchange_model.specs.Goes.{Called, Copied, Pairs, Refused, Replied, Spent as ToldSpent};
ghost use Rattle.exchange_calls.specs.Seats.{told_by_update};
ghost use Rattle.exchange_table.specs.declared.seat.Unmade.{Unmade as UnmadeValue};
ghost use Rattle.exchange_table.specs.declared.seat.Unmade.TheVariants.{Announced, Asked, Spent};
ghost use Rattle.exchange_table.specs.Parties.{own_answers};
ghost use Rattle.exchange_table.specs.Values.{Answers, IsPartyOf, IsSame, announced_times, answered_updates, asked_times};

use crate::limits::{MOST_ANNOUNCED, MOST_ASKED};
use crate::runs::{run_copy, run_lookup, run_update};
use crate::table::LastingTable;
use crate::view::View;
use atomic_table::Badge;
use exchange_calls::{Desk, SeatState, Updated};
use plain_map::{Call, Key, Pair, Reply};
use std::marker::{Brand, Model};
use std::mem;

/// Why an update was not made.
#[derive(Clone, Copy, Debug, PartialEq, Eq)]
pub enum Unmade {
    /// Its bucket has the last generation. The call was answered so.
    Spent,
    /// The seat has asked for a hold as often as it may.
    Asked,
    /// It has announced as often as it may.
    Announced,
}

/// One seat of a lasting table. It may go from thread to thread; whoever has it makes its calls.
#[derive(Drop)]
pub struct Seat {
    pub(crate) badge: Badge<View>,
    pub(crate) desk: Desk,
    // What it keeps for its updates.
    pub(crate) state: SeatState,
}

impl Model for Seat {
    ghost use Rattle.exchange_table.specs.Parties.{PartyValue};

    ghost Value = { PartyValue };

    ghost use Rattle.exchange_table.specs.Values.{SeatStands, party_value};

    ghost view = { λ s. party_value s.desk s.badge.table_id s.badge.views };

    ghost invariant = { λ s. SeatStands s.desk s.badge.views s.state };
}

impl Seat {
    /// Whether it may make another call: it has asked for a hold less than 2^62 times, and each call asks once at most.
    pub fn can_ask(&self) -> bool
        ensures asks { IsTrue result ↔ (asked_times self.now < 2 ^ 62) }
        ensures counted { asked_times self.now ≤ length (own_answers self.now.holding) }
    {
        self.state.time < MOST_ASKED
    }

    /// Looks a key up. It is never refused, and takes no memory.
    ///
    /// **Steps:** 3 and one for each item of its bucket, and six more for an item that has the key's last word, where
    /// no other thread writes there; in no case more than `look_bound`. It waits for nobody.
    #[inline(always)]
    pub fn lookup(&mut self, table: &LastingTable, key: &Key) -> Reply
        requires seat { IsPartyOf table.now self.old }
        requires late { asked_times self.old < 2 ^ 62 }
        ensures same { IsSame self.old self.new }
        ensures answered { Answers (Called (Lookup key.now)) (Replied result) self.old self.new }
        ensures updates { answered_updates self.new ≡ answered_updates self.old }
    {
        let badge = mem::replace(&mut self.badge, Badge::blank());
        let mut asked = self.state.time;
        let (token, reply) = run_lookup::<Brand>(
            &table.board.shared,
            badge.into_seat(),
            &self.desk,
            &mut asked,
            key,
        );
        self.badge = token.into_badge();
        self.state.time = asked;
        reply
    }

    /// Copies all pairs of a bucket, which are those of one class of keys at one moment of the call, and tells how many
    /// there are. It takes no memory.
    ///
    /// **Steps:** 3 and seven for each pair, where no other thread writes there; in no case more than `look_bound`. It
    /// waits for nobody.
    #[inline(always)]
    pub fn copy(&mut self, table: &LastingTable, bucket: u64, out: &mut [Pair]) -> usize
        requires seat { IsPartyOf table.now self.old }
        requires late { asked_times self.old < 2 ^ 62 }
        requires bucket { bucket < buckets_of table.now.plan.settings }
        requires room { table.now.plan.settings.items ≤ length out.old }
        ensures same { IsSame self.old self.new }
        ensures few { result ≤ length out.new }
        ensures answered { Answers (Copied bucket) (Pairs (take result out.new)) self.old self.new }
        ensures updates { answered_updates self.new ≡ answered_updates self.old }
    {
        let badge = mem::replace(&mut self.badge, Badge::blank());
        let mut asked = self.state.time;
        let (token, count) = run_copy::<Brand>(
            &table.board.shared,
            badge.into_seat(),
            &self.desk,
            &mut asked,
            bucket,
            out,
        );
        self.badge = token.into_badge();
        self.state.time = asked;
        count
    }

    /// Inserts a key with a value, where it is not there: `New`, `NoRoom`, or `Old` with the value that it has.
    ///
    /// **Steps:** at most `update_bound`; it waits for nobody and takes no memory.
    ///
    /// **Errors:** those of `update`.
    #[inline(always)]
    pub fn insert(&mut self, table: &LastingTable, key: Key, value: u64) -> Result<Reply, Unmade>
        requires seat { IsPartyOf table.now self.old }
        requires value { value < value_limit }
        ensures same { IsSame self.old self.new }
        ensures answered { (reply : ReplyValue) → result ≡ Ok reply →
            Answers (Called (Insert key value)) (Replied reply) self.old self.new }
        ensures waits { (why : UnmadeValue) → result ≡ Err why → (why ≡ Spent → ⊥) → self.new ≡ self.old }
    {
        self.update(table, &Call::Insert(key, value))
    }

    /// Takes a key out, where it is there: `Gone` with its value, or `Absent`.
    ///
    /// **Steps:** at most `update_bound`; it waits for nobody and takes no memory.
    ///
    /// **Errors:** those of `update`.
    #[inline(always)]
    pub fn remove(&mut self, table: &LastingTable, key: Key) -> Result<Reply, Unmade>
        requires seat { IsPartyOf table.now self.old }
        ensures same { IsSame self.old self.new }
        ensures answered { (reply : ReplyValue) → result ≡ Ok reply →
            Answers (Called (Remove key)) (Replied reply) self.old self.new }
        ensures waits { (why : UnmadeValue) → result ≡ Err why → (why ≡ Spent → ⊥) → self.new ≡ self.old }
    {
        self.update(table, &Call::Remove(key))
    }

    /// Adds bytes to the session of a key, where it is there: `Sum` with their total, which stops at 2^61 - 1, or
    /// `Absent`.
    ///
    /// **Steps:** at most `update_bound`; it waits for nobody and takes no memory.
    ///
    /// **Errors:** those of `update`.
    #[inline(always)]
    pub fn tally(&mut self, table: &LastingTable, key: Key, bytes: u64) -> Result<Reply, Unmade>
        requires seat { IsPartyOf table.now self.old }
        requires bytes { bytes < value_limit }
        ensures same { IsSame self.old self.new }
        ensures answered { (reply : ReplyValue) → result ≡ Ok reply →
            Answers (Called (Tally key bytes)) (Replied reply) self.old self.new }
        ensures waits { (why : UnmadeValue) → result ≡ Err why → (why ≡ Spent → ⊥) → self.new ≡ self.old }
    {
        self.update(table, &Call::Tally(key, bytes))
    }

    /// Adds bytes to the session of a key, and inserts the key with this value and these bytes where it is not there:
    /// `New`, `NoRoom`, or `Sum` with the total, which stops at 2^61 - 1.
    ///
    /// **Steps:** at most `update_bound`; it waits for nobody and takes no memory.
    ///
    /// **Errors:** those of `update`.
    #[inline(always)]
    pub fn count(
        &mut self,
        table: &LastingTable,
        key: Key,
        value: u64,
        bytes: u64,
    ) -> Result<Reply, Unmade>
        requires seat { IsPartyOf table.now self.old }
        requires value { value < value_limit }
        requires bytes { bytes < value_limit }
        ensures same { IsSame self.old self.new }
        ensures answered { (reply : ReplyValue) → result ≡ Ok reply →
            Answers (Called (Count key value bytes)) (Replied reply) self.old self.new }
        ensures waits { (why : UnmadeValue) → result ≡ Err why → (why ≡ Spent → ⊥) → self.new ≡ self.old }
    {
        self.update(table, &Call::Count(key, value, bytes))
    }

    /// Gives a key this value, whether it is there or not: `New`, `NoRoom`, or `Old` with the value that it had. Its
    /// bytes stay.
    ///
    /// **Steps:** at most `update_bound`; it waits for nobody and takes no memory.
    ///
    /// **Errors:** those of `update`.
    #[inline(always)]
    pub fn put(&mut self, table: &LastingTable, key: Key, value: u64) -> Result<Reply, Unmade>
        requires seat { IsPartyOf table.now self.old }
        requires value { value < value_limit }
        ensures same { IsSame self.old self.new }
        ensures answered { (reply : ReplyValue) → result ≡ Ok reply →
            Answers (Called (Put key value)) (Replied reply) self.old self.new }
        ensures waits { (why : UnmadeValue) → result ≡ Err why → (why ≡ Spent → ⊥) → self.new ≡ self.old }
    {
        self.update(table, &Call::Put(key, value))
    }

    /// Makes any update.
    ///
    /// **Steps:** at most `update_bound`; it waits for nobody and takes no memory.
    ///
    /// **Errors:** that its bucket is spent, which is an answer of the call; or that the seat has asked for a hold, or
    /// has announced, as often as it may. Then nothing happened.
    #[inline(always)]
    pub fn update(&mut self, table: &LastingTable, call: &Call) -> Result<Reply, Unmade>
        requires seat { IsPartyOf table.now self.old }
        requires update { IsUpdate call.now }
        ensures same { IsSame self.old self.new }
        ensures answered { (reply : ReplyValue) → result ≡ Ok reply →
            Answers (Called call.now) (Replied reply) self.old self.new }
        ensures spent { result ≡ Err Spent → Answers (Called call.now) ToldSpent self.old self.new }
        ensures waits { (why : UnmadeValue) → result ≡ Err why → (why ≡ Spent → ⊥) → self.new ≡ self.old }
        ensures asked { (result ≡ Err Asked) ↔ (2 ^ 62 ≤ asked_times self.old) }
        ensures announced { (result ≡ Err Announced)
            ↔ ((asked_times self.old < 2 ^ 62) × (2 ^ 43 ≤ announced_times self.old + 1)) }
    {
        if self.state.time >= MOST_ASKED {
            return Err(Unmade::Asked);
        }
        if self.state.posted >= MOST_ANNOUNCED - 1 {
            return Err(Unmade::Announced);
        }
        let made = self.make(table, call);
        taken(made)
    }

    // Makes an update, for which there are askings and announcements left.
    #[inline(always)]
    fn make(&mut self, table: &LastingTable, call: &Call) -> Updated
        requires seat { IsPartyOf table.now self.old }
        requires update { IsUpdate call.now }
        requires late { asked_times self.old < 2 ^ 62 }
        requires few { announced_times self.old + 1 < 2 ^ 43 }
        ensures same { IsSame self.old self.new }
        ensures answered { Answers (Called call.now) (told_by_update result) self.old self.new }
        ensures taken { told_by_update result ≡ Refused → ⊥ }
    {
        call.key().has_words();
        let badge = mem::replace(&mut self.badge, Badge::blank());
        let (token, made) = run_update::<Brand>(
            &table.board.shared,
            badge.into_seat(),
            &self.desk,
            &mut self.state,
            call,
        );
        self.badge = token.into_badge();
        made
    }
}

// What an update came to, which was not refused.
#[inline(always)]
fn taken(made: Updated) -> Result<Reply, Unmade>
    requires { told_by_update made ≡ Refused → ⊥ }
    ensures answered { (reply : ReplyValue) → result ≡ Ok reply → told_by_update made ≡ Replied reply }
    ensures spent { (why : UnmadeValue) → result ≡ Err why → (why ≡ Spent) × (told_by_update made ≡ ToldSpent) }
{
    match made {
        Updated::Replied(reply) => Ok(reply),
        Updated::Spent => Err(Unmade::Spent),
        Updated::Refused => unreachable!(),
    }
}
