//! A reader of a lasting table that can hold a row of it, and so always comes to an answer.
//!
//! **Words**: those of its table. A lookup and a copy load, and store nothing but its own want and hold words.
//! **Keeps**: `OneRun`, the rule that there is a run of the table.
//! **Steps**: at most `look_bound` for a lookup and for a copy of a bucket.
//! **Why it ends**: two tries, and then a row that nobody writes while the reader holds it.

ghost use Rattle.std.specs.Prelude.{◌≡◌, ◌<◌, ◌≤◌, ◌^◌, ◌↔◌, IsTrue, length, take};
ghost use Rattle.plain_map.specs.declared.calls.Call.TheVariants.{Lookup};
ghost use Rattle.exchange_model.specs.Plans.{buckets_of};
ghost use Rattle.exchange_model.specs.Goes.{Called, Copied, Pairs, Replied};
ghost use Rattle.exchange_table.specs.Parties.{own_answers};
ghost use Rattle.exchange_table.specs.Values.{Answers, IsPartyOf, IsSame, asked_times};

use crate::limits::MOST_ASKED;
use crate::runs::{run_copy, run_lookup};
use crate::table::LastingTable;
use crate::view::View;
use atomic_table::Badge;
use exchange_calls::Desk;
use plain_map::{Key, Pair, Reply};
use std::marker::{Brand, Model};
use std::mem;

/// A reader that can hold. It may go from thread to thread; whoever has it makes its calls.
#[derive(Drop)]
pub struct HoldingReader {
    pub(crate) badge: Badge<View>,
    pub(crate) desk: Desk,
    // How often it has asked for a hold.
    pub(crate) asked: u64,
}

impl Model for HoldingReader {
    ghost use Rattle.exchange_table.specs.Parties.{PartyValue};

    ghost Value = { PartyValue };

    ghost use Rattle.exchange_table.specs.Values.{HolderStands, party_value};

    ghost view = { λ r. party_value r.desk r.badge.table_id r.badge.views };

    ghost invariant = { λ r. HolderStands r.desk r.badge.views r.asked };
}

impl HoldingReader {
    /// Whether it may make another call: it has asked for a hold less than 2^62 times, and each call asks once at most.
    pub fn can_ask(&self) -> bool
        ensures asks { IsTrue result ↔ (asked_times self.now < 2 ^ 62) }
        ensures counted { asked_times self.now ≤ length (own_answers self.now.holding) }
    {
        self.asked < MOST_ASKED
    }

    /// Looks a key up. It is never refused, and takes no memory.
    ///
    /// **Steps:** 3 and one for each item of its bucket, and six more for an item that has the key's last word, where
    /// no other thread writes there; in no case more than `look_bound`. It waits for nobody.
    #[inline(always)]
    pub fn lookup(&mut self, table: &LastingTable, key: &Key) -> Reply
        requires reader { IsPartyOf table.now self.old }
        requires late { asked_times self.old < 2 ^ 62 }
        ensures same { IsSame self.old self.new }
        ensures answered { Answers (Called (Lookup key.now)) (Replied result) self.old self.new }
    {
        let badge = mem::replace(&mut self.badge, Badge::blank());
        let mut asked = self.asked;
        let (token, reply) = run_lookup::<Brand>(
            &table.board.shared,
            badge.into_seat(),
            &self.desk,
            &mut asked,
            key,
        );
        self.badge = token.into_badge();
        self.asked = asked;
        reply
    }

    /// Copies all pairs of a bucket, which are those of one class of keys at one moment of the call, and tells how many
    /// there are. It takes no memory.
    ///
    /// **Steps:** 3 and seven for each pair, where no other thread writes there; in no case more than `look_bound`. It
    /// waits for nobody.
    #[inline(always)]
    pub fn copy(&mut self, table: &LastingTable, bucket: u64, out: &mut [Pair]) -> usize
        requires reader { IsPartyOf table.now self.old }
        requires late { asked_times self.old < 2 ^ 62 }
        requires bucket { bucket < buckets_of table.now.plan.settings }
        requires room { table.now.plan.settings.items ≤ length out.old }
        ensures same { IsSame self.old self.new }
        ensures few { result ≤ length out.new }
        ensures answered { Answers (Copied bucket) (Pairs (take result out.new)) self.old self.new }
    {
        let badge = mem::replace(&mut self.badge, Badge::blank());
        let mut asked = self.asked;
        let (token, count) = run_copy::<Brand>(
            &table.board.shared,
            badge.into_seat(),
            &self.desk,
            &mut asked,
            bucket,
            out,
        );
        self.badge = token.into_badge();
        self.asked = asked;
        count
    }
}
