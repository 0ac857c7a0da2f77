//! A reader of a lasting table that cannot hold a row of it.
//!
//! **Words**: it loads those of its table, and stores none.
//! **Keeps**: `OneRun`, the rule that there is a run of the table.
//! **Steps**: in each try two loads, and those of the bucket's count and keys; at most `peek_bound` of its tries.
//! **Why it ends**: it has so many tries, and waits for nobody.

ghost use Rattle.std.specs.Prelude.{◌≡◌, ◌<◌, ◌≤◌, IfSome, length, false};
ghost use Rattle.plain_map.specs.declared.calls.Call.TheVariants.{Lookup};
ghost use Rattle.exchange_model.specs.Plans.{buckets_of};
ghost use Rattle.exchange_model.specs.Goes.{Called, Copied};
ghost use Rattle.exchange_table.specs.Values.{Answers, IsPartyOf, IsSame, told_by_look, told_by_peek};

use crate::rule::Enters;
use crate::runs::{run_look, run_peek};
use crate::table::LastingTable;
use crate::view::View;
use atomic_table::Badge;
use exchange_calls::Desk;
use plain_map::{Key, Pair, Reply};
use std::marker::{Brand, Model};
use std::mem;

/// A reader of a lasting table. There may be any number of them, and they leave no trace: no hold and no store.
#[derive(Drop)]
pub struct Reader {
    badge: Badge<View>,
    desk: Desk,
}

impl Model for Reader {
    ghost use Rattle.exchange_table.specs.Parties.{PartyValue};

    ghost Value = { PartyValue };

    ghost use Rattle.std.specs.Prelude.{false};
    ghost use Rattle.exchange_table.specs.Values.{PartyStands, party_value};

    ghost view = { λ r. party_value r.desk r.badge.table_id r.badge.views };

    ghost invariant = { λ r. PartyStands false r.desk r.badge.views };
}

impl LastingTable {
    /// A new reader of the table, by one load. It cannot hold a row.
    pub fn reader(&self) -> Reader
        ensures { IsPartyOf self.now result }
    {
        let (_, token) = self.board.shared.load_new_seat::<Enters>(0);
        Reader {
            badge: token.into_badge(),
            desk: Desk::new(self.opening.sizes, self.opening.hashing, 0),
        }
    }
}

impl Reader {
    /// Looks a key up by loads alone, with so many tries. `None` tells that each was disturbed: it may be asked again.
    /// It takes no memory.
    ///
    /// **Steps:** a try takes 3 and one for each item of the bucket, and six more for an item that has the key's last
    /// word.
    #[inline(always)]
    pub fn peek(&mut self, table: &LastingTable, tries: u64, key: &Key) -> Option<Reply>
        requires reader { IsPartyOf table.now self.old }
        requires tries { 1 ≤ tries }
        ensures same { IsSame self.old self.new }
        ensures answered { Answers (Called (Lookup key.now)) (told_by_peek result) self.old self.new }
    {
        let badge = mem::replace(&mut self.badge, Badge::blank());
        let (token, reply) = run_peek::<Brand>(
            &table.board.shared,
            badge.into_seat(),
            &self.desk,
            tries,
            key,
        );
        self.badge = token.into_badge();
        reply
    }

    /// Copies all pairs of a bucket by loads alone, with so many tries, and tells how many there are. `None` tells that
    /// each try was disturbed: it may be asked again. It takes no memory.
    ///
    /// **Steps:** a try takes 3 and seven for each pair.
    #[inline(always)]
    pub fn look_at(
        &mut self,
        table: &LastingTable,
        tries: u64,
        bucket: u64,
        out: &mut [Pair],
    ) -> Option<usize>
        requires reader { IsPartyOf table.now self.old }
        requires tries { 1 ≤ tries }
        requires bucket { bucket < buckets_of table.now.plan.settings }
        requires room { table.now.plan.settings.items ≤ length out.old }
        ensures same { IsSame self.old self.new }
        ensures few { IfSome result (λ count. count ≤ length out.new) }
        ensures answered { Answers (Copied bucket) (told_by_look result out.new) self.old self.new }
    {
        let badge = mem::replace(&mut self.badge, Badge::blank());
        let (token, count) = run_look::<Brand>(
            &table.board.shared,
            badge.into_seat(),
            &self.desk,
            tries,
            bucket,
            out,
        );
        self.badge = token.into_badge();
        count
    }
}
