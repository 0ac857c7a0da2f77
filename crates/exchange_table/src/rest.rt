//! The pairs of a table, copied while all its seats are here.
//!
//! **Words**: those of a copy of each bucket by the first seat, and those of two meetings.
//! **Keeps**: `OneRun`, the rule that there is a run of the table.
//! **Steps**: at most `look_bound` for each bucket, and those of two meetings.
//! **Why it ends**: it goes through the buckets once.

ghost use Rattle.std.specs.Prelude.{◌≡◌, ◌∷◌, ◌<◌, ◌≤◌, ◌+◌, ◌^◌, Err, IfOk, List, OnOk, length};
ghost use Rattle.exchange_model.specs.Plans.{buckets_of};
ghost use Rattle.exchange_table.specs.Parties.{PartyValue, own_answers};
ghost use Rattle.exchange_table.specs.declared.rest.Uncopied.TheVariants.{Asked, Memory};
ghost use Rattle.exchange_table.specs.Values.{IsPartyOf, IsSame, answered_updates};
ghost use Rattle.exchange_table.specs.Meetings.{AreSeatsOf};
ghost use Rattle.exchange_table.specs.Rests.{HasCopied, HasCopiedOne, HaveRested};

use crate::seat::Seat;
use crate::table::LastingTable;
use plain_map::{Key, Pair};
use std::alloc::{AllocError, Global};
use step_counts::MOST_ITEMS;

/// Why the pairs of a table were not copied.
#[derive(Clone, Copy, Debug, PartialEq, Eq)]
pub enum Uncopied {
    /// There is no memory for them.
    Memory,
    /// The first seat has asked for a hold as often as it may.
    Asked,
}

impl From<AllocError> for Uncopied {
    ghost from_gives = { λ _ why. why ≡ Memory };

    fn from(_none: AllocError) -> Uncopied {
        Uncopied::Memory
    }
}

// A pair that stands where none was copied yet.
fn no_pair() -> Pair {
    Pair {
        key: Key {
            k0: 0,
            k1: 0,
            k2: 0,
            k3: 0,
            k4: 0,
        },
        value: 0,
        bytes: 0,
    }
}

// Copies this bucket behind the pairs of those before it.
fn copy_one(
    table: &LastingTable,
    seat: &mut Seat,
    bucket: u64,
    pairs: &mut Vec<Pair>,
) -> Result<(), Uncopied>
    requires seat { IsPartyOf table.now seat.old }
    requires bucket { bucket < buckets_of table.now.plan.settings }
    ensures same { IsSame seat.old seat.new }
    ensures copied { OnOk result (HasCopiedOne bucket seat.old seat.new pairs.old.items pairs.new.items) }
    ensures updates { answered_updates seat.new ≡ answered_updates seat.old }
    ensures asked { result ≡ Err Asked → 2 ^ 62 ≤ length (own_answers seat.old.holding) }
{
    if !seat.can_ask() {
        return Err(Uncopied::Asked);
    }
    let _opening = table.opening;
    let mut found = [no_pair(); MOST_ITEMS as usize];
    let count = seat.copy(table, bucket, &mut found);
    pairs.extend_from_slice(&found[..count])?;
    Ok(())
}

// The seat copies each bucket in order.
fn copy_all(table: &LastingTable, alloc: Global, seat: &mut Seat) -> Result<Vec<Pair>, Uncopied>
    requires seat { IsPartyOf table.now seat.old }
    ensures same { IsSame seat.old seat.new }
    ensures copied { IfOk result (λ pairs.
        HasCopied (buckets_of table.now.plan.settings) seat.old seat.new pairs.items) }
    ensures asked { result ≡ Err Asked →
        2 ^ 62 ≤ length (own_answers seat.old.holding) + buckets_of table.now.plan.settings }
{
    let mut pairs = Vec::new(alloc);
    for bucket in 0..1u64 << table.opening.sizes.depth {
        copy_one(table, seat, bucket, &mut pairs)?;
    }
    Ok(pairs)
}

impl LastingTable {
    /// All pairs that the table has, bucket by bucket: those of the plain map after all updates that its seats were
    /// answered. The first seat copies each bucket. All seats meet before and after it, so no other call of a seat
    /// comes between.
    ///
    /// **Steps:** those of two meetings, and at most `look_bound` for each bucket. It waits for nobody.
    ///
    /// **Errors:** there is no memory for the pairs, or the first seat has asked for a hold as often as it may, which
    /// it does at most once in a call. Then it may have copied some buckets.
    pub fn pairs_at_rest(&self, alloc: Global, seats: &mut [Seat]) -> Result<Vec<Pair>, Uncopied>
        requires seats { AreSeatsOf self.now seats.old }
        ensures seats { AreSeatsOf self.now seats.new }
        ensures rested { IfOk result (λ pairs. HaveRested self.now seats.old seats.new pairs.items) }
        ensures asked { (first : PartyValue) → (rest : List PartyValue) → result ≡ Err Asked →
            seats.old ≡ first ∷ rest →
            2 ^ 62 ≤ length (own_answers first.holding) + buckets_of self.now.plan.settings }
    {
        self.meet(seats);
        let pairs = copy_all(self, alloc, &mut seats[0])?;
        self.meet(seats);
        Ok(pairs)
    }
}
