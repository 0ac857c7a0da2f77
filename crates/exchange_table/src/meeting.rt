//! The seats of a table meet: all come to know its whole run.
//!
//! **Words**: it loads the first one, and stores none.
//! **Keeps**: `OneRun`, the rule that there is a run of the table.
//! **Steps**: one load, and one for each other seat that joins and one for each that is cut off again.
//! **Why it ends**: it goes through the seats once.

ghost use Rattle.std.specs.Prelude.{◌≡◌, ◌∷◌, ◌<◌, All};
ghost use Rattle.exchange_table.specs.Meetings.{AreSeatsOf, HaveGathered, HaveJoined, HaveMet};

use crate::rule::{Deal, Joint, Meets};
use crate::running::{Token, Words};
use crate::seat::Seat;
use crate::table::LastingTable;
use atomic_table::Badge;
use std::mem;

// These seats join the token, all come to know the run, and they are cut off again.
#[cycle(gather)]
fn gather(words: &Words, token: &mut Token, seats: &mut [Seat])
    requires table { token.old.table_id ≡ words.now.table_id }
    requires some { 0 < words.now.table_id.words }
    requires seats { All (λ p. p.table_id ≡ words.now.table_id) seats.old }
    ensures table { token.new.table_id ≡ token.old.table_id }
    ensures joined { HaveJoined token.old.me token.new.me seats.old seats.new }
{
    match seats.split_first_mut() {
        Some((seat, rest)) => gather_with(words, token, seat, rest),
        None => {
            words.load::<Meets>(token, 0);
        }
    }
}

// The same with this seat before the others.
#[cycle(gather)]
fn gather_with(words: &Words, token: &mut Token, seat: &mut Seat, rest: &mut [Seat])
    requires table { token.old.table_id ≡ words.now.table_id }
    requires some { 0 < words.now.table_id.words }
    requires seat { seat.old.table_id ≡ words.now.table_id }
    requires rest { All (λ p. p.table_id ≡ words.now.table_id) rest.old }
    ensures table { token.new.table_id ≡ token.old.table_id }
    ensures joined { HaveJoined token.old.me token.new.me (seat.old ∷ rest.old) (seat.new ∷ rest.new) }
{
    let badge = mem::replace(&mut seat.badge, Badge::blank());
    words.join_seat::<Joint>(token, badge.into_seat());
    gather(words, token, rest);
    let own = words.split_seat::<Deal>(token);
    seat.badge = own.into_badge();
}

// The other seats come to this one, and all come to know the run.
fn meet_at(words: &Words, seat: &mut Seat, rest: &mut [Seat])
    requires some { 0 < words.now.table_id.words }
    requires seat { seat.old.table_id ≡ words.now.table_id }
    requires rest { All (λ p. p.table_id ≡ words.now.table_id) rest.old }
    ensures met { HaveGathered (seat.old ∷ rest.old) (seat.new ∷ rest.new) }
{
    let badge = mem::replace(&mut seat.badge, Badge::blank());
    let mut token = badge.into_seat();
    gather(words, &mut token, rest);
    seat.badge = token.into_badge();
}

impl LastingTable {
    /// All seats of the table come to know its whole run: the events that each has made, and those of all others. No
    /// call is made.
    ///
    /// **Steps:** one load for each seat, and one more for each but the first. It waits for nobody.
    pub fn meet(&self, seats: &mut [Seat])
        requires seats { AreSeatsOf self.now seats.old }
        ensures met { HaveMet self.now seats.old seats.new }
    {
        if let Some((seat, rest)) = seats.split_first_mut() {
            meet_at(&self.board.shared, seat, rest);
        }
    }
}
