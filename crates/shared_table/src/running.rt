//! The steps of a call on the table's words.

ghost use Rattle.std.specs.Prelude.{◌≡◌, ◌∷◌, ◌≤◌, []};
ghost use Rattle.plain_map.specs.declared.calls.Call.TheVariants.{Lookup};
ghost use Rattle.plain_map.specs.Updates.{IsUpdate};
ghost use Rattle.word_rows.specs.Places.{word_count};
ghost use Rattle.seat_calls.specs.Desks.{IsOf, settings_at};
ghost use Rattle.seat_calls.specs.Rooms.{HasAllRoom};
ghost use Rattle.shared_table.specs.Calls.{Ended, HasAnswered, Rests, going_of, holding_of, now_of};
ghost use Rattle.shared_table.specs.Rule.{alone, plain};
ghost use Rattle.shared_table.specs.Zeros.{HasZeros};

use crate::accesses;
use crate::rule::{Asked, OneRun, Plan};
use crate::view::View;
use crate::zeros::Zeros;
use atomic_table::Shared;
use plain_map::{Call, Key, Record};
use seat_calls::{Desk, Room, Steps, lookup, update};
use std::marker::{Brand, Model, PhantomData};
use step_counts::SeatRows;
use word_rows::place_laws;

pub(crate) type Words = Shared<(), View, Plan, OneRun>;

pub(crate) type Token = atomic_table::Seat<(), View>;

/// What a seat steps with: its token, and the words of its own that are 0.
#[derive(Drop)]
pub(crate) struct Hand {
    pub(crate) token: Token,
    pub(crate) zeros: Zeros,
}

/// A call on its way.
#[derive(Drop)]
pub struct Running<'a, B: Asked> {
    pub(crate) words: &'a Words,
    pub(crate) token: Token,
    // How many steps are to be taken late: stores of 0 to a word that is 0 make no access.
    pub(crate) late: u64,
    pub(crate) zeros: Zeros,
    pub(crate) done: bool,
    pub(crate) marker: PhantomData<B>,
}

impl<'a, B: Asked> Model for Running<'a, B> {
    ghost use Rattle.shared_table.specs.Calls.{RunningValue};

    ghost Value = { RunningValue };

    ghost use Rattle.shared_table.specs.Calls.{IsRunning, running_value};

    ghost view = { λ r. running_value r.words.now.key r.token r.late r.zeros r.done };

    ghost invariant = { λ r.
        IsRunning B.asked B.was r.words.now.key r.words.now.table_id r.token r.late r.zeros r.done };
}

impl<'a, B: Asked> Steps for Running<'a, B> {
    ghost now = { now_of B.asked };

    ghost answered = { HasAnswered B.asked B.was };

    #[inline(always)]
    fn stands(&self) {
        let _still = self.done;
    }

    #[inline(always)]
    fn load(&mut self, at: u64) -> u64 {
        place_laws();
        let late = self.late;
        self.late = 0;
        accesses::load::<Brand>(self.words, &mut self.token, late, at)
    }

    // A word of `zeros` is 0, and no other seat stores to it. Whoever loads it finds what a store of 0 would leave. So
    // that step may come into the run with the seat's next access.
    #[inline(always)]
    fn store(&mut self, at: u64, word: u64) {
        place_laws();
        if word == 0 && self.zeros.has(at) {
            self.late += 1;
            return;
        }
        self.zeros.leave_out(at);
        let late = self.late;
        self.late = 0;
        accesses::store::<Brand>(self.words, &mut self.token, late, at, word);
    }

    #[inline(always)]
    fn exchange(&mut self, at: u64, old: u64, new: u64) -> u64 {
        place_laws();
        let late = self.late;
        self.late = 0;
        accesses::exchange::<Brand>(self.words, &mut self.token, late, at, old, new)
    }

    #[inline(always)]
    fn finish(&mut self, at: u64, word: u64) {
        place_laws();
        self.zeros.leave_out(at);
        let late = self.late;
        self.late = 0;
        accesses::store::<Brand>(self.words, &mut self.token, late, at, word);
        self.done = true;
    }
}

impl<'a, B: Asked> Running<'a, B> {
    #[inline(always)]
    fn into_hand(self) -> Hand
        ensures me { result.token.me ≡ alone self.entry.holding }
        ensures table { result.token.table_id ≡ self.entry.table_id }
        ensures zeros { HasZeros self.entry.holding result.zeros }
    {
        Hand {
            token: self.token,
            zeros: self.zeros,
        }
    }
}

/// A whole lookup on the table's words.
#[inline(always)]
pub(crate) fn run_lookup<B: Asked>(
    words: &Words,
    hand: Hand,
    desk: &Desk,
    packet: u32,
    number: u32,
    key: &Key,
) -> (Hand, Record)
    requires table { hand.token.table_id ≡ words.now.table_id }
    requires size { words.now.table_id.words ≡ word_count (plain words.now.key).shape }
    requires rests { Rests B.asked (holding_of words.now.key hand.token.me) hand.token.me }
    requires setup { (holding_of words.now.key hand.token.me).setup ≡ plain words.now.key }
    requires zeros { HasZeros (holding_of words.now.key hand.token.me) hand.zeros }
    requires asked { B.asked ≡ (packet, Lookup key.now) }
    requires was { B.was ≡
        record { table_id = hand.token.table_id; holding = holding_of words.now.key hand.token.me } ∷ [] }
    requires number { (going_of B.asked (holding_of words.now.key hand.token.me)).flight.number ≡ number }
    requires desk { IsOf (going_of B.asked (holding_of words.now.key hand.token.me)) desk.now }
    ensures table { result.0.token.table_id ≡ hand.token.table_id }
    ensures one { result.0.token.me ≡ alone (holding_of words.now.key result.0.token.me) }
    ensures zeros { HasZeros (holding_of words.now.key result.0.token.me) result.0.zeros }
    ensures ended { Ended B.asked (holding_of words.now.key hand.token.me)
        (holding_of words.now.key result.0.token.me) result.1
        (going_of B.asked (holding_of words.now.key hand.token.me)).account.used }
{
    let Hand { token, zeros } = hand;
    let mut running: Running<B> = Running {
        words,
        token,
        late: 0,
        zeros,
        done: false,
        marker: PhantomData,
    };
    let made = lookup(&mut running, desk, packet, number, key);
    (running.into_hand(), made)
}

/// A whole update on the table's words.
#[inline(always)]
pub(crate) fn run_update<B: Asked>(
    words: &Words,
    hand: Hand,
    desk: &Desk,
    room: &mut Room,
    used: &mut SeatRows,
    packet: u32,
    number: u32,
    call: &Call,
) -> (Hand, Record)
    requires table { hand.token.table_id ≡ words.now.table_id }
    requires size { words.now.table_id.words ≡ word_count (plain words.now.key).shape }
    requires rests { Rests B.asked (holding_of words.now.key hand.token.me) hand.token.me }
    requires setup { (holding_of words.now.key hand.token.me).setup ≡ plain words.now.key }
    requires zeros { HasZeros (holding_of words.now.key hand.token.me) hand.zeros }
    requires asked { B.asked ≡ (packet, call.now) }
    requires update { IsUpdate call.now }
    requires was { B.was ≡
        record { table_id = hand.token.table_id; holding = holding_of words.now.key hand.token.me } ∷ [] }
    requires first { 1 ≤ number }
    requires number { (going_of B.asked (holding_of words.now.key hand.token.me)).flight.number ≡ number }
    requires desk { IsOf (going_of B.asked (holding_of words.now.key hand.token.me)) desk.now }
    requires room { HasAllRoom (settings_at desk.now) room.old }
    requires used { used.old ≡ (going_of B.asked (holding_of words.now.key hand.token.me)).account.used }
    ensures table { result.0.token.table_id ≡ hand.token.table_id }
    ensures one { result.0.token.me ≡ alone (holding_of words.now.key result.0.token.me) }
    ensures zeros { HasZeros (holding_of words.now.key result.0.token.me) result.0.zeros }
    ensures ended { Ended B.asked (holding_of words.now.key hand.token.me)
        (holding_of words.now.key result.0.token.me) result.1
        used.new }
    ensures room { HasAllRoom (settings_at desk.now) room.new }
{
    let Hand { token, zeros } = hand;
    let mut running: Running<B> = Running {
        words,
        token,
        late: 0,
        zeros,
        done: false,
        marker: PhantomData,
    };
    let made = update(&mut running, desk, room, used, packet, number, call);
    (running.into_hand(), made)
}
