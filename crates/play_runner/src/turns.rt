//! Seats in turn.

ghost use Rattle.std.specs.Prelude.{◌≡◌, ◌<◌, ◌≤◌, IfOk, OnOk, map, true};
ghost use Rattle.std.specs.Option.{option_map_or};
ghost use Rattle.word_rows.specs.Shape.{record_limit};
ghost use Rattle.table_model.specs.Setup.{seats_of, settings_of};
ghost use Rattle.table_model.specs.Schedules.{CanPlay, first_play, hand_of, most_slots, run_round, run_rounds, run_segment, slot, slots};
ghost use Rattle.core_steps.specs.Values.{opened};
ghost use Rattle.play_runner.specs.Hands.{as_hand, as_hands, rounds_of, unbegun_of};
ghost use Rattle.play_runner.specs.Played.{as_segment};

use crate::hands::{Hand, first_hands, most_rounds, unbegun};
use crate::slots::take_slot;
use crate::values::Segment;
use core_steps::CoreWorld;
use plain_map::Call;
use std::alloc::{AllocError, Global};
use trace_share::Outcome;

/// How far a play is: the table, what the seats have still to do, and the calls that ended, in the order of their ends.
///
/// Where a method has a `Result`, its only error is want of memory.
#[derive(Drop)]
pub(crate) struct Playing<'a> {
    pub(crate) core: CoreWorld,
    pub(crate) hands: Vec<Hand<'a>>,
    pub(crate) outcomes: Vec<(u32, Outcome)>,
}

impl<'a> Playing<'a> {
    ghost use Rattle.play_runner.specs.Plays.{HasCome, IsPlaying, play_in};

    /// A play before its first event.
    pub(crate) fn new(
        alloc: Global,
        core: CoreWorld,
        calls: &'a [Vec<(u32, Call)>],
        stops: &[Option<u32>],
    ) -> Result<Playing<'a>, AllocError>
        requires opened { core ≡ opened core.setup }
        requires limit { core.setup.shape.limit ≤ record_limit }
        requires playable { CanPlay core.setup (map (λ own. own.items) calls.now) }
        ensures setup { IfOk result (λ p. p.core.setup ≡ core.setup) }
        ensures play { IfOk result (λ p.
            play_in p ≡ first_play core.setup (map (λ own. own.items) calls.now) stops.now) }
        ensures stands { IfOk result IsPlaying }
    {
        let hands = first_hands(alloc, core.settings().seats, calls, stops)?;
        Ok(Playing {
            core,
            hands,
            outcomes: Vec::new(alloc),
        })
    }

    // What the seat has still to do. A seat that is not there has nothing.
    fn hand(&self, seat: u32) -> Hand<'a>
        ensures { as_hand result ≡ hand_of (play_in self.now) seat }
    {
        match self.hands.get(seat as usize) {
            Some(hand) => *hand,
            None => Hand {
                calls: &[],
                may: None,
            },
        }
    }

    // Whether a slot of the seat would be skipped: the seat is stopped or has ended.
    fn is_done(&self, seat: u32) -> bool
        ensures { result ≡ true → slot self.now.core.setup seat (play_in self.now) ≡ play_in self.now }
    {
        let hand = self.hand(seat);
        hand.is_stopped() || hand.calls.is_empty() && self.core.idle(seat)
    }

    // One slot of a seat.
    fn slot(&mut self, seat: u32) -> Result<(), AllocError>
        requires { IsPlaying self.old }
        ensures { OnOk result (HasCome self.old self.new (slot self.old.core.setup seat (play_in self.old))) }
    {
        let hand = self.hand(seat);
        if seat as usize >= self.hands.len() || hand.is_stopped() {
            return Ok(());
        }
        let left = take_slot(&mut self.core, &mut self.outcomes, seat, &hand)?;
        self.hands[seat as usize] = left;
        Ok(())
    }

    // So many slots of a seat.
    fn slots(&mut self, seat: u32, many: u64) -> Result<(), AllocError>
        requires { IsPlaying self.old }
        ensures { OnOk result (HasCome self.old self.new (slots self.old.core.setup seat many (play_in self.old))) }
    {
        for _ in 0..many {
            if self.is_done(seat) {
                return Ok(());
            }
            self.slot(seat)?;
        }
        Ok(())
    }

    // As many slots as a seat can need.
    fn most_slots(&self, seat: u32) -> u64
        requires { IsPlaying self.now }
        ensures { result ≡ most_slots (settings_of self.now.core.setup) (hand_of (play_in self.now) seat) }
    {
        self.hand(seat).most_slots(&self.core.settings())
    }

    // As many slots as a segment has.
    fn slots_in(&self, segment: &Segment) -> u64
        requires { IsPlaying self.now }
        ensures { result ≡ option_map_or (λ many. many) segment.now.slots
            (most_slots (settings_of self.now.core.setup) (hand_of (play_in self.now) segment.now.seat)) }
    {
        match segment.slots {
            Some(many) => u64::from(many),
            None => self.most_slots(segment.seat),
        }
    }

    /// One segment of a schedule.
    pub(crate) fn run_segment(&mut self, segment: &Segment) -> Result<(), AllocError>
        requires { IsPlaying self.old }
        ensures { OnOk result (HasCome self.old self.new
            (run_segment self.old.core.setup (play_in self.old) (as_segment segment.now))) }
    {
        let many = self.slots_in(segment);
        self.slots(segment.seat, many)
    }

    // Whether a round would be skipped: all seats are stopped or have ended.
    fn all_done(&self, seats: u32) -> bool
        requires { seats ≡ seats_of self.now.core.setup }
        ensures { result ≡ true → run_round self.now.core.setup (play_in self.now) ≡ play_in self.now }
    {
        for seat in 0..seats {
            if !self.is_done(seat) {
                return false;
            }
        }
        true
    }

    // One slot of each seat, in the order of the seats.
    fn run_round(&mut self, seats: u32) -> Result<(), AllocError>
        requires stands { IsPlaying self.old }
        requires seats { seats ≡ seats_of self.old.core.setup }
        ensures { OnOk result (HasCome self.old self.new (run_round self.old.core.setup (play_in self.old))) }
    {
        for seat in 0..seats {
            self.slot(seat)?;
        }
        Ok(())
    }

    /// The seats go in turn, until each has ended or is stopped.
    pub(crate) fn run_rounds(&mut self) -> Result<(), AllocError>
        requires { IsPlaying self.old }
        ensures { OnOk result (HasCome self.old self.new (run_rounds self.old.core.setup
            (rounds_of (settings_of self.old.core.setup) (as_hands self.old.hands.items)) (play_in self.old))) }
    {
        let settings = self.core.settings();
        let most = most_rounds(&self.hands, &settings);
        for _ in 0..most {
            if self.all_done(settings.seats) {
                return Ok(());
            }
            self.run_round(settings.seats)?;
        }
        Ok(())
    }

    /// How many calls were not begun.
    pub(crate) fn unbegun(&self) -> u64
        requires { IsPlaying self.now }
        ensures { result ≡ unbegun_of (as_hands self.now.hands.items) }
    {
        unbegun(&self.hands)
    }
}
