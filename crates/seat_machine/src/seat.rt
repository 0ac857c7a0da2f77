//! A seat that is given one word at a time.

ghost use Rattle.std.specs.Prelude.{◌≡◌, ◌≢◌, ◌+◌, ◌-◌, ◌^◌, ◌<◌, ◌↔◌, [], IfOk, IsTrue, OnErr, OnOk};
ghost use Rattle.std.specs.Result.{result_err};
ghost use Rattle.plain_map.specs.Serving.{IsAskable};
ghost use Rattle.step_counts.specs.declared.settings.Settings.{Settings};
ghost use Rattle.word_rows.specs.LayoutView.{shape_of};
ghost use Rattle.table_model.specs.Program.{CanTake, answers, asks, blank, takes};
ghost use Rattle.table_model.specs.SeatStates.{Idle};
ghost use Rattle.table_model.specs.Worlds.{refusal_of};
ghost use Rattle.seat_machine.specs.Programs.{begins, pending_in, resting};

use crate::machine::Machine;
use crate::stage::Stage;
use hash_bits::Hashing;
use plain_map::{Call, Full, Pending, Record};
use std::alloc::{AllocError, Global};
use std::marker::Model;
use step_counts::Settings;
use table_model::Ask;
use word_rows::Layout;

/// A seat: what it has published, how many calls it has answered, and its call in flight.
#[derive(Drop)]
pub struct SeatMachine {
    machine: Machine,
}

impl Model for SeatMachine {
    ghost use Rattle.table_model.specs.Program.{Program};
    ghost use Rattle.seat_machine.specs.Stands.{IsKept};
    ghost use Rattle.seat_machine.specs.View.{program_of};

    ghost Value = { Program };

    ghost view = { λ s. program_of s.machine };

    ghost invariant = { λ s. IsKept s.machine };
}

impl SeatMachine {
    /// A seat of this number that has made no call, with all the memory that it will ever need.
    ///
    /// The only error is want of memory. No other call takes any.
    pub fn new(
        alloc: Global,
        settings: &Settings,
        hashing: Hashing,
        layout: Layout,
        seat: u32,
    ) -> Result<SeatMachine, AllocError>
        requires settings { settings.now ≡ (shape_of layout).settings }
        requires seat { seat < settings.now.seats }
        ensures { IfOk result (λ machine. machine
            ≡ resting (record { shape = shape_of layout; hashing = hashing; first = [] }) seat) }
    {
        Ok(SeatMachine {
            machine: Machine::new(alloc, settings, hashing, layout, seat)?,
        })
    }

    /// Begins a call, unless it is refused. It is refused exactly where a range of the seat has less left than a call
    /// may need.
    pub fn begin(&mut self, packet: u32, call: &Call) -> Result<(), Full>
        requires idle { self.old.stand ≡ Idle }
        requires askable { IsAskable call.now }
        requires count { self.old.count < 2 ^ 32 - 1 }
        ensures refused { result_err result ≡ refusal_of self.old.setup self.old.seat (blank self.old.used) call.now }
        ensures begun { OnOk result (self.new ≡ begins self.old (packet, call.now)) }
        ensures same { OnErr result (self.new ≡ self.old) }
    {
        self.machine.begin(packet, call)
    }

    /// What the seat asks for next. An idle one asks for nothing.
    pub fn next(&self) -> Ask
        ensures { result ≡ asks self.now }
    {
        self.machine.next()
    }

    /// Goes on after its step found this word, and answers where the call has ended with it.
    ///
    /// For a load the word is the one that was found, for an exchange also: it happened exactly where that is the
    /// expected one. For a store the word tells nothing.
    pub fn take(&mut self, word: u64) -> Option<Record>
        requires fits { CanTake self.old word }
        ensures value { self.new ≡ takes self.old word }
        ensures made { result ≡ answers self.old word }
    {
        self.machine.take(word)
    }

    /// Whether no call is going on.
    pub fn is_idle(&self) -> bool
        ensures { IsTrue result ↔ (self.now.stand ≡ Idle) }
    {
        matches!(self.machine.stage, Stage::Idle)
    }

    /// The call that is going on, as it is told where its seat stops.
    pub fn pending(&self) -> Option<Pending>
        ensures { result ≡ pending_in self.now }
    {
        match self.machine.stage {
            Stage::Idle => None,
            _ => Some(self.machine.pending()),
        }
    }
}
