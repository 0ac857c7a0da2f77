//! A bucket try, word by word, and the last look.

ghost use Rattle.std.specs.Prelude.{◌≡◌, ◌≤◌, ◌<◌, ◌^◌, Some, [], if◌then◌else◌, length};
ghost use Rattle.word_rows.specs.BucketWords.{IsBucket};
ghost use Rattle.word_rows.specs.Shape.{AreBelow};
ghost use Rattle.bucket_states.specs.Change.{change};
ghost use Rattle.bucket_states.specs.States.{row_of_state, state_of};
ghost use Rattle.table_model.specs.Fits.{Finds, Makes};
ghost use Rattle.table_model.specs.Goes.{after_exchange, after_found, after_row, answered_by, is_applied, more, used_after};
ghost use Rattle.table_model.specs.Setup.{rules_of};
ghost use Rattle.table_model.specs.Stores.{bucket_words};
ghost use Rattle.table_model.specs.Phases.{Stuck};
ghost use Rattle.seat_machine.specs.Stages.{attempt_of};

use crate::endings::{is_applied, reply_in};
use crate::machine::Machine;
use crate::stage::Stage;
use bucket_states::Op;
use plain_map::FullKind;
use step_counts::OP_WORDS;
use table_model::Round;

impl Machine {
    ghost use Rattle.seat_machine.specs.Room.{HasAllRoom};
    ghost use Rattle.seat_machine.specs.Stands.{CallStands, IsKept, IsOfTable, TryGoesOn};
    ghost use Rattle.seat_machine.specs.Steps.{KeepsCall};
    ghost use Rattle.seat_machine.specs.View.{flight_of, phase_of, phase_then, setup_of, sizes};

    /// A word of the row of a bucket try.
    pub fn take_row_word(&mut self, round: Round, turn: u64, first: u64, row: u64, word: u64)
        requires kept { IsKept self.old }
        requires stage { self.old.stage ≡ Stage.TryRow round turn first row }
        requires finds { Finds (setup_of self.old) (phase_of self.old) word }
        requires makes { Makes (setup_of self.old) (phase_then self.old word) }
        ensures phase { phase_of self.new ≡ phase_then self.old word }
        ensures same { KeepsCall self.old self.new }
        ensures kept { IsKept self.new }
    {
        self.words.push_reserved(word);
        if self.words.len() == self.row_length() {
            self.read_base();
            self.found.clear();
            self.after_row(round, turn, first, row);
        }
    }

    // A row is loaded whole. After two lost exchanges there is no third try.
    fn after_row(&mut self, round: Round, turn: u64, first: u64, row: u64)
        requires room { HasAllRoom self.old }
        requires call { CallStands self.old }
        requires found { self.old.found.items ≡ [] }
        requires of_table { IsOfTable (sizes self.old) (state_of self.old.base) }
        ensures phase { phase_of self.new
            ≡ after_row self.old.seat (flight_of self.old) round (attempt_of turn first row (state_of self.old.base)) }
        ensures same { KeepsCall self.old self.new }
        ensures kept { IsKept self.new }
    {
        if is_applied(self.seat, self.number, &self.base) {
            let reply = reply_in(self.seat, &self.base);
            self.settle(reply, row);
        } else if self.base.frozen {
            self.stage = Stage::DirRoot(round, 1, None);
        } else if turn <= 2 {
            self.stage = Stage::TryAnnouncement(round, turn, first, row);
        } else {
            self.stage = Stage::Stuck;
        }
    }

    /// A word of the row of the last look.
    pub fn take_last_word(&mut self, row: u64, word: u64)
        requires kept { IsKept self.old }
        requires stage { self.old.stage ≡ Stage.LastRow row }
        requires finds { Finds (setup_of self.old) (phase_of self.old) word }
        ensures phase { phase_of self.new ≡ phase_then self.old word }
        ensures same { KeepsCall self.old self.new }
        ensures kept { IsKept self.new }
    {
        self.words.push_reserved(word);
        if self.words.len() == self.row_length() {
            self.read_base();
            self.after_last(row);
        }
    }

    // The row of the last look is loaded whole.
    fn after_last(&mut self, row: u64)
        requires room { HasAllRoom self.old }
        requires call { CallStands self.old }
        ensures phase { phase_of self.new ≡ (if is_applied self.old.seat (flight_of self.old) (state_of self.old.base)
            then answered_by self.old.seat (state_of self.old.base) row else Stuck) }
        ensures same { KeepsCall self.old self.new }
        ensures kept { IsKept self.new }
    {
        if is_applied(self.seat, self.number, &self.base) {
            let reply = reply_in(self.seat, &self.base);
            self.settle(reply, row);
        } else {
            self.stage = Stage::Stuck;
        }
    }

    /// The announcement of the next seat.
    pub fn take_announcement(&mut self, round: Round, turn: u64, first: u64, row: u64, word: u64)
        requires kept { IsKept self.old }
        requires stage { self.old.stage ≡ Stage.TryAnnouncement round turn first row }
        requires makes { Makes (setup_of self.old) (phase_then self.old word) }
        ensures phase { phase_of self.new ≡ phase_then self.old word }
        ensures same { KeepsCall self.old self.new }
        ensures kept { IsKept self.new }
    {
        if word == 0 {
            self.find(round, turn, first, row, None);
        } else {
            self.words.clear();
            self.stage = Stage::TryOp(round, turn, first, row, word - 1);
        }
    }

    /// A word of the op row of the next seat.
    pub fn take_op_word(
        &mut self,
        round: Round,
        turn: u64,
        first: u64,
        row: u64,
        op: u64,
        word: u64,
    )
        requires kept { IsKept self.old }
        requires stage { self.old.stage ≡ Stage.TryOp round turn first row op }
        requires finds { Finds (setup_of self.old) (phase_of self.old) word }
        requires makes { Makes (setup_of self.old) (phase_then self.old word) }
        ensures phase { phase_of self.new ≡ phase_then self.old word }
        ensures same { KeepsCall self.old self.new }
        ensures kept { IsKept self.new }
    {
        self.words.push_reserved(word);
        if self.words.len() == OP_WORDS {
            let op = self.read_found();
            self.find(round, turn, first, row, Some(op));
        }
    }

    // The op of one more seat is found.
    fn find(&mut self, round: Round, turn: u64, first: u64, row: u64, op: Option<Op>)
        requires room { HasAllRoom self.old }
        requires call { CallStands self.old }
        requires goes { TryGoesOn self.old turn }
        requires makes { Makes (setup_of self.old) (after_found (setup_of self.old) round
            (attempt_of turn first row (state_of self.old.base)) (more self.old.found.items op)) }
        ensures phase { phase_of self.new ≡ after_found (setup_of self.old) round
            (attempt_of turn first row (state_of self.old.base)) (more self.old.found.items op) }
        ensures same { KeepsCall self.old self.new }
        ensures kept { IsKept self.new }
    {
        self.found.push_reserved(op);
        if self.found.len() < self.seats() {
            self.stage = Stage::TryAnnouncement(round, turn, first, row);
        } else {
            self.make(row);
            self.stage = Stage::TryStore(round, turn, first, row, 0);
        }
    }

    // The new bucket, and its words.
    fn make(&mut self, row: u64)
        requires room { HasAllRoom self.old }
        requires base { IsOfTable (sizes self.old) (state_of self.old.base) }
        requires few { length self.old.found.items ≤ (sizes self.old).seats }
        requires spelled { IsBucket (sizes self.old) (row_of_state (Some row)
            (change (rules_of (setup_of self.old)) self.old.found.items (state_of self.old.base))) }
        ensures made { state_of self.new.made
            ≡ change (rules_of (setup_of self.old)) self.old.found.items (state_of self.old.base) }
        ensures out { self.new.out.items ≡ bucket_words (setup_of self.old) (Some row)
            (change (rules_of (setup_of self.old)) self.old.found.items (state_of self.old.base)) }
        ensures same { KeepsCall self.old self.new }
        ensures base { self.new.base ≡ self.old.base }
        ensures words { self.new.words ≡ self.old.words }
        ensures found { self.new.found ≡ self.old.found }
        ensures room { HasAllRoom self.new }
    {
        let rules = self.rules();
        self.made.copy_from(&self.base);
        self.made.apply_all(&rules, &self.found);
        self.made.to_row(Some(row), &mut self.row);
        self.layout.write_bucket(&self.row, &mut self.out);
    }

    /// One more word of the new row is stored.
    pub fn take_stored(
        &mut self,
        round: Round,
        turn: u64,
        first: u64,
        row: u64,
        stored: u64,
        word: u64,
    )
        requires kept { IsKept self.old }
        requires stage { self.old.stage ≡ Stage.TryStore round turn first row stored }
        ensures phase { phase_of self.new ≡ phase_then self.old word }
        ensures same { KeepsCall self.old self.new }
        ensures kept { IsKept self.new }
    {
        self.stage = if (stored + 1) < self.row_length() as u64 {
            Stage::TryStore(round, turn, first, row, stored + 1)
        } else {
            Stage::TryExchange(round, turn, first, row)
        };
    }

    /// The exchange of the bucket word.
    pub fn take_exchange(&mut self, round: Round, turn: u64, first: u64, row: u64, word: u64)
        requires kept { IsKept self.old }
        requires stage { self.old.stage ≡ Stage.TryExchange round turn first row }
        requires used { AreBelow (2 ^ 62) self.old.used }
        ensures phase { phase_of self.new ≡ phase_then self.old word }
        ensures used { self.new.used ≡ used_after (setup_of self.old) self.old.used (phase_of self.old) word }
        ensures flight { flight_of self.new ≡ flight_of self.old }
        ensures setup { setup_of self.new ≡ setup_of self.old }
        ensures seat { self.new.seat ≡ self.old.seat }
        ensures count { self.new.count ≡ self.old.count }
        ensures kept { IsKept self.new }
    {
        if word == row {
            let made = self.next_number(FullKind::BucketRows);
            self.used.bucket_rows += 1;
            self.after_exchange(round, made);
        } else {
            self.stage = Stage::TryWord(round, turn + 1, Some(first));
        }
    }

    // The new row is the bucket's.
    fn after_exchange(&mut self, round: Round, row: u64)
        requires room { HasAllRoom self.old }
        requires call { CallStands self.old }
        ensures phase { phase_of self.new
            ≡ after_exchange self.old.seat (flight_of self.old) round (state_of self.old.made) row }
        ensures same { KeepsCall self.old self.new }
        ensures kept { IsKept self.new }
    {
        if is_applied(self.seat, self.number, &self.made) {
            let reply = reply_in(self.seat, &self.made);
            self.settle(reply, row);
        } else if self.made.frozen {
            self.stage = Stage::DirRoot(round, 1, None);
        } else {
            self.stage = Stage::Stuck;
        }
    }
}
