//! A directory try whose directory is loaded: the announced ops, what it stores, and its exchange.

ghost use Rattle.std.specs.Prelude.{◌≡◌, ◌+◌, ◌≤◌, ◌<◌, ◌^◌};
ghost use Rattle.word_rows.specs.Shape.{AreBelow};
ghost use Rattle.table_model.specs.Fits.{Finds, Makes};
ghost use Rattle.table_model.specs.Goes.{after_dir_found, more, used_after};
ghost use Rattle.dir_states.specs.Views.{as_directory};
ghost use Rattle.seat_machine.specs.Stages.{directory_try_of};

use crate::changes::with_directory;
use crate::endings::after_round;
use crate::machine::Machine;
use crate::stage::Stage;
use bucket_states::Op;
use plain_map::FullKind;
use step_counts::OP_WORDS;
use table_model::Round;

impl Machine {
    ghost use Rattle.seat_machine.specs.Room.{HasAllRoom};
    ghost use Rattle.seat_machine.specs.Stands.{CallStands, DirectoryGoesOn, IsKept};
    ghost use Rattle.seat_machine.specs.Steps.{KeepsCall};
    ghost use Rattle.seat_machine.specs.View.{flight_of, phase_of, phase_then, setup_of, sizes};

    /// The announcement of the next seat.
    pub fn take_announced_op(&mut self, round: Round, turn: u64, first: u64, root: u64, word: u64)
        requires used { AreBelow (2 ^ 62) self.old.used }
        requires kept { IsKept self.old }
        requires stage { self.old.stage ≡ Stage.DirAnnouncement round turn first root }
        requires makes { Makes (setup_of self.old) (phase_then self.old word) }
        ensures phase { phase_of self.new ≡ phase_then self.old word }
        ensures same { KeepsCall self.old self.new }
        ensures kept { IsKept self.new }
    {
        if word == 0 {
            self.find_op(round, turn, first, root, None);
        } else {
            self.words.clear();
            self.stage = Stage::DirOp(round, turn, first, root, word - 1);
        }
    }

    /// A word of the op row of the next seat.
    pub fn take_found_word(
        &mut self,
        round: Round,
        turn: u64,
        first: u64,
        root: u64,
        op: u64,
        word: u64,
    )
        requires used { AreBelow (2 ^ 62) self.old.used }
        requires kept { IsKept self.old }
        requires stage { self.old.stage ≡ Stage.DirOp round turn first root op }
        requires finds { Finds (setup_of self.old) (phase_of self.old) word }
        requires makes { Makes (setup_of self.old) (phase_then self.old word) }
        ensures phase { phase_of self.new ≡ phase_then self.old word }
        ensures same { KeepsCall self.old self.new }
        ensures kept { IsKept self.new }
    {
        self.words.push_reserved(word);
        if self.words.len() == OP_WORDS {
            let op = self.read_found();
            self.find_op(round, turn, first, root, Some(op));
        }
    }

    // The op of one more seat is found.
    fn find_op(&mut self, round: Round, turn: u64, first: u64, root: u64, op: Option<Op>)
        requires used { AreBelow (2 ^ 62) self.old.used }
        requires room { HasAllRoom self.old }
        requires call { CallStands self.old }
        requires goes { DirectoryGoesOn self.old }
        requires makes { Makes (setup_of self.old) (after_dir_found (setup_of self.old) round
            (directory_try_of turn first root (as_directory self.old.directory)) (more self.old.found.items op)) }
        ensures phase { phase_of self.new ≡ after_dir_found (setup_of self.old) round
            (directory_try_of turn first root (as_directory self.old.directory)) (more self.old.found.items op) }
        ensures same { KeepsCall self.old self.new }
        ensures kept { IsKept self.new }
    {
        self.found.push_reserved(op);
        if self.found.len() < self.seats() {
            self.stage = Stage::DirAnnouncement(round, turn, first, root);
        } else {
            self.many = 0;
            self.load_next(round, turn, first, root);
        }
    }

    /// One more word of the new leaves and the new directory row is stored.
    pub fn take_put(
        &mut self,
        round: Round,
        turn: u64,
        first: u64,
        root: u64,
        stored: u64,
        word: u64,
    )
        requires kept { IsKept self.old }
        requires stage { self.old.stage ≡ Stage.DirStore round turn first root stored }
        ensures phase { phase_of self.new ≡ phase_then self.old word }
        ensures same { KeepsCall self.old self.new }
        ensures kept { IsKept self.new }
    {
        self.stage = if stored + 1 < self.puts.len() as u64 {
            Stage::DirStore(round, turn, first, root, stored + 1)
        } else {
            Stage::DirExchange(round, turn, first, root)
        };
    }

    /// The exchange of the root.
    pub fn take_root(&mut self, round: Round, turn: u64, first: u64, root: u64, word: u64)
        requires kept { IsKept self.old }
        requires stage { self.old.stage ≡ Stage.DirExchange round turn first root }
        requires used { AreBelow (2 ^ 62) self.old.used }
        ensures phase { phase_of self.new ≡ phase_then self.old word }
        ensures used { self.new.used ≡ used_after (setup_of self.old) self.old.used (phase_of self.old) word }
        ensures flight { flight_of self.new ≡ flight_of self.old }
        ensures setup { setup_of self.new ≡ setup_of self.old }
        ensures seat { self.new.seat ≡ self.old.seat }
        ensures count { self.new.count ≡ self.old.count }
        ensures kept { IsKept self.new }
    {
        if word == root {
            let row = self.next_number(FullKind::BucketRows);
            let answer = self.answer_in_leaves(row);
            self.used = with_directory(&self.used, self.change.leaves().len() as u64);
            self.stage = match answer {
                Some((reply, place)) => Stage::StoreDone(reply, place),
                None => Stage::Stuck,
            };
        } else if turn == 1 {
            self.stage = Stage::DirRoot(round, 2, Some(first));
        } else {
            self.stage = after_round(round);
        }
    }
}
