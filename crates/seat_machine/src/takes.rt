//! A step of a call, whatever its stage.

ghost use Rattle.std.specs.Prelude.{◌≡◌, ◌^◌, ◌<◌};
ghost use Rattle.table_model.specs.Fits.{Counts, Finds, Makes};
ghost use Rattle.table_model.specs.Program.{CanTake, answers, takes};
ghost use Rattle.seat_machine.specs.Stages.{IsCovered};

use crate::machine::Machine;
use crate::stage::Stage;
use plain_map::Record;

impl Machine {
    ghost use Rattle.seat_machine.specs.Stands.{IsKept};
    ghost use Rattle.seat_machine.specs.Steps.{Moves, Went};
    ghost use Rattle.seat_machine.specs.View.{flight_of, phase_of, phase_then, program_of, setup_of};

    /// Goes on after its step found this word, and answers where the call has ended with it.
    pub fn take(&mut self, word: u64) -> Option<Record>
        requires kept { IsKept self.old }
        requires fits { CanTake (program_of self.old) word }
        ensures value { program_of self.new ≡ takes (program_of self.old) word }
        ensures made { result ≡ answers (program_of self.old) word }
        ensures kept { IsKept self.new }
    {
        match self.stage {
            Stage::StoreDone(reply, place) => Some(self.end(reply, place)),
            stage => {
                self.go(stage, word);
                None
            }
        }
    }

    // A step that goes on.
    fn go(&mut self, stage: Stage, word: u64)
        requires kept { IsKept self.old }
        requires stage { self.old.stage ≡ stage }
        requires covered { IsCovered stage }
        requires finds { Finds (setup_of self.old) (phase_of self.old) word }
        requires makes { Makes (setup_of self.old) (phase_then self.old word) }
        requires counts { Counts (setup_of self.old) self.old.used (flight_of self.old) }
        requires steps { self.old.steps < 2 ^ 63 }
        ensures went { Went self.old self.new word }
        ensures kept { IsKept self.new }
    {
        self.dispatch(stage, word);
        self.steps += 1;
    }

    // The same, before the step is counted.
    fn dispatch(&mut self, stage: Stage, word: u64)
        requires kept { IsKept self.old }
        requires stage { self.old.stage ≡ stage }
        requires covered { IsCovered stage }
        requires finds { Finds (setup_of self.old) (phase_of self.old) word }
        requires makes { Makes (setup_of self.old) (phase_then self.old word) }
        requires counts { Counts (setup_of self.old) self.old.used (flight_of self.old) }
        ensures moves { Moves self.old self.new word }
        ensures kept { IsKept self.new }
    {
        match stage {
            Stage::SeeDone => self.take_done(word),
            Stage::Announce => self.take_announced(word),
            Stage::LookCount(row) => self.take_count(row, word),
            Stage::LookItems(row, count) => self.take_item_word(row, count, word),
            Stage::TryRow(round, turn, first, row) => {
                self.take_row_word(round, turn, first, row, word);
            }
            Stage::TryAnnouncement(round, turn, first, row) => {
                self.take_announcement(round, turn, first, row, word);
            }
            Stage::TryOp(round, turn, first, row, op) => {
                self.take_op_word(round, turn, first, row, op, word);
            }
            Stage::TryStore(round, turn, first, row, stored) => {
                self.take_stored(round, turn, first, row, stored, word);
            }
            Stage::TryExchange(round, turn, first, row) => {
                self.take_exchange(round, turn, first, row, word);
            }
            Stage::DirDepth(round, turn, first, root) => {
                self.take_depth(round, turn, first, root, word);
            }
            Stage::DirEntries(round, turn, first, root, depth) => {
                self.take_entry(round, turn, first, root, depth, word);
            }
            Stage::DirAnnouncement(round, turn, first, root) => {
                self.take_announced_op(round, turn, first, root, word);
            }
            Stage::DirOp(round, turn, first, root, op) => {
                self.take_found_word(round, turn, first, root, op, word);
            }
            Stage::DirRow(round, turn, first, root, bucket, row) => {
                self.take_loaded_word(round, turn, first, root, bucket, row, word);
            }
            Stage::DirStore(round, turn, first, root, stored) => {
                self.take_put(round, turn, first, root, stored, word);
            }
            Stage::DirExchange(round, turn, first, root) => {
                self.take_root(round, turn, first, root, word);
            }
            Stage::LastRow(row) => self.take_last_word(row, word),
            stage => self.pass(stage, word),
        }
    }
}
