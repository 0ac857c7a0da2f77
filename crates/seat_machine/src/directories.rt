//! The directory row of a directory try, word by word.

ghost use Rattle.std.specs.Prelude.{◌≡◌, ◌≤◌, [], length};
ghost use Rattle.table_model.specs.Fits.{Finds};
ghost use Rattle.table_model.specs.Goes.{after_directory};
ghost use Rattle.dir_states.specs.Views.{as_directory};
ghost use Rattle.seat_machine.specs.Stages.{directory_try_of, phase_at};

use crate::endings::after_round;
use crate::machine::Machine;
use crate::stage::Stage;
use table_model::Round;

impl Machine {
    ghost use Rattle.seat_machine.specs.Stands.{IsKept, StageStands};
    ghost use Rattle.seat_machine.specs.Steps.{KeepsCall};
    ghost use Rattle.seat_machine.specs.View.{flight_of, held_of, phase_of, phase_then, setup_of, sizes};

    /// The depth of a directory row.
    pub fn take_depth(&mut self, round: Round, turn: u64, first: u64, root: u64, word: u64)
        requires kept { IsKept self.old }
        requires stage { self.old.stage ≡ Stage.DirDepth round turn first root }
        requires finds { Finds (setup_of self.old) (phase_of self.old) word }
        ensures phase { phase_of self.new ≡ phase_then self.old word }
        ensures same { KeepsCall self.old self.new }
        ensures kept { IsKept self.new }
    {
        self.directory.depth = word as u32;
        self.directory.entries.clear();
        self.stage = Stage::DirEntries(round, turn, first, root, word);
    }

    /// An entry of a directory row.
    pub fn take_entry(
        &mut self,
        round: Round,
        turn: u64,
        first: u64,
        root: u64,
        depth: u64,
        word: u64,
    )
        requires kept { IsKept self.old }
        requires stage { self.old.stage ≡ Stage.DirEntries round turn first root depth }
        ensures phase { phase_of self.new ≡ phase_then self.old word }
        ensures same { KeepsCall self.old self.new }
        ensures kept { IsKept self.new }
    {
        self.directory.entries.push_reserved(word);
        if self.directory.entries.len() == 1 << depth {
            self.found.clear();
            self.stage = self.after_directory(round, turn, first, root);
        }
    }

    // A directory row is loaded whole: there is a try only where it still names the bucket of the round.
    fn after_directory(&self, round: Round, turn: u64, first: u64, root: u64) -> Stage
        requires found { self.now.found.items ≡ [] }
        requires depth { self.now.directory.depth ≤ (sizes self.now).depth }
        ensures phase { phase_at result (held_of self.now) ≡ after_directory (setup_of self.now) (flight_of self.now)
            round (directory_try_of turn first root (as_directory self.now.directory)) }
        ensures stands { StageStands self.now result }
    {
        if self.directory.bucket_of(&self.rules(), self.call.key()) == round.bucket {
            Stage::DirAnnouncement(round, turn, first, root)
        } else {
            after_round(round)
        }
    }
}
