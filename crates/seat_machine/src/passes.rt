//! The steps whose word is a number, or tells nothing; and how a bucket is found.

ghost use Rattle.std.specs.Prelude.{◌≡◌, ◌≤◌, ◌<◌, ◌^◌};
ghost use Rattle.bucket_states.specs.Items.{prefix_of as prefix_bits};
ghost use Rattle.table_model.specs.Fits.{Finds};
ghost use Rattle.table_model.specs.Goes.{after_find};
ghost use Rattle.seat_machine.specs.Stages.{Passes};

use crate::machine::Machine;
use crate::stage::Stage;
use hash_bits::bits;
use plain_map::{Key, Rules};
use step_counts::OP_WORDS;
use table_model::{Aim, Round};

impl Machine {
    ghost use Rattle.seat_machine.specs.Room.{HasAllRoom};
    ghost use Rattle.seat_machine.specs.Stands.{CallStands, IsKept};
    ghost use Rattle.seat_machine.specs.Steps.{KeepsCall, Moves};
    ghost use Rattle.seat_machine.specs.View.{phase_of, setup_of};

    /// A step whose word is a number, or tells nothing.
    pub fn pass(&mut self, stage: Stage, word: u64)
        requires kept { IsKept self.old }
        requires stage { self.old.stage ≡ stage }
        requires passes { Passes stage }
        requires finds { Finds (setup_of self.old) (phase_of self.old) word }
        ensures moves { Moves self.old self.new word }
        ensures kept { IsKept self.new }
    {
        match stage {
            Stage::StoreOp(stored) => {
                self.stage = if stored + 1 < OP_WORDS as u64 {
                    Stage::StoreOp(stored + 1)
                } else {
                    Stage::Announce
                };
            }
            Stage::FindRoot(aim) => self.stage = Stage::FindDepth(aim, word),
            Stage::FindDepth(aim, root) => self.stage = Stage::FindEntry(aim, root, word),
            Stage::FindEntry(aim, root, _) => self.find_bucket(aim, root, word),
            Stage::LookWord(_, _) => self.stage = Stage::LookCount(word),
            Stage::TryWord(round, turn, first) => {
                self.words.clear();
                self.stage = Stage::TryRow(round, turn, first.unwrap_or(word), word);
            }
            Stage::DirRoot(round, turn, first) => {
                self.stage = Stage::DirDepth(round, turn, first.unwrap_or(word), word);
            }
            Stage::DirWord(round, turn, first, root, bucket) => {
                self.words.clear();
                self.stage = Stage::DirRow(round, turn, first, root, bucket, word);
            }
            Stage::LastWord(_, _) => {
                self.words.clear();
                self.stage = Stage::LastRow(word);
            }
            _ => {}
        }
    }

    // The bucket is found.
    fn find_bucket(&mut self, aim: Aim, root: u64, bucket: u64)
        requires room { HasAllRoom self.old }
        requires call { CallStands self.old }
        ensures phase { phase_of self.new ≡ after_find aim root bucket }
        ensures same { KeepsCall self.old self.new }
        ensures kept { IsKept self.new }
    {
        self.stage = match aim {
            Aim::ForLookup => Stage::LookWord(root, bucket),
            Aim::ForFirstRound => {
                let round = Round {
                    turn: 1,
                    first: root,
                    root,
                    bucket,
                };
                Stage::TryWord(round, 1, None)
            }
            Aim::ForSecondRound(first) => {
                let round = Round {
                    turn: 2,
                    first,
                    root,
                    bucket,
                };
                Stage::TryWord(round, 1, None)
            }
            Aim::ForLastLook => Stage::LastWord(root, bucket),
        };
    }
}

/// The first bits of a key's hash.
#[tactic(auto, unfolding(bucket_states::specs::Items::prefix_of))]
pub fn prefix_at(rules: &Rules, depth: u32, key: &Key) -> u64
    requires { depth ≤ 32 }
    ensures value { result ≡ prefix_bits rules.now depth key.now }
    ensures few { result < 2 ^ 32 }
{
    bits(key.hash(&rules.hashing), depth)
}
