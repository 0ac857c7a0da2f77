//! The change that a directory try makes, and the answer in one of its leaves.

ghost use Rattle.std.specs.Prelude.{◌≡◌, ◌<◌, ◌^◌};
ghost use Rattle.word_rows.specs.Shape.{AreBelow};
ghost use Rattle.bucket_states.specs.Items.{prefix_of};
ghost use Rattle.bucket_states.specs.States.{state_of};
ghost use Rattle.table_model.specs.DirectoryChange.{with_leaves};
ghost use Rattle.table_model.specs.Fits.{IsChange};
ghost use Rattle.table_model.specs.Goes.{answered_by_leaf, with_directory};
ghost use Rattle.table_model.specs.Leaves.{is_in};
ghost use Rattle.table_model.specs.Setup.{rules_of};
ghost use Rattle.table_model.specs.Stores.{made_leaves};
ghost use Rattle.dir_states.specs.Changes.{directory_of, leaves_of};
ghost use Rattle.dir_states.specs.Views.{as_directory};
ghost use Rattle.seat_machine.specs.Stages.{answer_phase, directory_try_of};

use crate::machine::Machine;
use crate::puts::{push_directory, push_leaves};
use bucket_states::Bucket;
use hash_bits::bits;
use plain_map::{FullKind, Key, Reply, Rules};
use step_counts::SeatRows;

impl Machine {
    ghost use Rattle.seat_machine.specs.Room.{HasAllRoom};
    ghost use Rattle.seat_machine.specs.Stands.{ChangeStands, LoadsOn};
    ghost use Rattle.seat_machine.specs.Steps.{KeepsCall};
    ghost use Rattle.seat_machine.specs.View.{flight_of, loaded_in, setup_of};

    /// The new leaves and the new directory, and all that is stored of them.
    pub fn make_change(&mut self, turn: u64, first: u64, root: u64)
        requires used { AreBelow (2 ^ 62) self.old.used }
        requires room { HasAllRoom self.old }
        requires loads { LoadsOn self.old }
        requires makes { IsChange (setup_of self.old) (directory_try_of turn first root
            (as_directory self.old.directory)) self.old.found.items (loaded_in self.old) }
        ensures change { ChangeStands self.new (directory_try_of turn first root
            (as_directory self.old.directory)) }
        ensures same { KeepsCall self.old self.new }
        ensures directory { self.new.directory ≡ self.old.directory }
        ensures found { self.new.found ≡ self.old.found }
        ensures loaded { loaded_in self.new ≡ loaded_in self.old }
        ensures room { HasAllRoom self.new }
    {
        let fresh = self.next_number(FullKind::BucketWords);
        self.change_leaves(turn, first, root, fresh);
        let row = self.next_number(FullKind::BucketRows);
        let number = self.next_number(FullKind::DirRows);
        push_leaves(
            &self.layout,
            &self.loaded[..self.many],
            fresh,
            row,
            self.change.leaves(),
            &mut self.row,
            &mut self.out,
            &mut self.puts,
        );
        push_directory(number, root, self.change.state(), &mut self.puts);
    }

    // The new leaves, and the new directory, where the first leaf has this number.
    fn change_leaves(&mut self, turn: u64, first: u64, root: u64, fresh: u64)
        requires room { HasAllRoom self.old }
        requires loads { LoadsOn self.old }
        requires fresh { fresh < 2 ^ 63 }
        requires makes { IsChange (setup_of self.old) (directory_try_of turn first root
            (as_directory self.old.directory)) self.old.found.items (loaded_in self.old) }
        ensures leaves { leaves_of self.new.change ≡ made_leaves (setup_of self.old) (directory_try_of turn first root
            (as_directory self.old.directory)) self.old.found.items (loaded_in self.old) }
        ensures state { directory_of self.new.change
            ≡ with_leaves fresh (leaves_of self.new.change) (as_directory self.old.directory) }
        ensures same { KeepsCall self.old self.new }
        ensures directory { self.new.directory ≡ self.old.directory }
        ensures found { self.new.found ≡ self.old.found }
        ensures loaded { loaded_in self.new ≡ loaded_in self.old }
        ensures buckets { self.new.loaded ≡ self.old.loaded }
        ensures many { self.new.many ≡ self.old.many }
        ensures room { HasAllRoom self.new }
    {
        let rules = self.rules();
        if !self.change.change(
            &rules,
            &self.directory,
            &self.loaded[..self.many],
            &self.found,
            fresh,
        ) {
            unreachable!()
        }
    }

    /// The new directory is the table's: the reply is that of the leaf of the key, and the leaf's row is told by its
    /// place.
    pub fn answer_in_leaves(&self, row: u64) -> Option<(Reply, u64)>
        requires { row < 2 ^ 63 }
        ensures { answer_phase result ≡ answered_by_leaf (rules_of (setup_of self.now)) self.now.seat
            (flight_of self.now) row (leaves_of self.now.change) }
    {
        let rules = self.rules();
        let leaves = self.change.leaves();
        for (i, leaf) in leaves.iter().enumerate() {
            if is_in(&rules, self.call.key(), &leaf.bucket) {
                return match leaf.bucket.replies.get(self.seat as usize) {
                    Some(Some(reply)) => Some((*reply, row + i as u64)),
                    _ => None,
                };
            }
        }
        None
    }
}

// Whether the key has the bucket's prefix.
fn is_in(rules: &Rules, key: &Key, bucket: &Bucket) -> bool
    ensures { result ≡ is_in rules.now key.now (state_of bucket.now) }
{
    prefix_in(rules, bucket.depth, key) == bucket.prefix
}

// The first bits of a key's hash, at any depth: from depth 64 on they are the hash itself.
#[tactic(auto, using(crate::proofs::PrefixLemmas::prefix_steps), unfolding(bucket_states::specs::Items::prefix_of))]
fn prefix_in(rules: &Rules, depth: u32, key: &Key) -> u64
    ensures { result ≡ prefix_of rules.now depth key.now }
{
    let hash = key.hash(&rules.hashing);
    if depth < 64 { bits(hash, depth) } else { hash }
}

/// With the rows and the words of so many new leaves, and with their directory row.
pub fn with_directory(used: &SeatRows, leaves: u64) -> SeatRows
    requires used { AreBelow (2 ^ 62) used.now }
    requires leaves { leaves < 2 ^ 62 }
    ensures { result ≡ with_directory used.now leaves }
{
    SeatRows {
        op_rows: used.op_rows,
        bucket_rows: used.bucket_rows + leaves,
        bucket_words: used.bucket_words + leaves,
        directory_rows: used.directory_rows + 1,
    }
}
