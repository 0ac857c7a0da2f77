//! The done words, the announcement, and a lookup's items.

ghost use Rattle.std.specs.Prelude.{◌≡◌, ◌+◌, ◌*◌, ◌^◌, ◌≤◌, ◌<◌, length, vec_capacity};
ghost use Rattle.step_counts.specs.declared.TheConstants.{ITEM_WORDS as WORDS};
ghost use Rattle.word_rows.specs.BucketWords.{items_of_words};
ghost use Rattle.word_rows.specs.Shape.{AreBelow};
ghost use Rattle.bucket_states.specs.Items.{reply_in};
ghost use Rattle.table_model.specs.Fits.{Finds};
ghost use Rattle.table_model.specs.Goes.{more, used_after};
ghost use Rattle.table_model.specs.Setup.{rules_of};

use crate::machine::Machine;
use crate::stage::Stage;
use plain_map::{Call, Pair, Reply};
use step_counts::ITEM_WORDS;
use table_model::Aim;
use word_rows::{OpRow, read_pair, write_op};

impl Machine {
    ghost use Rattle.seat_machine.specs.Room.{HasAllRoom};
    ghost use Rattle.seat_machine.specs.Stands.{CallStands, IsKept};
    ghost use Rattle.seat_machine.specs.Steps.{KeepsCall};
    ghost use Rattle.seat_machine.specs.View.{flight_of, phase_of, phase_then, setup_of, sizes};

    /// A done word.
    pub fn take_done(&mut self, word: u64)
        requires kept { IsKept self.old }
        requires stage { self.old.stage ≡ Stage.SeeDone }
        requires finds { Finds (setup_of self.old) (phase_of self.old) word }
        requires number { self.old.number < 2 ^ 32 }
        ensures phase { phase_of self.new ≡ phase_then self.old word }
        ensures flight { flight_of self.new ≡ record (flight_of self.old) { seen = more self.old.seen.items word } }
        ensures setup { setup_of self.new ≡ setup_of self.old }
        ensures seat { self.new.seat ≡ self.old.seat }
        ensures count { self.new.count ≡ self.old.count }
        ensures used { self.new.used ≡ self.old.used }
        ensures kept { IsKept self.new }
    {
        self.seen.push_reserved(word as u32);
        if self.seen.len() == self.seats() {
            if matches!(self.call, Call::Lookup(_)) {
                self.stage = Stage::FindRoot(Aim::ForLookup);
            } else {
                let row = OpRow {
                    number: self.number as u64,
                    call: self.call,
                };
                write_op(&row, &mut self.op);
                self.stage = Stage::StoreOp(0);
            }
        }
    }

    /// The announcement is stored.
    pub fn take_announced(&mut self, word: u64)
        requires kept { IsKept self.old }
        requires stage { self.old.stage ≡ Stage.Announce }
        requires used { AreBelow (2 ^ 62) self.old.used }
        ensures phase { phase_of self.new ≡ phase_then self.old word }
        ensures used { self.new.used ≡ used_after (setup_of self.old) self.old.used (phase_of self.old) word }
        ensures flight { flight_of self.new ≡ flight_of self.old }
        ensures setup { setup_of self.new ≡ setup_of self.old }
        ensures seat { self.new.seat ≡ self.old.seat }
        ensures count { self.new.count ≡ self.old.count }
        ensures kept { IsKept self.new }
    {
        self.used.op_rows += 1;
        self.stage = Stage::FindRoot(Aim::ForFirstRound);
    }

    /// The count of a row's items.
    pub fn take_count(&mut self, row: u64, word: u64)
        requires kept { IsKept self.old }
        requires stage { self.old.stage ≡ Stage.LookCount row }
        requires finds { Finds (setup_of self.old) (phase_of self.old) word }
        ensures phase { phase_of self.new ≡ phase_then self.old word }
        ensures same { KeepsCall self.old self.new }
        ensures kept { IsKept self.new }
    {
        self.words.clear();
        if word > 0 {
            self.stage = Stage::LookItems(row, word);
        } else {
            let reply = self.reply(0);
            self.stage = Stage::StoreDone(reply, row);
        }
    }

    /// A word of a row's items.
    pub fn take_item_word(&mut self, row: u64, count: u64, word: u64)
        requires kept { IsKept self.old }
        requires stage { self.old.stage ≡ Stage.LookItems row count }
        ensures phase { phase_of self.new ≡ phase_then self.old word }
        ensures same { KeepsCall self.old self.new }
        ensures kept { IsKept self.new }
    {
        self.words.push_reserved(word);
        if self.words.len() == count as usize * ITEM_WORDS {
            let reply = self.reply(count as usize);
            self.stage = Stage::StoreDone(reply, row);
        }
    }

    // The reply by the items that the words spell.
    fn reply(&mut self, count: usize) -> Reply
        requires words { count * WORDS ≤ length self.old.words.items }
        requires room { HasAllRoom self.old }
        requires few { count ≤ (sizes self.old).items }
        ensures reply { result ≡ reply_in (rules_of (setup_of self.old)) (items_of_words count self.old.words.items)
            self.old.call }
        ensures same { KeepsCall self.old self.new }
        ensures words { self.new.words ≡ self.old.words }
        ensures stage { self.new.stage ≡ self.old.stage }
        ensures call { CallStands self.old → CallStands self.new }
        ensures room { HasAllRoom self.new }
    {
        fill_items(&self.words, count, &mut self.base.items);
        let rules = self.rules();
        self.base.reply(&rules, &self.call)
    }
}

// So many items that the words spell.
fn fill_items(words: &[u64], count: usize, into: &mut Vec<Pair>)
    requires words { count * WORDS ≤ length words.now }
    requires room { count ≤ vec_capacity into.old }
    ensures items { into.new.items ≡ items_of_words count words.now }
    ensures capacity { vec_capacity into.new ≡ vec_capacity into.old }
{
    into.clear();
    for i in 0..count {
        into.push_reserved(read_pair(&words[i * ITEM_WORDS..(i + 1) * ITEM_WORDS]));
    }
}
