//! The fields of an adder's program: where it stands, and buffers for the words that it loads.
//!
//! The buffers have their whole room from the start, so that no step takes memory.

ghost use Rattle.std.specs.Prelude.{◌≡◌, ◌≢◌, ℕ, ◌+◌, ◌-◌, ◌*◌, ◌^◌, ◌<◌, ◌≤◌, length, slice_index, slice_index_or, IfOk, vec_len, vec_capacity, take, replicate, ◌++◌, ◌∷◌, [], false};
ghost use Rattle.sim_steps.specs.Layout.{row_words};
ghost use Rattle.sim_steps.specs.Program.{Idle, answer_of, op_of, op_words, is_last, after_row, after_found};
ghost use Rattle.sim_steps.specs.Machine.{IsDesk, IsFit, Machine, made_at, begins, asks, takes, answers};

use crate::adds::{Add, Added, Op};
use crate::rows::make_row;
use crate::words::{Address, Ask, Desk};
use std::alloc::{AllocError, Global};

/// Where a program stands: the word that it takes next.
///
/// A turn is a try, from 0: after two that were lost a third look finds the add in the row.
#[derive(Clone, Copy)]
pub enum Stage {
    /// It has no add.
    Idle,
    /// The done word of the seat after those in `seen`.
    LoadDone,
    /// This word of its op row, from 0.
    StoreOp(u64),
    /// Its announcement.
    Announce,
    /// The root, in this turn.
    LoadRoot(u64),
    /// In this turn, of this state row, the word after those in `row`.
    LoadRow(u64, u64),
    /// In this turn, which began at this state row, the announcement of the seat after those in `found`.
    LoadAnnouncement(u64, u64),
    /// So too, of this op row, the word after those in `words`.
    LoadOp(u64, u64, u64),
    /// So too, this word of the state row that it makes.
    StoreRow(u64, u64, u64),
    /// So too, the root, to be exchanged for that row.
    Publish(u64, u64),
    /// Its done word. The count that the add is answered stands in the row already.
    StoreDone(u64),
}

/// An adder's program: what it knows of its table, where it stands, and what it has loaded.
#[derive(Drop)]
pub struct Program {
    /// Its seat, how many seats and rows there are, and where its own rows begin.
    pub desk: Desk,
    /// How many adds it has begun.
    pub number: u32,
    /// How many of its state rows it has published.
    pub made: u32,
    /// The add that it is in, or was in last.
    pub add: Add,
    /// The steps of that add so far.
    pub steps: u64,
    /// Where it stands.
    pub stage: Stage,
    /// The done words that this add has loaded.
    pub seen: Vec<u32>,
    /// The words of a state row: as many as were loaded, or all of the row that it makes.
    pub row: Vec<u64>,
    /// For each seat that was gone through in this turn its op, with number 0 where it announces none.
    pub found: Vec<Op>,
    /// The words of an op row that were loaded.
    pub words: Vec<u64>,
}

impl Program {
    ghost use Rattle.sim_steps.specs.Fields.{machine_of, IsKept, HasRoom, Passes, phase_of};

    /// A program that has made no add, with room for all that it will load.
    pub fn new(alloc: Global, desk: Desk) -> Result<Program, AllocError>
        requires { IsDesk desk }
        ensures value { IfOk result (λ p. machine_of p ≡ made_at desk) }
        ensures kept { IfOk result IsKept }
    {
        let seats = desk.seats as usize;
        Ok(Program {
            desk,
            number: 0,
            made: 0,
            add: Add {
                packet: 0,
                class: 0,
                length: 0,
            },
            steps: 0,
            stage: Stage::Idle,
            seen: Vec::with_capacity(alloc, seats)?,
            row: Vec::with_capacity(alloc, 7 + 2 * seats)?,
            found: Vec::with_capacity(alloc, seats)?,
            words: Vec::with_capacity(alloc, 3)?,
        })
    }

    /// Begins an add. This takes no step.
    pub fn begin(&mut self, add: Add)
        requires kept { IsKept self.old }
        requires idle { (machine_of self.old).phase ≡ Idle }
        requires number { self.old.number + 1 < 2 ^ 32 }
        ensures value { machine_of self.new ≡ begins add (machine_of self.old) }
        ensures kept { IsKept self.new }
    {
        self.number += 1;
        self.add = add;
        self.steps = 0;
        self.seen.clear();
        self.stage = Stage::LoadDone;
    }

    /// What it asks of the words next.
    pub fn next(&self) -> Ask
        requires { IsKept self.now }
        ensures { result ≡ asks (machine_of self.now) }
    {
        match self.stage {
            Stage::Idle => Ask::Load(Address::Root),
            Stage::LoadDone => Ask::Load(Address::Done(self.seen.len() as u64)),
            Stage::StoreOp(i) => { Ask::Store(Address::OpWord(self.op_row(), i), self.op_word(i)) }
            Stage::Announce => Ask::Store(Address::Announcement(self.desk.seat), self.op_row() + 1),
            Stage::LoadRoot(_) => Ask::Load(Address::Root),
            Stage::LoadRow(_, root) => {
                Ask::Load(Address::StateWord(root, self.row.len() as u64))
            }
            Stage::LoadAnnouncement(_, _) => {
                Ask::Load(Address::Announcement(self.found.len() as u64))
            }
            Stage::LoadOp(_, _, op) => Ask::Load(Address::OpWord(op, self.words.len() as u64)),
            Stage::StoreRow(_, _, i) => Ask::Store(
                Address::StateWord(self.state_row(), i),
                word_at(&self.row, i),
            ),
            Stage::Publish(_, root) => Ask::Exchange(root, self.state_row()),
            Stage::StoreDone(_) => { Ask::Store(Address::Done(self.desk.seat), self.number as u64) }
        }
    }

    /// Goes on after a step, which told this word, and answers where the add has ended with it.
    pub fn take(&mut self, word: u64) -> Option<Added>
        requires kept { IsKept self.old }
        requires busy { (machine_of self.old).phase ≢ Idle }
        ensures value { machine_of self.new ≡ takes (machine_of self.old) word }
        ensures answer { result ≡ answers (machine_of self.old) }
        ensures kept { IsKept self.new }
    {
        match self.stage {
            Stage::Idle => None,
            Stage::StoreDone(count) => Some(self.end(count)),
            stage => {
                self.go_on(stage, word);
                None
            }
        }
    }

    // The done word is stored, and the add has ended with this count.
    fn end(&mut self, count: u64) -> Added
        requires kept { IsKept self.old }
        requires stage { self.old.stage ≡ Stage.StoreDone count }
        ensures value { machine_of self.new ≡ takes (machine_of self.old) 0 }
        ensures answer { result ≡ answer_of self.old.desk.seat (machine_of self.old).caller (self.old.steps + 1) count }
        ensures room { HasRoom self.new }
    {
        self.steps += 1;
        self.stage = Stage::Idle;
        Added {
            seat: self.desk.seat as u32,
            number: self.number,
            add: self.add,
            count,
            steps: self.steps,
            seen: padded(&self.seen),
        }
    }

    // A step that is not the last of an add.
    fn go_on(&mut self, stage: Stage, word: u64)
        requires kept { IsKept self.old }
        requires stage { self.old.stage ≡ stage }
        requires last { is_last (machine_of self.old).phase ≡ false }
        ensures value { machine_of self.new ≡ takes (machine_of self.old) word }
        ensures room { HasRoom self.new }
    {
        match stage {
            Stage::LoadDone => self.take_done(word),
            Stage::LoadRow(turn, root) => self.take_row_word(turn, root, word),
            Stage::LoadAnnouncement(turn, root) => self.take_announcement(turn, root, word),
            Stage::LoadOp(turn, root, op) => self.take_op_word(turn, root, op, word),
            Stage::Publish(turn, root) => self.take_exchange(turn, root, word),
            stage => self.pass(stage, word),
        }
    }

    // A step whose word is a root, or one that tells nothing.
    fn pass(&mut self, stage: Stage, word: u64)
        requires kept { IsKept self.old }
        requires stage { self.old.stage ≡ stage }
        requires passes { Passes stage }
        ensures value { machine_of self.new ≡ takes (machine_of self.old) word }
        ensures room { HasRoom self.new }
    {
        self.steps += 1;
        match stage {
            Stage::StoreOp(i) => {
                self.stage = if i < 2 {
                    Stage::StoreOp(i + 1)
                } else {
                    Stage::Announce
                };
            }
            Stage::Announce => self.stage = Stage::LoadRoot(0),
            Stage::LoadRoot(turn) => {
                self.row.clear();
                self.stage = Stage::LoadRow(turn, word);
            }
            Stage::StoreRow(turn, root, i) => {
                self.stage = if i + 1 < 7 + 2 * self.desk.seats {
                    Stage::StoreRow(turn, root, i + 1)
                } else {
                    Stage::Publish(turn, root)
                };
            }
            _ => {}
        }
    }

    // A done word is loaded. After that of the last seat the op is stored.
    fn take_done(&mut self, word: u64)
        requires kept { IsKept self.old }
        requires stage { self.old.stage ≡ Stage.LoadDone }
        ensures value { machine_of self.new ≡ takes (machine_of self.old) word }
        ensures room { HasRoom self.new }
    {
        let more = (self.seen.len() as u64) + 1 < self.desk.seats;
        self.seen.push_reserved((word % (1 << 32)) as u32);
        if !more {
            self.stage = Stage::StoreOp(0);
        }
        self.steps += 1;
    }

    // A word of a state row is loaded.
    fn take_row_word(&mut self, turn: u64, root: u64, word: u64)
        requires kept { IsKept self.old }
        requires stage { self.old.stage ≡ Stage.LoadRow turn root }
        ensures value { machine_of self.new ≡ takes (machine_of self.old) word }
        ensures room { HasRoom self.new }
    {
        let more = (self.row.len() as u64) + 1 < 7 + 2 * self.desk.seats;
        self.row.push_reserved(word);
        if !more {
            self.found.clear();
            self.stage = self.after_row(turn, root);
        }
        self.steps += 1;
    }

    // A state row is loaded whole.
    fn after_row(&self, turn: u64, root: u64) -> Stage
        requires { self.now.desk.seat < 8 }
        ensures { phase_of result self.now.row.items [] self.now.words.items ≡ after_row self.now.desk
            (machine_of self.now).caller turn root self.now.row.items }
    {
        let seat = self.desk.seat;
        let reply = word_at(&self.row, 8 + 2 * seat);
        if self.number as u64 <= word_at(&self.row, 7 + 2 * seat) {
            Stage::StoreDone(reply)
        } else if turn < 2 {
            Stage::LoadAnnouncement(turn, root)
        } else {
            Stage::StoreDone(reply)
        }
    }

    // An announcement is loaded: 0 for none, or else one more than the number of an op row.
    fn take_announcement(&mut self, turn: u64, root: u64, word: u64)
        requires kept { IsKept self.old }
        requires stage { self.old.stage ≡ Stage.LoadAnnouncement turn root }
        ensures value { machine_of self.new ≡ takes (machine_of self.old) word }
        ensures room { HasRoom self.new }
    {
        self.steps += 1;
        if word == 0 {
            self.find(
                turn,
                root,
                Op {
                    number: 0,
                    class: 0,
                    length: 0,
                },
            );
        } else {
            self.words.clear();
            self.stage = Stage::LoadOp(turn, root, word - 1);
        }
    }

    // A word of an op row is loaded. After the third its op is found.
    fn take_op_word(&mut self, turn: u64, root: u64, op: u64, word: u64)
        requires kept { IsKept self.old }
        requires stage { self.old.stage ≡ Stage.LoadOp turn root op }
        ensures value { machine_of self.new ≡ takes (machine_of self.old) word }
        ensures room { HasRoom self.new }
    {
        self.steps += 1;
        if self.words.len() < 2 {
            self.words.push_reserved(word);
        } else {
            let number = word_at(&self.words, 0);
            let class = word_at(&self.words, 1);
            self.find(
                turn,
                root,
                Op {
                    number,
                    class,
                    length: word,
                },
            );
        }
    }

    // The op of one more seat is found. After that of the last seat the new row is made.
    fn find(&mut self, turn: u64, root: u64, op: Op)
        requires few { vec_len self.old.found < self.old.desk.seats }
        requires row { vec_len self.old.row ≡ row_words self.old.desk.seats }
        requires room { HasRoom self.old }
        ensures phase { (machine_of self.new).phase ≡ after_found self.old.desk turn root self.old.row.items
            (self.old.found.items ++ op ∷ []) }
        ensures caller { (machine_of self.new).caller ≡ (machine_of self.old).caller }
        ensures desk { self.new.desk ≡ self.old.desk }
        ensures steps { self.new.steps ≡ self.old.steps }
        ensures room { HasRoom self.new }
    {
        self.found.push_reserved(op);
        if (self.found.len() as u64) < self.desk.seats {
            self.stage = Stage::LoadAnnouncement(turn, root);
        } else {
            make_row(&mut self.row, root, &self.found);
            self.stage = Stage::StoreRow(turn, root, 0);
        }
    }

    // The exchange of the root told this word. Won, the add is answered from the row that was made; or else the next
    // turn begins.
    fn take_exchange(&mut self, turn: u64, root: u64, word: u64)
        requires kept { IsKept self.old }
        requires stage { self.old.stage ≡ Stage.Publish turn root }
        ensures value { machine_of self.new ≡ takes (machine_of self.old) word }
        ensures room { HasRoom self.new }
    {
        if word == root {
            self.made += 1;
            self.stage = Stage::StoreDone(word_at(&self.row, 8 + 2 * self.desk.seat));
        } else {
            self.stage = Stage::LoadRoot(turn + 1);
        }
        self.steps += 1;
    }

    // The number of its op row.
    #[tactic(auto, unfolding(crate::specs::Layout::op_row))]
    fn op_row(&self) -> u64
        requires { IsKept self.now }
        ensures row { result ≡ Rattle.sim_steps.specs.Layout.op_row self.now.desk (self.now.number - 1) }
        ensures small { result < 2 ^ 63 }
    {
        self.desk.before + self.number.saturating_sub(1) as u64
    }

    // The number of the state row that it makes next.
    #[tactic(auto, unfolding(crate::specs::Layout::state_row))]
    fn state_row(&self) -> u64
        requires { IsKept self.now }
        ensures { result ≡ Rattle.sim_steps.specs.Layout.state_row self.now.desk self.now.made }
    {
        1 + (self.desk.before + self.made as u64)
    }

    // A word of its op.
    fn op_word(&self, i: u64) -> u64
        ensures { result ≡ slice_index (op_words (op_of (machine_of self.now).caller)) i }
    {
        match i {
            0 => self.number as u64,
            1 => self.add.class as u64,
            2 => self.add.length as u64,
            _ => 0,
        }
    }
}

// A word of a row, 0 past its end.
fn word_at(row: &Vec<u64>, i: u64) -> u64
    ensures { result ≡ slice_index row.now.items i }
{
    row.get(i as usize).copied().unwrap_or(0)
}

// The done words that were loaded, then zeros.
fn padded(seen: &Vec<u32>) -> [u32; 8]
    requires { vec_len seen.now ≤ 8 }
    ensures { result ≡ seen.now.items ++ replicate (8 - vec_len seen.now) 0 }
{
    let mut all = [0; 8];
    for i in 0..seen.len() {
        all[i] = seen[i];
    }
    all
}
