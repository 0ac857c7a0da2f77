//! What the batches so far came to: the table, its callers, and what is counted.

ghost use Rattle.std.specs.Prelude.{◌≡◌, ◌∷◌, ◌<◌, ◌≤◌, [], ℕ, List, length, IfOk, OnOk, Some, vec_len, vec_capacity};
ghost use Rattle.std.specs.Option.{ForSome};
ghost use Rattle.step_counts.specs.Made.{IsMadeOf};
ghost use Rattle.map_laws.specs.ByKey.{Made};
ghost use Rattle.lasting_table.specs.Parties.{PartyValue};
ghost use Rattle.lasting_table.specs.Meetings.{AreSeatsOf, HaveMet};
ghost use Rattle.flow_workers.specs.Counts.{counts_of};
ghost use Rattle.report_text.specs.Flows.{flows_head};
ghost use Rattle.flows_runner.specs.Asked.{CanBeAsked, dealing_way, head_of, rules_of};
ghost use Rattle.flows_runner.specs.Blocks.{block_counts, is_place};
ghost use Rattle.flows_runner.specs.Hands.{AreWorkersOf, CanTake, HasHandedOut, HasTaken, HaveFew};
ghost use Rattle.flows_runner.specs.Served.{Served};
ghost use Rattle.flows_runner.specs.Going.{HasRested, HaveSeats, IsDone, IsFlowing, IsGoing, IsSameJob, StandsAtEnd, StandsBehind, TellsServed, block_in, job_way};

use crate::asked::Asked;
use crate::blocks::Block;
use crate::pile::empty_shares;
use flow_workers::{FlowWorker, ReplyCounts};
use hash_bits::Hashing;
use lasting_table::{LastingTable, Seat, Uncopied, rows_for};
use plain_map::{Call, Pair};
use report_text::{FlowCounts, FlowsHead};
use std::alloc::{AllocError, Global};
use step_counts::Settings;

/// What the batches so far came to.
#[derive(Drop)]
pub struct Flowing {
    pub alloc: Global,
    pub asked: Asked,
    /// `None` while a batch is served.
    pub table: Option<LastingTable>,
    /// The table's seats in order; none while a batch is served.
    pub seats: Vec<Seat>,
    /// An empty list for each seat, with room for the calls of a batch; none while a batch is served.
    pub spare: Vec<Vec<Call>>,
    /// How many calls had each reply.
    pub replies: ReplyCounts,
    /// How many packets were served, and how many calls they made.
    pub packets: u64,
    pub calls: u64,
}

impl Flowing {
    /// Opens the table, on which nothing has happened, with room for so many calls of each seat. The only error is want
    /// of memory.
    pub fn new(alloc: Global, asked: &Asked, room: usize) -> Result<Flowing, AllocError>
        requires { CanBeAsked asked.now }
        ensures going { IfOk result (λ flowing. IsGoing flowing 0) }
        ensures done { IfOk result (λ flowing. (text : List ℕ) → text ≡ flows_head (head_of asked.now) →
            IsDone flowing asked.now [] text) }
        ensures way { IfOk result (λ flowing. job_way flowing
            ≡ dealing_way asked.now.seats (rules_of asked.now) asked.now.calling) }
    {
        let settings = settings_of(asked);
        let rows = rows_for(&settings);
        let (table, seats) = LastingTable::open(alloc, &settings, Hashing::Mix(asked.seed), rows)?;
        Ok(Flowing {
            alloc,
            asked: *asked,
            table: Some(table),
            seats,
            spare: empty_shares(alloc, asked.seats, room)?,
            replies: ReplyCounts::none(),
            packets: 0,
            calls: 0,
        })
    }

    /// Whether a block stands behind the packets so far.
    pub fn is_due(&self) -> bool
        requires { ForSome self.now.asked.every (λ every. 0 < every) }
        ensures { result ≡ is_place self.now.asked.every self.now.packets }
    {
        match self.asked.every {
            Some(every) => self.packets > 0 && self.packets % every == 0,
            None => false,
        }
    }

    /// The block that tells of the packets so far. The only error is want of memory.
    ///
    /// The table is at rest: all its seats are here.
    pub fn block(&mut self, table: &LastingTable) -> Result<Block, AllocError>
        requires going { (packets : List (List ℕ)) × (blocks : ℕ) × (served : Served)
            × IsFlowing self.old (Some table.now) self.old.seats.items packets blocks served }
        ensures same { OnOk result (IsSameJob self.old self.new) }
        ensures block { IfOk result (λ block. (packets : List (List ℕ)) (blocks : ℕ) (served : Served) →
            IsFlowing self.old (Some table.now) self.old.seats.items packets blocks served →
            TellsServed self.old.asked packets served (block_in block)
            × HasRested self.new table.now self.new.seats.items packets blocks served) }
    {
        let mut pairs = match table.pairs_at_rest(self.alloc, self.seats.as_mut_slice()) {
            Ok(pairs) => pairs,
            Err(Uncopied::Memory) => return Err(AllocError),
            Err(Uncopied::Asked) => unreachable!(),
        };
        pairs.sort_unstable_by_key(|pair| pair.key);
        Ok(Block {
            at: self.packets,
            pairs,
            counts: self.counts(),
        })
    }

    /// The block behind a batch of so many packets, if one stands there. The only error is want of memory.
    ///
    /// The table is at rest: all its seats are here.
    pub fn block_behind(
        &mut self,
        table: &LastingTable,
        kept: u32,
    ) -> Result<Option<Block>, AllocError>
        requires every { ForSome self.old.asked.every (λ every. 0 < every) }
        requires going { (packets : List (List ℕ)) × (blocks : ℕ) × (served : Served)
            × IsFlowing self.old (Some table.now) self.old.seats.items packets blocks served }
        ensures same { OnOk result (IsSameJob self.old self.new) }
        ensures block { IfOk result (λ closed. (packets : List (List ℕ)) (blocks : ℕ) (served : Served) →
            IsFlowing self.old (Some table.now) self.old.seats.items packets blocks served →
            StandsBehind self.old self.new table.now packets blocks served kept closed) }
    {
        if kept > 0 && self.is_due() {
            return Ok(Some(self.block(table)?));
        }
        Ok(None)
    }

    /// The block at the end, if none stands there yet. The only error is want of memory.
    pub fn block_at_end(&mut self) -> Result<Option<Block>, AllocError>
        requires going { (many : ℕ) × IsGoing self.old many }
        ensures block { IfOk result (λ closed. (packets : List (List ℕ)) (blocks : ℕ) (served : Served) →
            IsFlowing self.old self.old.table self.old.seats.items packets blocks served →
            StandsAtEnd self.old packets served closed) }
    {
        if self.is_due() {
            return Ok(None);
        }
        let Some(table) = self.table.take() else {
            unreachable!()
        };
        let block = self.block(&table)?;
        self.table = Some(table);
        Ok(Some(block))
    }

    /// What a block counts of the packets so far.
    fn counts(&self) -> FlowCounts
        requires few { self.now.calls ≤ self.now.packets }
        ensures { (made : List Made) → self.now.calls ≡ length made → self.now.replies ≡ counts_of made →
            result ≡ block_counts self.now.packets made }
    {
        FlowCounts {
            packets: self.packets,
            calls: self.calls,
            passed: self.packets - self.calls,
            new: self.replies.new,
            old: self.replies.old,
            noroom: self.replies.noroom,
            gone: self.replies.gone,
            found: self.replies.found,
            absent: self.replies.absent,
            sum: self.replies.sum,
        }
    }

    /// A worker for each seat and its share, in the order of the seats. The shares lie where empty lists lay.
    pub fn hand_out(&mut self, mut workers: Vec<FlowWorker>) -> Vec<FlowWorker>
        requires none { workers.items ≡ [] }
        requires room { vec_len self.old.seats ≤ vec_capacity workers }
        requires as_many { vec_len self.old.spare ≡ vec_len self.old.seats }
        ensures workers { AreWorkersOf self.old.seats.items self.old.spare.items result.items }
        ensures away { HasHandedOut self.old self.new }
    {
        while let Some(seat) = self.seats.pop() {
            let Some(calls) = self.spare.pop() else {
                unreachable!()
            };
            workers.push_reserved(FlowWorker {
                seat: Some(seat),
                calls,
                replies: ReplyCounts::none(),
            });
        }
        workers.reverse();
        workers
    }

    /// Takes the seats of workers that are through, which meet then, and their lists, and counts their replies.
    pub fn take_back(&mut self, table: &LastingTable, mut workers: Vec<FlowWorker>)
        requires seats { (seats : List PartyValue) × HaveSeats workers.items seats × AreSeatsOf table.now seats }
        requires few { HaveFew workers.items }
        requires room { CanTake self.old (vec_len workers) }
        ensures taken { HasTaken self.old self.new workers.items }
        ensures met { (seats : List PartyValue) → HaveSeats workers.items seats →
            HaveMet table.now seats self.new.seats.items }
    {
        while let Some(worker) = workers.pop() {
            let FlowWorker {
                seat,
                mut calls,
                replies,
            } = worker;
            let Some(seat) = seat else { unreachable!() };
            self.calls += calls.len() as u64;
            calls.clear();
            self.replies.add(&replies);
            self.seats.push_reserved(seat);
            self.spare.push_reserved(calls);
        }
        self.seats.reverse();
        self.spare.reverse();
        table.meet(self.seats.as_mut_slice());
    }
}

/// The settings of the table.
fn settings_of(asked: &Asked) -> Settings
    requires { CanBeAsked asked.now }
    ensures made { IsMadeOf result asked.now.seats asked.now.items asked.now.depth asked.now.depth }
{
    match Settings::new(asked.seats, asked.items, asked.depth, asked.depth) {
        Ok(settings) => settings,
        Err(_) => unreachable!(),
    }
}

/// What the head line tells.
pub(crate) fn head_of(asked: &Asked) -> FlowsHead
    ensures { result ≡ head_of asked.now }
{
    FlowsHead {
        seats: asked.seats,
        items: asked.items,
        depth: asked.depth,
        seed: asked.seed,
        calls: asked.calling.calls,
        every: asked.every,
    }
}
