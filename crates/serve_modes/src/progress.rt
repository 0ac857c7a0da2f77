//! What is kept of the batches that were served.

ghost use Rattle.std.specs.Prelude.{◌≡◌, ◌≤◌, ◌+◌, List, [], ◌∷◌, ◌++◌, length};
ghost use Rattle.batch_deals.specs.declared.service.Service.{Service};
ghost use Rattle.batch_runner.specs.Served.{IsServed, Served};
ghost use Rattle.batch_runner.specs.Told.{CanGoOn, IsToldBy};
ghost use Rattle.capture_loop.specs.declared.job.TheConstants.{MOST_BATCH, PACKET_LIMIT};

use batch_deals::Service;
use batch_runner::{Batch, Totals, go_on};
use plain_map::{Call, MOST_SEATS, Pair};
use std::alloc::Global;

/// What the batches so far came to.
#[derive(Drop)]
pub(crate) struct Progress {
    /// How many calls each seat has answered.
    pub before: [u32; MOST_SEATS],
    /// The pairs that are left, in the order of their keys.
    pub pairs: Vec<Pair>,
    pub totals: Totals,
    /// Of the last table, how many leaves it has, and how deep its directory is.
    pub leaves: u64,
    pub depth: u32,
}

impl Progress {
    ghost use Rattle.serve_modes.specs.Progress.{HasServed, HasTexts, IsGoing};

    /// None yet.
    pub fn new(alloc: Global) -> Progress
        ensures served { (service : Service) → HasServed service result [] }
        ensures going { (service : Service) → IsGoing service result }
        ensures calls { result.totals.calls ≡ 0 }
    {
        Progress {
            before: [0; MOST_SEATS],
            pairs: Vec::new(alloc),
            totals: Totals::new(),
            leaves: 0,
            depth: 0,
        }
    }

    /// Keeps what a batch of these calls came to.
    pub fn keep(&mut self, service: &Service, calls: &[(u32, Call)], batch: Batch)
        requires few { length calls.now ≤ MOST_BATCH }
        requires texts { HasTexts calls.now }
        requires going { IsGoing service.now self.old }
        requires all { self.old.totals.calls ≤ PACKET_LIMIT }
        requires goes_on { CanGoOn service.now calls.now batch }
        ensures served { (batches : List Served) (served : Served) → HasServed service.now self.old batches →
            served.first ≡ self.old.pairs.items → served.calls ≡ calls.now → IsServed service.now served →
            IsToldBy service.now served batch → HasServed service.now self.new (batches ++ served ∷ []) }
        ensures counted { self.new.totals.calls ≡ self.old.totals.calls + length calls.now }
    {
        go_on(&mut self.before, &batch);
        self.totals.add(&batch.totals);
        self.leaves = batch.leaves;
        self.depth = batch.depth;
        self.pairs = batch.pairs;
    }
}
