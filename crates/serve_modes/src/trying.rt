//! Mode `trial`: the made capture is served, and its counts are put.

ghost use Rattle.std.specs.Prelude.{◌≡◌, ◌≤◌, ◌<◌, ◌^◌, ◌+◌, ℕ, List, [], ◌∷◌, ◌++◌, All, length, None, IfOk, OnOk};
ghost use Rattle.std.specs.List.{AllZip};
ghost use Rattle.std.specs.Option.{ForSome};
ghost use Rattle.word_rows.specs.Shape.{AreBelow};
ghost use Rattle.batch_runner.specs.Seats.{HasWorked};
ghost use Rattle.batch_runner.specs.Totals.{IsTotalOf};
ghost use Rattle.capture_loop.specs.declared.job.TheConstants.{MOST_BATCH, PACKET_LIMIT};
ghost use Rattle.capture_loop.specs.Input.{in_batches};
ghost use Rattle.command_line.specs.declared.plan.Plan.{Plan as APlan};
ghost use Rattle.command_line.specs.Words.{IsInRange};
ghost use Rattle.mode_parts.specs.Callings.{calling_of, calling_way, plain_calling};
ghost use Rattle.serve_modes.specs.Headline.{IsTrial, LeavesTried, seed_of, trial_of};
ghost use Rattle.mode_parts.specs.Edges.{TellsWrites, sink_edge};
ghost use Rattle.mode_parts.specs.Planned.{IsServiceOf};
ghost use Rattle.serve_modes.specs.Trying.{CountWorker, HasOpenedTrial, HasTried, IsNoText, IsTrialOf, IsTrying};

use crate::laws::serving_laws;
use crate::serving::Serving;
use batch_deals::{Dealt, Service};
use batch_runner::{Asked, OpenBatch, SeatWorker, Totals, close_counted, open_batch};
use capture_faults::Ending;
use capture_loop::{Job, MOST_BATCH, Means, Opened, PACKET_LIMIT, Piles, run_job};
use command_line::Plan;
use edge_traits::{Failed, Gate, MemorySink, Sink, write_all};
use hash_bits::Hashing;
use mode_parts::{CallPile, Status, calling_of, service_of};
use pcap_reader::{MadeSource, made_capture_law};
use pcapng_reader::one_input;
use report_text::{Trial, trial_text};
use shared_table::Directory;
use std::alloc::{AllocError, Global};
use std::mem;
use std::thread::Threads;

/// Room for the three lines of a trial, which have up to 424 bytes.
const TEXT_ROOM: usize = 512;

/// The batches so far of the made capture. They are served as those of `serve` are, and no line of them is told.
#[derive(Drop)]
pub(crate) struct Trying {
    pub serving: Serving,
    /// What the capture is made of, and how many packets it and a batch have.
    pub number: u64,
    pub packets: u32,
    pub batch: u32,
}

impl Trying {
    /// None yet, of the plan's capture.
    fn new(alloc: Global, plan: &Plan, service: Service) -> Result<Trying, AllocError>
        requires given { ForSome service.rows (AreBelow (2 ^ 32)) }
        requires asks { IsServiceOf plan.now service }
        ensures going { IfOk result (λ trying. IsTrying trying 0) }
        ensures none { IfOk result (λ trying. HasTried trying plan.now [] []) }
        ensures calling { IfOk result (λ trying. trying.serving.calling ≡ calling_of plan.now) }
    {
        let serving = Serving::new(alloc, service, calling_of(plan), plan.batch)?;
        Ok(Trying {
            serving,
            number: plan.number,
            packets: plan.packets,
            batch: plan.batch,
        })
    }

    /// What the trial tells, if these are all batches.
    fn trial(&self) -> Trial
        ensures { (plan : APlan) → IsServiceOf plan self.now.serving.service → self.now.number ≡ plan.number →
            self.now.packets ≡ plan.packets → self.now.batch ≡ plan.batch →
            result ≡ trial_of plan self.now.serving.progress.totals (length self.now.serving.progress.pairs.items) }
    {
        let service = &self.serving.service;
        let progress = &self.serving.progress;
        let totals = &progress.totals;
        let replies = &totals.replies;
        Trial {
            number: self.number,
            packets: u64::from(self.packets),
            seats: service.settings.seats,
            items: service.settings.items,
            depth: service.settings.depth,
            start: service.settings.start,
            seed: seed_of(service.hashing),
            batch: self.batch,
            calls: totals.calls,
            new: replies.new,
            old: replies.old,
            noroom: replies.noroom,
            gone: replies.gone,
            found: replies.found,
            absent: replies.absent,
            full: totals.refused,
            sessions: progress.pairs.len() as u64,
        }
    }
}

impl Job<Plan> for Trying {
    ghost use Rattle.serve_modes.specs.TryingLaws.{tried_begins, tried_none};

    type Pile = CallPile;

    type Shared = Directory;

    type Worker = SeatWorker<Totals>;

    // How many packets the batch has.
    type Kept = u32;

    // No line of a batch is told.
    type Closed = ();

    ghost lines = { IsNoText };

    ghost report = { IsTrialOf };

    ghost way = { λ trying. calling_way trying.serving.calling };

    ghost most = { PACKET_LIMIT };

    ghost going = { IsTrying };

    ghost away = { IsTrying };

    ghost done = { HasTried };

    ghost under = { λ job _ _. HasTried job };

    ghost opened = { HasOpenedTrial };

    ghost tells = { λ _ lines. lines ≡ [] };

    // The pile has the calls of the last batch then, which are no longer wanted.
    fn open(
        &mut self,
        alloc: Global,
        pile: &mut CallPile,
    ) -> Result<Opened<Directory, SeatWorker<Totals>, u32>, AllocError> {
        let Dealt { shares, demand } = self.serving.dealt_of(pile)?;
        mem::swap(&mut self.serving.calls, &mut pile.calls);
        let asked = Asked {
            service: &self.serving.service,
            first: &self.serving.progress.pairs,
            calls: &self.serving.calls,
        };
        let workspace = &mut self.serving.workspace;
        let begun = open_batch(alloc, &asked, workspace, shares, &demand)?;
        Ok(Opened {
            shared: begun.directory,
            workers: begun.workers,
            kept: pile.packets,
            alone: false,
        })
    }

    fn close(
        &mut self,
        alloc: Global,
        made: Opened<Directory, SeatWorker<Totals>, u32>,
    ) -> Result<(), AllocError>
        requires going { (started : List CountWorker) × (before : ℕ) × (packets : List (List ℕ))
            × IsTrying self.old before × HasOpenedTrial self.old made.shared started made.kept before packets
            × AllZip (HasWorked IsTotalOf) started made.workers.items × (length packets ≤ MOST_BATCH)
            × (before + length packets ≤ PACKET_LIMIT) }
        ensures way { OnOk result (calling_way self.new.serving.calling ≡ calling_way self.old.serving.calling) }
        ensures going { OnOk result ((started : List CountWorker) (before : ℕ) (packets : List (List ℕ)) →
            IsTrying self.old before → HasOpenedTrial self.old made.shared started made.kept before packets →
            AllZip (HasWorked IsTotalOf) started made.workers.items → IsTrying self.new (before + length packets)) }
        ensures some { OnOk result ((lines : List ℕ) × (lines ≡ [])) }
        ensures served { OnOk result ((plan : APlan) (batches : List (List (List ℕ))) (put : List ℕ)
            (started : List CountWorker) (before : ℕ) (packets : List (List ℕ)) → HasTried self.old plan batches put →
            IsTrying self.old before → HasOpenedTrial self.old made.shared started made.kept before packets →
            AllZip (HasWorked IsTotalOf) started made.workers.items → (lines : List ℕ) → lines ≡ [] →
            HasTried self.new plan (batches ++ packets ∷ []) (put ++ lines)) }
    {
        let serving = &mut self.serving;
        let asked = Asked {
            service: &serving.service,
            first: &serving.progress.pairs,
            calls: &serving.calls,
        };
        let begun = OpenBatch {
            directory: made.shared,
            workers: made.workers,
        };
        let batch = close_counted(alloc, &asked, &mut serving.workspace, begun)?;
        serving
            .progress
            .keep(&serving.service, &serving.calls, batch);
        serving.packets += made.kept;
        Ok(())
    }

    fn has_lines(&self, _closed: &()) -> bool {
        false
    }

    fn tell<R: Threads>(
        &mut self,
        _rt: &R,
        _alloc: Global,
        _closed: (),
        _text: &mut Vec<u8>,
    ) -> Result<(), AllocError> {
        Ok(())
    }

    fn finish(
        &mut self,
        _packets: u64,
        _ending: &Ending,
        text: &mut Vec<u8>,
    ) -> Result<(), AllocError> {
        trial_text(text, &self.trial())
    }

    ghost told = { tried_none };

    ghost told_under = { λ job _ _. tried_none job };

    ghost begins = { tried_begins };
}

/// Serves the made capture of the plan, and puts how many calls had each reply.
pub fn try_plan<R: Threads + Sync, K: Sink, G: Gate + Sync>(
    means: &Means<R, G>,
    plan: &Plan,
    sink: &mut K,
) -> Status
    requires range { IsInRange plan.now }
    requires batch { means.now.portions ≡ in_batches plan.now.batch }
    ensures leaves { plan.now.rows ≡ None → calling_of plan.now ≡ plain_calling →
        LeavesTried plan.now (K.put sink.old) (K.put sink.new) result }
    ensures writes { TellsWrites (sink_edge K.Sink sink.old) (sink_edge K.Sink sink.new) result }
    ensures no_read { result ≡ Status.ReadFault → ⊥ }
    ensures no_usage { result ≡ Status.Usage → ⊥ }
{
    match text_of(means, plan) {
        Ok(text) => match write_all(sink, text.bytes()) {
            Ok(()) => Status::Done,
            Err(Failed) => Status::WriteFault,
        },
        Err(_memory) => Status::Memory,
    }
}

/// The text of a trial, in memory, so that nothing of it is put before all of it is there.
fn text_of<R: Threads + Sync, G: Gate + Sync>(
    means: &Means<R, G>,
    plan: &Plan,
) -> Result<MemorySink, AllocError>
    requires range { IsInRange plan.now }
    requires batch { means.now.portions ≡ in_batches plan.now.batch }
    ensures { IfOk result
        (λ text. plan.now.rows ≡ None → calling_of plan.now ≡ plain_calling → IsTrial plan.now text.put) }
{
    one_input();
    made_capture_law();
    serving_laws();
    let service = service_of(plan);
    let alloc = means.alloc;
    let calling = calling_of(plan);
    let batch = plan.batch as usize;
    let mut piles = Piles {
        now: CallPile::with_room(alloc, service, calling, batch)?,
        next: CallPile::with_room(alloc, service, calling, batch)?,
        beyond: None,
    };
    let mut trying = Trying::new(alloc, plan, service)?;
    let mut source = MadeSource::new(plan.number, plan.packets);
    let mut text = Vec::new(alloc);
    let mut sink = MemorySink::new(alloc, TEXT_ROOM, &[])?;
    let answer = run_job::<R, MadeSource, MemorySink, G, Plan, Trying>(
        means,
        plan.framing.link.number(),
        &mut trying,
        &mut piles,
        &mut source,
        &mut text,
        &mut sink,
    );
    match answer {
        Ok(_ending) => Ok(sink),
        Err(_memory) => Err(AllocError),
    }
}

/// The seed of a hash.
fn seed_of(hashing: Hashing) -> u64
    ensures { result ≡ seed_of hashing }
{
    match hashing {
        Hashing::Mix(seed) | Hashing::Ports(seed) => seed,
    }
}
