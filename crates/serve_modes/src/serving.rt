//! Mode `serve`: a capture is read, served and printed batch by batch.

ghost use Rattle.std.specs.Prelude.{◌≡◌, ◌≤◌, ◌<◌, ◌^◌, ◌+◌, ℕ, List, [], ◌∷◌, ◌++◌, All, Option, Ok, Some, false, true, length, map, IfOk, OnOk};
ghost use Rattle.std.specs.List.{AllZip};
ghost use Rattle.std.specs.Option.{ForSome};
ghost use Rattle.edge_traits.specs.Edge.{Rose};
ghost use Rattle.capture_loop.specs.Leaves.{EndsBy};
ghost use Rattle.word_rows.specs.Shape.{AreBelow};
ghost use Rattle.report_text.specs.Report.{head_line};
ghost use Rattle.capture_faults.specs.Endings.{IsEnding};
ghost use Rattle.report_told.specs.Rules.{IsEndingTold};
ghost use Rattle.trace_share.specs.Work.{IsLogOf};
ghost use Rattle.batch_deals.specs.Dealt.{IsDealt};
ghost use Rattle.batch_runner.specs.Seats.{HasWorked};
ghost use Rattle.capture_loop.specs.declared.job.TheConstants.{MOST_BATCH, PACKET_LIMIT};
ghost use Rattle.capture_loop.specs.Input.{StopsAt, in_batches, packet_limit};
ghost use Rattle.capture_loop.specs.Leaves.{RunReads, RunWrites};
ghost use Rattle.capture_loop.specs.Looping.{OnNotPut};
ghost use Rattle.command_line.specs.declared.plan.Plan.{Plan as APlan};
ghost use Rattle.command_line.specs.Words.{IsInRange};
ghost use Rattle.mode_parts.specs.PacketCalls.{MakeCalls};
ghost use Rattle.serve_modes.specs.Does.{DoesServe};
ghost use Rattle.serve_modes.specs.Progress.{HasServed};
ghost use Rattle.serve_modes.specs.Headline.{LeavesAll};
ghost use Rattle.mode_parts.specs.Edges.{TellsReads, TellsWrites, edges, sink_edge, source_edge};
ghost use Rattle.mode_parts.specs.Statuses.{MarksFor, status_by};
ghost use Rattle.packet_heads.specs.Links.{number_in};
ghost use Rattle.mode_parts.specs.Callings.{calling_of, calling_way};
ghost use Rattle.mode_parts.specs.Planned.{IsServiceOf, head_of};
ghost use Rattle.serve_modes.specs.Serving.{CallWorker, HasDone, HasOpened, IsLines, IsServing, IsWholeReport, TellsBatch};

use crate::laws::serving_laws;
use crate::progress::Progress;
use crate::telling::tail_with;
use batch_deals::{Dealt, Service, deal_batch};
use batch_runner::{
    Asked, OpenBatch, SeatWorker, Untold, Workspace, close_logged, lines_text, open_batch,
    served_laws,
};
use capture_faults::Ending;
use capture_loop::{Job, MOST_BATCH, Means, Opened, PACKET_LIMIT, Piles, Stop, run_job};
use command_line::Plan;
use edge_traits::{Gate, Sink, Source};
use mode_parts::{CallPile, Calling, Status, calling_of, head_of, put_sessions, service_of};
use pcapng_reader::one_input;
use plain_map::{Call, MOST_SEATS, session_laws};
use report_promises::{ending_fits, head_fits, promise_laws};
use report_text::{head_text, tail_text};
use shared_table::{ClosedTable, Directory};
use std::alloc::{AllocError, Global};
use std::mem;
use std::thread::Threads;
use trace_share::Outcome;

/// Room for the lines of a packet: that of its call, of up to about 200 bytes, and its part of the order.
const LINE_ROOM: usize = 220;

/// The batches so far, and how they are served.
#[derive(Drop)]
pub(crate) struct Serving {
    pub service: Service,
    /// How packets are framed, and which calls they make.
    pub calling: Calling,
    pub workspace: Workspace,
    pub progress: Progress,
    /// How many packets were served.
    pub packets: u32,
    /// The calls of the batch that is served.
    pub calls: Vec<(u32, Call)>,
    /// Room for those of the next one, once the lines of the batch before it are told.
    pub spare: Vec<(u32, Call)>,
}

/// A batch that is closed, of which no line is told yet.
#[derive(Drop)]
pub(crate) struct ClosedBatch {
    pub service: Service,
    /// Its calls, each with the packet that it came from.
    pub calls: Vec<(u32, Call)>,
    /// How many calls each seat had answered before.
    pub before: [u32; MOST_SEATS],
    pub closed: ClosedTable,
    /// What each seat's calls came to, seat 0 first.
    pub logs: Vec<Vec<Outcome>>,
}

impl Serving {
    /// None yet; the batches have so many packets.
    pub fn new(
        alloc: Global,
        service: Service,
        calling: Calling,
        batch: u32,
    ) -> Result<Serving, AllocError>
        requires given { ForSome service.rows (AreBelow (2 ^ 32)) }
        ensures going { IfOk result (λ serving. IsServing serving 0) }
        ensures done { IfOk result (λ serving. (plan : APlan) (text : List ℕ) → IsServiceOf plan service →
            calling ≡ calling_of plan → text ≡ head_line (head_of false plan) → HasDone serving plan [] text) }
        ensures served { IfOk result (λ serving. HasServed service serving.progress []) }
        ensures service { IfOk result (λ serving. serving.service ≡ service) }
        ensures calling { IfOk result (λ serving. serving.calling ≡ calling) }
    {
        let calls = Vec::with_capacity(alloc, batch as usize)?;
        let spare = Vec::with_capacity(alloc, batch as usize)?;
        Ok(Serving {
            service,
            calling,
            workspace: Workspace::new(alloc),
            progress: Progress::new(alloc),
            packets: 0,
            calls,
            spare,
        })
    }

    /// The pile's calls as they were dealt before, or else dealt now. The only error is want of memory.
    pub fn dealt_of(&self, pile: &mut CallPile) -> Result<Dealt, AllocError>
        requires few { length pile.old.calls.items ≤ MOST_BATCH }
        requires dealt { ForSome pile.old.dealt (IsDealt pile.old.service pile.old.calls.items) }
        requires way { calling_way pile.old.calling ≡ calling_way self.now.calling }
        ensures dealt { IfOk result (IsDealt self.now.service pile.old.calls.items) }
        ensures calls { pile.new.calls ≡ pile.old.calls }
        ensures packets { pile.new.packets ≡ pile.old.packets }
        ensures calling { pile.new.calling ≡ pile.old.calling }
        ensures made { OnOk result ((number : ℕ) (packets : List (List ℕ)) →
            MakeCalls pile.old.calling number packets pile.old.calls.items →
            MakeCalls self.now.calling number packets pile.old.calls.items) }
    {
        let dealt = mem::replace(&mut pile.dealt, None);
        if let Some(dealt) = dealt {
            if deal_alike(&pile.service, &self.service) {
                return Ok(dealt);
            }
        }
        deal_batch(pile.alloc, &self.service, &pile.calls)
    }
}

impl Job<Plan> for Serving {
    ghost use Rattle.serve_modes.specs.ServingLaws.{done_begins, done_told};

    type Pile = CallPile;

    type Shared = Directory;

    type Worker = SeatWorker<Vec<Outcome>>;

    // How many packets the batch has.
    type Kept = u32;

    type Closed = ClosedBatch;

    ghost lines = { IsLines };

    ghost report = { IsWholeReport };

    ghost way = { λ serving. calling_way serving.calling };

    ghost most = { PACKET_LIMIT };

    ghost going = { IsServing };

    ghost away = { IsServing };

    ghost done = { HasDone };

    ghost under = { λ job _ _. HasDone job };

    ghost opened = { HasOpened };

    ghost tells = { TellsBatch };

    // The pile has the calls of the last batch then, which are no longer wanted.
    fn open(
        &mut self,
        alloc: Global,
        pile: &mut CallPile,
    ) -> Result<Opened<Directory, SeatWorker<Vec<Outcome>>, u32>, AllocError> {
        let Dealt { shares, demand } = self.dealt_of(pile)?;
        mem::swap(&mut self.calls, &mut pile.calls);
        let asked = Asked {
            service: &self.service,
            first: &self.progress.pairs,
            calls: &self.calls,
        };
        let begun = open_batch(alloc, &asked, &mut self.workspace, shares, &demand)?;
        Ok(Opened {
            shared: begun.directory,
            workers: begun.workers,
            kept: pile.packets,
            alone: false,
        })
    }

    fn close(
        &mut self,
        alloc: Global,
        made: Opened<Directory, SeatWorker<Vec<Outcome>>, u32>,
    ) -> Result<ClosedBatch, AllocError>
        requires going { (started : List CallWorker) × (before : ℕ) × (packets : List (List ℕ))
            × IsServing self.old before × HasOpened self.old made.shared started made.kept before packets
            × AllZip (HasWorked IsLogOf) started made.workers.items × (length packets ≤ MOST_BATCH)
            × (before + length packets ≤ PACKET_LIMIT) }
        ensures way { OnOk result (calling_way self.new.calling ≡ calling_way self.old.calling) }
        ensures going { OnOk result ((started : List CallWorker) (before : ℕ) (packets : List (List ℕ)) →
            IsServing self.old before → HasOpened self.old made.shared started made.kept before packets →
            AllZip (HasWorked IsLogOf) started made.workers.items → IsServing self.new (before + length packets)) }
        ensures some { IfOk result (λ closed. (lines : List ℕ) × TellsBatch closed lines) }
        ensures served { IfOk result (λ closed. (plan : APlan) (batches : List (List (List ℕ))) (put : List ℕ)
            (started : List CallWorker) (before : ℕ) (packets : List (List ℕ)) → HasDone self.old plan batches put →
            IsServing self.old before → HasOpened self.old made.shared started made.kept before packets →
            AllZip (HasWorked IsLogOf) started made.workers.items → (lines : List ℕ) → TellsBatch closed lines →
            HasDone self.new plan (batches ++ packets ∷ []) (put ++ lines)) }
    {
        let asked = Asked {
            service: &self.service,
            first: &self.progress.pairs,
            calls: &self.calls,
        };
        let begun = OpenBatch {
            directory: made.shared,
            workers: made.workers,
        };
        let (closed, logs, batch) = close_logged(alloc, &asked, begun)?;
        let before = self.progress.before;
        self.progress.keep(&self.service, &self.calls, batch);
        self.packets += made.kept;
        let spare = mem::replace(&mut self.spare, Vec::new(alloc));
        let calls = mem::replace(&mut self.calls, spare);
        Ok(ClosedBatch {
            service: self.service,
            calls,
            before,
            closed,
            logs,
        })
    }

    fn has_lines(&self, _closed: &ClosedBatch) -> bool {
        true
    }

    fn tell<R: Threads>(
        &mut self,
        rt: &R,
        alloc: Global,
        closed: ClosedBatch,
        text: &mut Vec<u8>,
    ) -> Result<(), AllocError> {
        let untold = Untold {
            service: &closed.service,
            calls: &closed.calls,
            before: &closed.before,
            closed: &closed.closed,
            logs: &closed.logs,
        };
        lines_text(rt, alloc, &mut self.workspace, &untold, text)?;
        self.workspace.keep(closed.closed);
        let mut calls = closed.calls;
        calls.clear();
        self.spare = calls;
        Ok(())
    }

    fn finish(
        &mut self,
        packets: u64,
        ending: &Ending,
        text: &mut Vec<u8>,
    ) -> Result<(), AllocError> {
        served_laws();
        session_laws();
        put_sessions(text, &self.progress.pairs)?;
        let tail = tail_with(&self.service, &self.progress, packets as u32, ending);
        tail_text(text, &tail)
    }

    ghost told = { done_told };

    ghost told_under = { λ job _ _. done_told job };

    ghost begins = { done_begins };
}

/// Whether both deal the same calls to the same seats.
fn deal_alike(one: &Service, other: &Service) -> bool
    ensures { result ≡ true → (one.now.share ≡ other.now.share)
        × (one.now.settings.seats ≡ other.now.settings.seats) }
{
    one.share == other.share && one.settings.seats == other.settings.seats
}

/// Serves the source's packets as the plan says, and puts the report into the sink. Where there are more than are
/// served, `beyond` is where the first of these starts, in bytes from the input's first.
pub fn serve<R: Threads + Sync, S: Source, K: Sink, G: Gate + Sync>(
    means: &Means<R, G>,
    plan: &Plan,
    source: &mut S,
    sink: &mut K,
    beyond: &mut Option<u64>,
) -> Status
    requires range { IsInRange plan.now }
    requires batch { means.now.portions ≡ in_batches plan.now.batch }
    ensures does { DoesServe plan.now (edges S.Source K.Sink source.old sink.old beyond.old)
        (edges S.Source K.Sink source.new sink.new beyond.new) result }
    ensures reads { TellsReads (source_edge S.Source source.old) (source_edge S.Source source.new) result }
    ensures writes { TellsWrites (sink_edge K.Sink sink.old) (sink_edge K.Sink sink.new) result }
    ensures no_usage { result ≡ Status.Usage → ⊥ }
{
    one_input();
    let end = serve_input(means, plan, source, sink, beyond);
    Status::of_run(&end)
}

/// The same, up to the ending of the input. The text and the piles, which all
/// batches use, are made before it is opened.
fn serve_input<R: Threads + Sync, S: Source, K: Sink, G: Gate + Sync>(
    means: &Means<R, G>,
    plan: &Plan,
    source: &mut S,
    sink: &mut K,
    beyond: &mut Option<u64>,
) -> Result<Ending, Stop>
    requires range { IsInRange plan.now }
    requires batch { means.now.portions ≡ in_batches plan.now.batch }
    ensures leaves { LeavesAll plan.now (EndsBy (S.failed source.old) (S.failed source.new)) (S.left source.old)
        (S.left source.new) (K.put sink.old) (K.put sink.new) (status_by result) }
    ensures read_fault { result ≡ Ok Ending.ReadFault → Rose (S.faults source.old) (S.faults source.new) }
    ensures write_fault { OnNotPut result (Rose (K.faults sink.old) (K.faults sink.new)) }
    ensures reads { RunReads result (S.failed source.old) (S.failed source.new) }
    ensures writes { RunWrites result (K.failed sink.old) (K.failed sink.new) }
    ensures beyond { MarksFor (status_by result) beyond.old beyond.new
        (StopsAt (number_in plan.now.framing.link) packet_limit (S.left source.old) (S.left source.new)) }
    ensures counted { (S.faults source.old ≤ S.faults source.new) × (K.faults sink.old ≤ K.faults sink.new) }
{
    serving_laws();
    promise_laws();
    let service = service_of(plan);
    let alloc = means.alloc;
    let calling = calling_of(plan);
    let batch = plan.batch as usize;
    let mut text = Vec::with_capacity(alloc, batch * LINE_ROOM)?;
    let head = head_of(false, plan);
    head_fits(&head, &service.settings);
    head_text(&mut text, &head)?;
    let mut piles = Piles {
        now: CallPile::with_room(alloc, service, calling, batch)?,
        next: CallPile::with_room(alloc, service, calling, batch)?,
        beyond: *beyond,
    };
    let mut serving = Serving::new(alloc, service, calling, plan.batch)?;
    let answer = run_job::<R, S, K, G, Plan, Serving>(
        means,
        plan.framing.link.number(),
        &mut serving,
        &mut piles,
        source,
        &mut text,
        sink,
    );
    *beyond = piles.beyond;
    answer_fits(&answer);
    answer
}

/// The ending that a run answers can be told.
fn answer_fits(answer: &Result<Ending, Stop>)
    requires { IfOk answer.now IsEnding }
    ensures { IfOk answer.now IsEndingTold }
{
    if let Ok(ending) = answer {
        ending_fits(*ending);
    }
}
