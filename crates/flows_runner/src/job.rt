//! The job of a run through flows.

ghost use Rattle.std.specs.Prelude.{◌≡◌, ◌≤◌, ◌+◌, ◌∷◌, ◌++◌, [], ℕ, List, length, IfOk, OnOk};
ghost use Rattle.std.specs.List.{All, AllZip};
ghost use Rattle.key_texts.specs.FlowText.{HasText};
ghost use Rattle.capture_loop.specs.declared.job.TheConstants.{MOST_BATCH};
ghost use Rattle.flow_workers.specs.Work.{HasWorked};
ghost use Rattle.flow_workers.specs.declared.workers.FlowWorker.{FlowWorker as AWorker};
ghost use Rattle.flows_runner.specs.declared.pile.TheConstants.{FLOW_LIMIT};
ghost use Rattle.flows_runner.specs.declared.asked.Asked.{Asked as AnAsked};
ghost use Rattle.flows_runner.specs.Going.{HasKeyTexts, IsAway, IsDone, IsDoneWith, IsGoing, IsOpened, TellsBlock, block_text, block_told, job_way};
ghost use Rattle.flows_runner.specs.Told.{IsFlowsLines, IsFlowsReport};

use crate::asked::Asked;
use crate::blocks::Block;
use crate::flowing::Flowing;
use crate::pile::{FLOW_LIMIT, FlowPile};
use capture_faults::Ending;
use capture_loop::{Job, MOST_BATCH, Opened};
use flow_workers::{FlowWorker, ReplyCounts};
use lasting_table::LastingTable;
use report_text::{flows_block_text, input_text};
use std::alloc::{AllocError, Global};
use std::mem;
use std::thread::Threads;

/// Fewer packets than so many are served in the loop's own thread: to start others would take longer.
const FEW_PACKETS: u32 = 512;

/// Whether so many callers make the calls of so many packets in the loop's own thread.
fn works_alone(seats: u32, packets: u32) -> bool {
    seats == 1 || packets < FEW_PACKETS
}

impl Job<Asked> for Flowing {
    ghost use Rattle.flows_runner.specs.JobLaws.{begins_report, told_lines, told_under};

    type Pile = FlowPile;

    type Shared = LastingTable;

    type Worker = FlowWorker;

    // How many packets the batch has.
    type Kept = u32;

    // A block, if one stands behind the batch.
    type Closed = Option<Block>;

    ghost lines = { IsFlowsLines };

    ghost report = { IsFlowsReport };

    ghost way = { job_way };

    ghost most = { FLOW_LIMIT };

    ghost going = { IsGoing };

    ghost away = { IsAway };

    ghost done = { IsDone };

    ghost under = { IsDoneWith };

    ghost opened = { IsOpened };

    ghost tells = { TellsBlock };

    // The table and its seats go to the workers, and the pile gets the empty lists.
    fn open(
        &mut self,
        alloc: Global,
        pile: &mut FlowPile,
    ) -> Result<Opened<LastingTable, FlowWorker, u32>, AllocError> {
        let alone = works_alone(self.asked.seats, pile.packets);
        let workers = Vec::with_capacity(alloc, self.seats.len())?;
        mem::swap(&mut self.spare, &mut pile.shares);
        let Some(shared) = self.table.take() else {
            unreachable!()
        };
        Ok(Opened {
            shared,
            workers: self.hand_out(workers),
            kept: pile.packets,
            alone,
        })
    }

    fn close(
        &mut self,
        _alloc: Global,
        made: Opened<LastingTable, FlowWorker, u32>,
    ) -> Result<Option<Block>, AllocError>
        requires going { (started : List AWorker) × (before : ℕ) × (packets : List (List ℕ)) × IsAway self.old before
            × IsOpened self.old made.shared started made.kept before packets
            × AllZip HasWorked started made.workers.items × (length packets ≤ MOST_BATCH)
            × (before + length packets ≤ FLOW_LIMIT) }
        ensures way { OnOk result (job_way self.new ≡ job_way self.old) }
        ensures going { OnOk result ((started : List AWorker) (before : ℕ) (packets : List (List ℕ)) →
            IsAway self.old before → IsOpened self.old made.shared started made.kept before packets →
            AllZip HasWorked started made.workers.items → IsGoing self.new (before + length packets)) }
        ensures some { IfOk result (λ closed. (lines : List ℕ) × TellsBlock closed lines) }
        ensures served { IfOk result (λ closed. (plan : AnAsked) (batches : List (List (List ℕ))) (put : List ℕ)
            (started : List AWorker) (before : ℕ) (packets : List (List ℕ)) →
            IsDoneWith self.old made.shared started plan batches put →
            IsAway self.old before → IsOpened self.old made.shared started made.kept before packets →
            AllZip HasWorked started made.workers.items → (lines : List ℕ) → TellsBlock closed lines →
            IsDone self.new plan (batches ++ packets ∷ []) (put ++ lines)) }
    {
        let Opened {
            shared,
            workers,
            kept,
            ..
        } = made;
        self.take_back(&shared, workers);
        self.packets += u64::from(kept);
        let block = self.block_behind(&shared, kept)?;
        self.table = Some(shared);
        Ok(block)
    }

    fn has_lines(&self, closed: &Option<Block>) -> bool {
        closed.is_some()
    }

    fn tell<R: Threads>(
        &mut self,
        _rt: &R,
        _alloc: Global,
        closed: Option<Block>,
        text: &mut Vec<u8>,
    ) -> Result<(), AllocError> {
        put_closed(text, &closed)
    }

    fn finish(
        &mut self,
        _packets: u64,
        ending: &Ending,
        text: &mut Vec<u8>,
    ) -> Result<(), AllocError> {
        let last = self.block_at_end()?;
        put_closed(text, &last)?;
        input_text(text, ending)
    }

    ghost told = { told_lines };

    ghost told_under = { told_under };

    ghost begins = { begins_report };
}

// Appends a block, if there is one.
fn put_closed(text: &mut Vec<u8>, closed: &Option<Block>) -> Result<(), AllocError>
    requires { HasKeyTexts closed.now }
    ensures { OnOk result (text.new.items ≡ text.old.items ++ block_told closed.now) }
{
    match closed {
        Some(block) => put_block(text, block),
        None => Ok(()),
    }
}

// Appends a block.
fn put_block(text: &mut Vec<u8>, block: &Block) -> Result<(), AllocError>
    requires { All (λ pair. HasText pair.key) block.now.pairs.items }
    ensures { OnOk result (text.new.items ≡ text.old.items ++ block_text block.now) }
{
    flows_block_text(text, block.at, &block.pairs, &block.counts)
}
