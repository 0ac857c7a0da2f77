//! Counting, as the loop over the batches of a capture has it.

ghost use Rattle.std.specs.Prelude.{◌≡◌, ◌≤◌, ◌+◌, ◌∷◌, ◌++◌, [], ℕ, List, length, IfOk, OnOk};
ghost use Rattle.std.specs.List.{AllZip};
ghost use Rattle.capture_loop.specs.declared.job.TheConstants.{PACKET_LIMIT};
ghost use Rattle.packet_adders.specs.Work.{IsDone};
ghost use Rattle.totals_runner.specs.declared.counting.Asked.{Asked as AnAsked};
ghost use Rattle.packet_adders.specs.declared.workers.AddWorker.{AddWorker as AWorker};

use crate::adds::{TotalsTail, totals_tail_text};
use crate::batch::Dealt;
use crate::counting::{Asked, Counting};
use crate::frames::Frames;
use capture_faults::Ending;
use capture_loop::{Job, MOST_BATCH, Opened, PACKET_LIMIT};
use packet_adders::AddWorker;
use sim_totals::{TotalsTable, step_bound};
use std::alloc::{AllocError, Global};
use std::thread::Threads;

/// By what is asked.
impl Job<Asked> for Counting {
    ghost use Rattle.packet_heads.specs.Links.{way_of};
    ghost use Rattle.totals_runner.specs.JobLaws.{begins_report, told_lines};
    ghost use Rattle.totals_runner.specs.Opened.{IsOpened};
    ghost use Rattle.totals_runner.specs.Told.{HasGone, IsCountedSo, IsTotalsLines, IsTotalsReport};

    type Pile = Frames;

    type Shared = TotalsTable;

    type Worker = AddWorker;

    type Kept = Dealt;

    // Its lines.
    type Closed = Vec<u8>;

    ghost lines = { IsTotalsLines };

    ghost report = { IsTotalsReport };

    ghost way = { λ counting. way_of counting.framing };

    ghost most = { PACKET_LIMIT };

    ghost going = { HasGone };

    ghost away = { HasGone };

    ghost done = { IsCountedSo };

    ghost under = { λ job _ _. IsCountedSo job };

    ghost opened = { IsOpened };

    ghost tells = { λ closed lines. lines ≡ closed.items };

    fn open(
        &mut self,
        alloc: Global,
        pile: &mut Frames,
    ) -> Result<Opened<TotalsTable, AddWorker, Dealt>, AllocError> {
        let (shared, workers, kept) = self.open_batch(alloc, pile)?;
        Ok(Opened {
            shared,
            workers,
            kept,
            alone: false,
        })
    }

    fn close(
        &mut self,
        alloc: Global,
        made: Opened<TotalsTable, AddWorker, Dealt>,
    ) -> Result<Vec<u8>, AllocError>
        requires going { (started : List AWorker) × (before : ℕ) × (packets : List (List ℕ)) × HasGone self.old before
            × IsOpened self.old made.shared started made.kept before packets
            × AllZip (IsDone made.shared) started made.workers.items × (length packets ≤ MOST_BATCH)
            × (before + length packets ≤ PACKET_LIMIT) }
        ensures way { OnOk result (way_of self.new.framing ≡ way_of self.old.framing) }
        ensures going { OnOk result ((started : List AWorker) (before : ℕ) (packets : List (List ℕ)) →
            HasGone self.old before → IsOpened self.old made.shared started made.kept before packets →
            AllZip (IsDone made.shared) started made.workers.items → HasGone self.new (before + length packets)) }
        ensures some { IfOk result (λ closed. (lines : List ℕ) × (lines ≡ closed.items)) }
        ensures served { IfOk result (λ closed. (plan : AnAsked) (batches : List (List (List ℕ))) (put : List ℕ)
            (started : List AWorker) (before : ℕ) (packets : List (List ℕ)) → IsCountedSo self.old plan batches put →
            HasGone self.old before → IsOpened self.old made.shared started made.kept before packets →
            AllZip (IsDone made.shared) started made.workers.items → (lines : List ℕ) → lines ≡ closed.items →
            IsCountedSo self.new plan (batches ++ packets ∷ []) (put ++ lines)) }
    {
        let Opened {
            shared,
            workers,
            kept,
            ..
        } = made;
        let mut lines = Vec::new(alloc);
        self.close_batch(alloc, shared, workers, &kept, &mut lines)?;
        Ok(lines)
    }

    fn has_lines(&self, closed: &Vec<u8>) -> bool {
        !closed.is_empty()
    }

    fn tell<R: Threads>(
        &mut self,
        _rt: &R,
        _alloc: Global,
        closed: Vec<u8>,
        text: &mut Vec<u8>,
    ) -> Result<(), AllocError> {
        text.extend_from_slice(&closed)
    }

    fn finish(
        &mut self,
        _packets: u64,
        ending: &Ending,
        text: &mut Vec<u8>,
    ) -> Result<(), AllocError> {
        let tail = TotalsTail {
            totals: self.totals,
            ending: *ending,
            most: self.most,
            bound: step_bound(u64::from(self.seats)),
        };
        totals_tail_text(text, &tail)
    }

    ghost told = { told_lines };

    ghost told_under = { λ job _ _. told_lines job };

    ghost begins = { begins_report };
}
