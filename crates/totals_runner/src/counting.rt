//! What the batches so far came to.

ghost use Rattle.std.specs.Prelude.{◌≡◌, ◌+◌, ◌∷◌, ◌++◌, ◌≤◌, ◌<◌, [], ℕ, List, All, IfOk, OnOk, length, slice_index, vec_len};
ghost use Rattle.batch_history.specs.Batches.{with_counts};
ghost use Rattle.packet_heads.specs.Links.{way_of};

use crate::batch::{Dealt, counts_of};
use crate::dealing::deal;
use crate::frames::Frames;
use crate::lines::{ids_of, put_adds};
use crate::seats::{end_table, workers_of};
use packet_adders::AddWorker;
use packet_heads::Framing;
use plain_map::MOST_SEATS;
use report_text::{Line, order_text};
use sim_totals::{Totals, TotalsTable};
use std::alloc::{AllocError, Global};

/// What is asked of a run that counts.
#[derive(Clone, Copy)]
pub struct Asked {
    /// How many seats add packets.
    pub seats: u32,
    /// How packets are framed.
    pub framing: Framing,
    /// How many packets a batch has.
    pub batch: u32,
}

/// What the batches so far came to.
#[derive(Drop)]
pub struct Counting {
    /// How many seats add packets.
    pub seats: u32,
    /// How packets are framed.
    pub framing: Framing,
    /// How many packets were counted.
    pub packets: u32,
    /// How many adds each seat has made.
    pub before: [u32; MOST_SEATS],
    /// The totals of all packets so far.
    pub totals: Totals,
    /// The most steps of an add, or 0.
    pub most: u64,
    ghost some: { 1 ≤ seats },
    ghost few: { seats ≤ 8 },
}

impl Counting {
    ghost use Rattle.std.specs.List.{AllZip};
    ghost use Rattle.packet_adders.specs.Work.{IsDone, IsReady};
    ghost use Rattle.packet_adders.specs.declared.workers.AddWorker.{AddWorker as AWorker};
    ghost use Rattle.totals_runner.specs.Adds.{add_batch_lines};
    ghost use Rattle.totals_runner.specs.Counted.{Counted};
    ghost use Rattle.totals_runner.specs.Frames.{HasFrames};
    ghost use Rattle.totals_runner.specs.Opened.{IsOpened};
    ghost use Rattle.totals_runner.specs.PacketAdds.{MakeAdds};
    ghost use Rattle.totals_runner.specs.Printed.{lines_of};
    ghost use Rattle.totals_runner.specs.Told.{HasCounted, HasGone};

    /// Nothing counted yet, as is asked.
    pub fn new(asked: &Asked) -> Counting
        requires some { 1 ≤ asked.now.seats }
        requires few { asked.now.seats ≤ 8 }
        ensures seats { result.seats ≡ asked.now.seats }
        ensures framing { result.framing ≡ asked.now.framing }
        ensures none { HasCounted result [] }
        ensures gone { HasGone result 0 }
    {
        Counting {
            seats: asked.seats,
            framing: asked.framing,
            packets: 0,
            before: [0; MOST_SEATS],
            totals: Totals {
                counts: [0; 3],
                bytes: [0; 3],
            },
            most: 0,
        }
    }

    /// Opens a table with the totals so far, and deals the packets to its adders. The only error is want of memory.
    pub fn open_batch(
        &self,
        alloc: Global,
        frames: &Frames,
    ) -> Result<(TotalsTable, Vec<AddWorker>, Dealt), AllocError>
        requires going { (batches : List Counted) × (packets : List (List ℕ)) × HasCounted self.now batches
            × HasFrames frames.now self.now.packets packets × (self.now.packets + length packets ≤ 4000000) }
        requires way { way_of frames.now.framing ≡ way_of self.now.framing }
        ensures few { IfOk result (λ made. vec_len made.1 ≤ 8) }
        ensures ready { IfOk result (λ made. All (IsReady made.0) made.1.items) }
        ensures opened { IfOk result (λ made. (packets : List (List ℕ)) →
            HasFrames frames.now self.now.packets packets →
            IsOpened self.now made.0 made.1.items made.2 self.now.packets packets) }
    {
        let shares = deal(alloc, self.seats, &frames.frames)?;
        let counts = counts_of(alloc, &shares)?;
        let (table, adders) = TotalsTable::open(alloc, &counts, &self.totals)?;
        let workers = workers_of(alloc, &table, adders, shares)?;
        let dealt = Dealt {
            before: frames.before,
            many: frames.frames.len() as u32,
            counts,
        };
        Ok((table, workers, dealt))
    }

    /// Closes a table whose adders are through, and appends the lines of the adds and of their one
    /// order. The only error is want of memory.
    pub fn close_batch(
        &mut self,
        alloc: Global,
        table: TotalsTable,
        workers: Vec<AddWorker>,
        dealt: &Dealt,
        text: &mut Vec<u8>,
    ) -> Result<(), AllocError>
        requires going { (started : List AWorker) × (batches : List Counted) × (packets : List (List ℕ))
            × HasCounted self.old batches × IsOpened self.old table started dealt.now self.old.packets packets
            × AllZip (IsDone table) started workers.items × (self.old.packets + length packets ≤ 4000000) }
        ensures counted { OnOk result ((started : List AWorker) (batches : List Counted) (packets : List (List ℕ)) →
            HasCounted self.old batches → IsOpened self.old table started dealt.now self.old.packets packets →
            AllZip (IsDone table) started workers.items →
            (batch : Counted) × MakeAdds self.old.framing (self.old.packets + 1) packets batch.adds
            × HasCounted self.new (batches ++ batch ∷ []) × (self.new.packets ≡ self.old.packets + length packets)
            × (text.new.items ≡ text.old.items
            ++ add_batch_lines self.old.seats (lines_of self.old.seats self.old.before batch))) }
        ensures seats { self.new.seats ≡ self.old.seats }
        ensures framing { self.new.framing ≡ self.old.framing }
    {
        let (logs, closed) = end_table(alloc, table, workers)?;
        let ids = ids_of(alloc, &logs, &closed.order)?;
        self.most = put_adds(
            text,
            &self.before,
            dealt.before,
            dealt.many,
            &logs,
            self.most,
        )?;
        order_text(text, &mut Line::new(), &ids)?;
        put_counts(&mut self.before, &dealt.counts);
        self.totals = closed.totals;
        self.packets += dealt.many;
        Ok(())
    }
}

// Adds these counts, seat by seat.
fn put_counts(sums: &mut [u32; MOST_SEATS], counts: &[u32])
    requires seats { length counts.now ≤ 8 }
    requires few { All (λ count. count ≤ 4000000) counts.now }
    requires before { (seat : ℕ) → seat < length counts.now → slice_index sums.old seat ≤ 4000000 }
    ensures { sums.new ≡ with_counts sums.old counts.now }
{
    for (seat, count) in counts.iter().enumerate() {
        sums[seat] += *count;
    }
}
