//! What a mode makes of the packets of a capture.

ghost use Rattle.std.specs.Prelude.{◌≡◌, ◌≤◌, ◌+◌, ◌∷◌, ◌++◌, [], ℕ, List, false, length, vec_len, IfOk, OnOk};
ghost use Rattle.std.specs.List.{All, AllZip};
ghost use Rattle.capture_faults.specs.declared.ending.Ending.{Ending as AnEnding};
ghost use Rattle.capture_faults.specs.Endings.{IsEnding};

use crate::portions::Portions;
use capture_faults::Ending;
use edge_traits::Gate;
use std::alloc::{AllocError, Global};
use std::thread::Threads;
use trace_share::WorksOn;

/// What all batches of a run are served with.
#[derive(Drop)]
pub struct Means<'a, R: Threads + Sync, G: Gate + Sync> {
    /// Where threads come from.
    pub rt: &'a R,
    /// Where memory comes from.
    pub alloc: Global,
    /// What callers pass before each call.
    pub gate: &'a G,
    /// How the input is cut into batches, and how much of it is taken.
    pub portions: Portions,
}

/// The packets of a batch, and those of the next one that are taken while it is served.
#[derive(Drop)]
pub struct Piles<P: Pile> {
    pub now: P,
    pub next: P,
    /// Where the first packet starts that is too many, in bytes from the input's first, where there is one.
    pub beyond: Option<u64>,
}

/// How many packets a batch has where no word says it.
pub const BATCH: u32 = 2_048;

/// How many packets a batch has at most.
pub const MOST_BATCH: u32 = 65_536;

/// How many packets are taken at most, unless a mode says otherwise.
pub const PACKET_LIMIT: u32 = 4_000_000;

/// What is kept of the packets of a batch until they are served.
pub trait Pile {
    // It has these packets, which stand behind so many others.
    ghost holds: { Self → ℕ → List (List ℕ) → Type 0 };

    // How it takes packets, as numbers, which no call changes.
    ghost way: { Self → List ℕ };

    // How many packets it may be given in all.
    ghost most: { ℕ };

    /// Takes the packet with this number, from 1.
    fn take(&mut self, number: u64, packet: &[u8]) -> Result<(), AllocError>
        requires some { (before : ℕ) × (packets : List (List ℕ)) × holds self.old before packets
            × (number ≡ before + length packets + 1) × (length packets + 1 ≤ MOST_BATCH) }
        requires limited { number ≤ most }
        requires short { length packet.now ≤ 262144 }
        ensures way { way self.new ≡ way self.old }
        ensures holds { OnOk result ((before : ℕ) (packets : List (List ℕ)) → holds self.old before packets →
            number ≡ before + length packets + 1 → holds self.new before (packets ++ packet.now ∷ [])) };

    /// Does what can be done of a whole batch before it is served.
    fn prepare(&mut self) -> Result<(), AllocError>
        requires some { (before : ℕ) × (packets : List (List ℕ)) × holds self.old before packets }
        ensures way { way self.new ≡ way self.old }
        ensures holds { OnOk result ((before : ℕ) (packets : List (List ℕ)) → holds self.old before packets →
            holds self.new before packets) };

    /// Gives up all its packets; the next one stands behind so many.
    fn clear(&mut self, before: u64)
        requires limited { before ≤ most }
        ensures way { way self.new ≡ way self.old }
        ensures none { holds self.new before [] };
}

/// What a batch is served with.
#[derive(Drop)]
pub struct Opened<T: Drop, W: Drop, K: Drop> {
    /// What all workers look at.
    pub shared: T,
    pub workers: Vec<W>,
    /// What nobody looks at meanwhile.
    pub kept: K,
    /// Whether all workers work in the caller's thread, one after the other.
    pub alone: bool,
}

/// A mode that goes through a capture batch by batch, by a plan.
///
/// A batch is opened, its workers work, each in a thread of its own, and it is closed. Then its lines are told; another
/// batch may be open by that time. The threads are no job's own, since no method of a trait can start them.
pub trait Job<P> {
    /// What it keeps of a batch's packets.
    type Pile: Pile;

    /// What the workers of a batch look at.
    type Shared: Sync + Drop;

    /// One who serves a part of a batch.
    type Worker: WorksOn<Self::Shared> + Send + Drop;

    /// What is kept of a batch while it is served.
    type Kept: Drop;

    /// What the lines of a batch are made from, once it is closed. It stays in the thread that closed it.
    type Closed: Drop;

    // The text is the head line and the lines of these batches; the text is a report of them, with this ending.
    ghost lines: { P → List (List (List ℕ)) → List ℕ → Type 0 };

    ghost report: { P → List (List (List ℕ)) → AnEnding → List ℕ → Type 0 };

    // How its piles take packets, as numbers, which no call changes.
    ghost way: { Self → List ℕ };

    // How many packets it may be given in all.
    ghost most: { ℕ };

    // So many packets were served, and no batch is open.
    ghost going: { Self → ℕ → Type 0 };

    // So many packets were served, and a batch is open behind them.
    ghost away: { Self → ℕ → Type 0 };

    // By this plan these batches were served, and this is the text of them. No batch is open.
    ghost done: { Self → P → List (List (List ℕ)) → List ℕ → Type 0 };

    // The same, where a batch is open behind them, which is served with these workers, on what they share.
    ghost under: { Self → Self.Shared → List Self.Worker → P → List (List (List ℕ)) → List ℕ → Type 0 };

    // With these workers, on what they share, it may serve these packets, which stand behind so many.
    ghost opened: { Self → Self.Shared → List Self.Worker → Self.Kept → ℕ → List (List ℕ) → Type 0 };

    // These may be told as the lines of a batch that is closed.
    ghost tells: { Self.Closed → List ℕ → Type 0 };

    /// Makes ready what the packets of one batch more are served with. The only error is want of memory.
    fn open(
        &mut self,
        alloc: Global,
        pile: &mut Self::Pile,
    ) -> Result<Opened<Self::Shared, Self::Worker, Self::Kept>, AllocError>
        requires going { (before : ℕ) × (packets : List (List ℕ)) × going self.old before
            × Self.Pile.holds pile.old before packets × (length packets ≤ MOST_BATCH)
            × (before + length packets ≤ most) }
        requires way { Self.Pile.way pile.old ≡ way self.old }
        ensures few { IfOk result (λ made. vec_len made.workers ≤ 8) }
        ensures ready { IfOk result (λ made. All (Self.Worker.ready made.shared) made.workers.items) }
        ensures ways { OnOk result ((way self.new ≡ way self.old) × (Self.Pile.way pile.new ≡ Self.Pile.way pile.old)) }
        ensures away { OnOk result ((before : ℕ) → going self.old before → away self.new before) }
        ensures under { IfOk result (λ made. (plan : P) (batches : List (List (List ℕ))) (put : List ℕ) →
            done self.old plan batches put → under self.new made.shared made.workers.items plan batches put) }
        ensures opened { IfOk result (λ made. (before : ℕ) (packets : List (List ℕ)) → going self.old before →
            Self.Pile.holds pile.old before packets →
            opened self.new made.shared made.workers.items made.kept before packets) };

    /// Takes apart what a batch was served with, whose workers are through. Its lines are told later. The only error is
    /// want of memory.
    fn close(
        &mut self,
        alloc: Global,
        made: Opened<Self::Shared, Self::Worker, Self::Kept>,
    ) -> Result<Self::Closed, AllocError>
        requires going { (started : List Self.Worker) × (before : ℕ) × (packets : List (List ℕ)) × away self.old before
            × opened self.old made.shared started made.kept before packets
            × AllZip (Self.Worker.done made.shared) started made.workers.items × (length packets ≤ MOST_BATCH)
            × (before + length packets ≤ most) }
        ensures way { OnOk result (way self.new ≡ way self.old) }
        ensures going { OnOk result ((started : List Self.Worker) (before : ℕ) (packets : List (List ℕ)) →
            away self.old before → opened self.old made.shared started made.kept before packets →
            AllZip (Self.Worker.done made.shared) started made.workers.items →
            going self.new (before + length packets)) }
        ensures some { IfOk result (λ closed. (lines : List ℕ) × tells closed lines) }
        ensures served { IfOk result (λ closed. (plan : P) (batches : List (List (List ℕ))) (put : List ℕ)
            (started : List Self.Worker) (before : ℕ) (packets : List (List ℕ)) →
            under self.old made.shared started plan batches put →
            away self.old before → opened self.old made.shared started made.kept before packets →
            AllZip (Self.Worker.done made.shared) started made.workers.items → (lines : List ℕ) →
            tells closed lines → done self.new plan (batches ++ packets ∷ []) (put ++ lines)) };

    /// Whether there is anything to tell of a batch that is closed.
    fn has_lines(&self, closed: &Self::Closed) -> bool
        ensures { result ≡ false → (lines : List ℕ) → tells closed.now lines → lines ≡ [] };

    /// Appends the lines of a batch that is closed. Another may be open meanwhile. The only error is want of memory.
    fn tell<R: Threads>(
        &mut self,
        rt: &R,
        alloc: Global,
        closed: Self::Closed,
        text: &mut Vec<u8>,
    ) -> Result<(), AllocError>
        requires some { (lines : List ℕ) × tells closed lines }
        ensures way { OnOk result (way self.new ≡ way self.old) }
        ensures going { OnOk result ((before : ℕ) → going self.old before → going self.new before) }
        ensures away { OnOk result ((before : ℕ) → away self.old before → away self.new before) }
        ensures done { OnOk result ((plan : P) (batches : List (List (List ℕ))) (put : List ℕ) →
            done self.old plan batches put → done self.new plan batches put) }
        ensures under { OnOk result ((shared : Self.Shared) (workers : List Self.Worker) (plan : P)
            (batches : List (List (List ℕ))) (put : List ℕ) → under self.old shared workers plan batches put →
            under self.new shared workers plan batches put) }
        ensures opened { OnOk result ((shared : Self.Shared) (workers : List Self.Worker) (kept : Self.Kept)
            (before : ℕ) (packets : List (List ℕ)) → opened self.old shared workers kept before packets →
            opened self.new shared workers kept before packets) }
        ensures told { OnOk result ((lines : List ℕ) × tells closed lines
            × (text.new.items ≡ text.old.items ++ lines)) };

    /// Appends the last lines. The only error is want of memory.
    fn finish(
        &mut self,
        packets: u64,
        ending: &Ending,
        text: &mut Vec<u8>,
    ) -> Result<(), AllocError>
        requires going { going self.old packets }
        requires limited { packets ≤ most }
        requires ending { IsEnding ending.now }
        ensures { OnOk result ((plan : P) (batches : List (List (List ℕ))) (put : List ℕ) →
            done self.old plan batches put → (rest : List ℕ) × (text.new.items ≡ text.old.items ++ rest)
            × report plan batches ending.now (put ++ rest)) };

    // The text of what was served is that of its lines, and goes on to a report with each ending.
    ghost told: { (job : Self) (plan : P) (batches : List (List (List ℕ))) (put : List ℕ) →
        done job plan batches put → lines plan batches put };

    ghost told_under: { (job : Self) (shared : Self.Shared) (workers : List Self.Worker) (plan : P)
        (batches : List (List (List ℕ))) (put : List ℕ) → under job shared workers plan batches put →
        lines plan batches put };

    ghost begins: { (job : Self) (plan : P) (batches : List (List (List ℕ))) (put : List ℕ) (ending : AnEnding) →
        done job plan batches put → (rest : List ℕ) × report plan batches ending (put ++ rest) };
}
