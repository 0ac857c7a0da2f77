//! The loop: what is read is served and put before more is read.

ghost use Rattle.std.specs.Prelude.{◌≡◌, ◌≤◌, ◌<◌, ◌+◌, ℕ, List, [], ◌∷◌, ◌++◌, length, false, Option, None, MatchOption, IfNone, Ok, Err, IfOk, IfErr, OnOk, OnErr};
ghost use Rattle.std.specs.List.{All, AllZip};
ghost use Rattle.std.specs.Option.{ForSome};
ghost use Rattle.std.specs.Thread.{IsSync};
ghost use Rattle.std.specs.Io.KnownBytes.{Appends};
ghost use Rattle.edge_traits.specs.Edge.{AppendsFront, Rose, count_after};
ghost use Rattle.pcapng_reader.specs.Reading.{IsAtStart};
ghost use Rattle.capture_faults.specs.Endings.{IsEnding};
ghost use Rattle.capture_loop.specs.Batches.{AreBatchesBy, IsCutAt, cut_of};
ghost use Rattle.capture_loop.specs.Intake.{IsTaken};
ghost use Rattle.capture_loop.specs.Leaves.{EndsBy, IsMet, LoopLeavesBy, Marks, RunReads, RunWrites};
ghost use Rattle.capture_loop.specs.Looping.{HasPut, OnMemory, OnNotPut, Standing, Stands};
ghost use Rattle.capture_loop.specs.Reading.{HaveCome, HaveEnded};
ghost use Rattle.capture_loop.specs.Endings.{OnLimit};
ghost use Rattle.capture_loop.specs.Input.{StopsAt};
ghost use Rattle.capture_loop.specs.declared.portions.Portions.{Portions};

use crate::intake::{read_rest, take_held};
use crate::job::{Job, MOST_BATCH, Means, Opened, Pile, Piles};
use crate::opening::{Unopened, open};
use crate::stop::Stop;
use capture_faults::Ending;
use edge_traits::{Failed, Gate, Sink, Source, write_all};
use pcap_reader::MOST_PACKETS;
use pcapng_reader::AnyReader;
use std::alloc::{AllocError, Global};
use std::mem;
use std::thread::{Threads, join_mut};
use trace_share::{WorksOn, serve_on};

/// Goes through the source's packets of this link type batch by batch, as the job does, and puts its report into the
/// sink. The text holds the head line, and the first pile is empty.
///
/// While a batch is served, the lines of the one before are told and put, and packets of the next one that the reader
/// holds are taken into the other pile. The source is read only behind the lines of all that was served. A read that
/// fails is the input's end, and a write that fails ends the run.
pub fn run_job<R: Threads + Sync, S: Source, K: Sink, G: Gate + Sync, P, J: Job<P>>(
    means: &Means<R, G>,
    link: u16,
    job: &mut J,
    piles: &mut Piles<J::Pile>,
    source: &mut S,
    text: &mut Vec<u8>,
    sink: &mut K,
) -> Result<Ending, Stop>
    requires batch { (0 < means.now.portions.batch) × (means.now.portions.batch ≤ MOST_BATCH) }
    requires every { ForSome means.now.portions.every (λ every. 0 < every) }
    requires limit { (0 < means.now.portions.limit) × (means.now.portions.limit ≤ J.most)
        × (means.now.portions.limit ≤ J.Pile.most) × (means.now.portions.limit ≤ MOST_PACKETS) }
    requires going { J.going job.old 0 }
    requires none { J.Pile.holds piles.old.now 0 [] }
    requires ways { (J.Pile.way piles.old.now ≡ J.way job.old) × (J.Pile.way piles.old.next ≡ J.way job.old) }
    ensures leaves { (plan : P) → J.done job.old plan [] text.old.items →
        LoopLeavesBy means.now.portions (J.lines plan) (J.report plan)
        (EndsBy (S.failed source.old) (S.failed source.new))
        link (S.left source.old) (S.left source.new) (K.put sink.old) (K.put sink.new) result }

    // Where the first packet starts that is not served, exactly if there were more than are taken.
    ensures beyond { (plan : P) → J.done job.old plan [] text.old.items →
        Marks result piles.old.beyond piles.new.beyond
        (StopsAt link means.now.portions.limit (S.left source.old) (S.left source.new)) }

    // A device failed, and each that did is answered.
    ensures ending { IfOk result IsEnding }
    ensures read_fault { result ≡ Ok Ending.ReadFault → Rose (S.faults source.old) (S.faults source.new) }
    ensures write_fault { OnNotPut result (Rose (K.faults sink.old) (K.faults sink.new)) }
    ensures reads { RunReads result (S.failed source.old) (S.failed source.new) }
    ensures writes { RunWrites result (K.failed sink.old) (K.failed sink.new) }
    ensures counted { (S.faults source.old ≤ S.faults source.new) × (K.faults sink.old ≤ K.faults sink.new) }
{
    match open(means.alloc, link, source) {
        Ok(mut reader) => {
            let answer = go_through(means, job, piles, &mut reader, source, text, sink);
            mark(&answer, reader.start(), &mut piles.beyond);
            answer
        }
        Err(unopened) => match unopened {
            Unopened::Ends(ending) => {
                let last = Last { packets: 0, ending };
                serve_last(means, job, &mut piles.now, 0, last, text, sink)
            }
            Unopened::Memory => Err(Stop::Memory),
        },
    }
}

/// Notes where the first packet starts that is too many, if a run ended for that.
pub fn mark(answer: &Result<Ending, Stop>, start: u64, beyond: &mut Option<u64>)
    ensures { Marks answer.now beyond.old beyond.new (λ place. place ≡ start) }
{
    if let Ok(Ending::Limit { .. }) = answer {
        *beyond = Some(start);
    }
}

/// What was read of the last batch.
#[derive(Clone, Copy)]
struct Last {
    /// How many packets.
    packets: u32,
    ending: Ending,
}

/// The batches that are served so far.
#[derive(Drop)]
struct Batches<C: Drop> {
    /// How many packets they have.
    packets: u64,
    /// How many packets of the next batch are in its pile.
    ahead: u32,
    /// The last of them, where none of its lines is told yet.
    untold: Option<C>,
}

/// The same behind the head of an input.
///
/// Where a whole batch is taken, this is served while the lines of the one before are told and put. Otherwise all that
/// was served is told and put, and then the source is read.
fn go_through<R: Threads + Sync, S: Source, K: Sink, G: Gate + Sync, P, J: Job<P>>(
    means: &Means<R, G>,
    job: &mut J,
    piles: &mut Piles<J::Pile>,
    reader: &mut AnyReader,
    source: &mut S,
    text: &mut Vec<u8>,
    sink: &mut K,
) -> Result<Ending, Stop>
    requires start { IsAtStart reader.old }
    requires batch { (0 < means.now.portions.batch) × (means.now.portions.batch ≤ MOST_BATCH) }
    requires every { ForSome means.now.portions.every (λ every. 0 < every) }
    requires limit { (0 < means.now.portions.limit) × (means.now.portions.limit ≤ J.most)
        × (means.now.portions.limit ≤ J.Pile.most) × (means.now.portions.limit ≤ MOST_PACKETS) }
    requires going { J.going job.old 0 }
    requires none { J.Pile.holds piles.old.now 0 [] }
    requires ways { (J.Pile.way piles.old.now ≡ J.way job.old) × (J.Pile.way piles.old.next ≡ J.way job.old) }
    ensures leaves { (plan : P) (link : ℕ) (first before : Option (List ℕ)) (failed : ℕ) →
        failed ≡ S.failed source.old →
        J.done job.old plan [] text.old.items → HasPut before (K.put sink.old) text.old.items text.old.items →
        HaveCome link first (S.left source.old) reader.old [] →
        LoopLeavesBy means.now.portions (J.lines plan) (J.report plan) (EndsBy failed (S.failed source.new)) link first
        (S.left source.new)
        before (K.put sink.new) result }
    ensures beyond { (plan : P) (link : ℕ) (first before : Option (List ℕ)) →
        J.done job.old plan [] text.old.items → HasPut before (K.put sink.old) text.old.items text.old.items →
        HaveCome link first (S.left source.old) reader.old [] → IfOk result (λ ending. OnLimit ending
        (StopsAt link means.now.portions.limit first (S.left source.new) reader.new.start)) }
    ensures kept { piles.new.beyond ≡ piles.old.beyond }
    ensures ending { IfOk result IsEnding }
    ensures read_fault { result ≡ Ok Ending.ReadFault → Rose (S.faults source.old) (S.faults source.new) }
    ensures write_fault { OnNotPut result (Rose (K.faults sink.old) (K.faults sink.new)) }
    ensures reads { RunReads result (S.failed source.old) (S.failed source.new) }
    ensures writes { RunWrites result (K.failed sink.old) (K.failed sink.new) }
    ensures counted { (S.faults source.old ≤ S.faults source.new) × (K.faults sink.old ≤ K.faults sink.new) }
{
    let limit = means.portions.limit;
    let mut so_far = Batches {
        packets: 0,
        ahead: 0,
        untold: None,
    };
    'batches: loop {
        let before = so_far.packets;
        let ahead = so_far.ahead;
        if before + u64::from(ahead) < limit && means.portions.may_end(before, ahead) {
            so_far.ahead = turn(means, job, piles, &mut so_far, reader, text, sink)?;
        } else {
            let written = settle(means.rt, means.alloc, job, &mut so_far.untold, text, sink)?;
            written?;
            let portions = &means.portions;
            let part = read_rest(reader, source, portions, before, ahead, &mut piles.now)?;
            if let Some(ending) = part.ending {
                let last = Last {
                    packets: part.packets,
                    ending,
                };
                return serve_last(means, job, &mut piles.now, before, last, text, sink);
            }
            so_far.ahead = part.packets;
        }
    }
}

/// Serves the batch of the pile. Meanwhile the lines of the batch before it are told and put, where they are not yet,
/// and what the reader holds of the next batch is taken. Answers how many packets that are.
fn turn<R: Threads + Sync, K: Sink, G: Gate + Sync, P, J: Job<P>>(
    means: &Means<R, G>,
    job: &mut J,
    piles: &mut Piles<J::Pile>,
    so_far: &mut Batches<J::Closed>,
    reader: &mut AnyReader,
    text: &mut Vec<u8>,
    sink: &mut K,
) -> Result<u32, Stop>
    requires batch { (0 < means.now.portions.batch) × (means.now.portions.batch ≤ MOST_BATCH) }
    requires every { ForSome means.now.portions.every (λ every. 0 < every) }
    requires limit { (means.now.portions.limit ≤ J.most) × (means.now.portions.limit ≤ J.Pile.most)
        × (means.now.portions.limit ≤ MOST_PACKETS) }
    requires reads { reader.old.ended ≡ false }
    requires given { reader.old.given ≡ so_far.old.packets + so_far.old.ahead }
    requires whole { IsCutAt means.now.portions so_far.old.packets so_far.old.ahead }
    requires few { so_far.old.packets + so_far.old.ahead < means.now.portions.limit }
    requires going { J.going job.old so_far.old.packets }
    requires piled { (packets : List (List ℕ)) × J.Pile.holds piles.old.now so_far.old.packets packets
        × (length packets ≡ so_far.old.ahead) }
    requires ways { (J.Pile.way piles.old.now ≡ J.way job.old) × (J.Pile.way piles.old.next ≡ J.way job.old) }
    requires some { ForSome so_far.old.untold (λ closed. (lines : List ℕ) × J.tells closed lines) }
    ensures packets { OnOk result (so_far.new.packets ≡ so_far.old.packets + so_far.old.ahead) }
    ensures reads { OnOk result (reader.new.ended ≡ false) }
    ensures given { IfOk result (λ ahead. reader.new.given ≡ so_far.new.packets + ahead) }
    ensures few { IfOk result (λ ahead. (ahead ≤ cut_of means.now.portions so_far.new.packets)
        × (so_far.new.packets + ahead ≤ means.now.portions.limit)) }
    ensures going { OnOk result (J.going job.new so_far.new.packets) }
    ensures piled { IfOk result (λ ahead. (packets : List (List ℕ))
        × J.Pile.holds piles.new.now so_far.new.packets packets × (length packets ≡ ahead)) }
    ensures ways { OnOk result ((J.Pile.way piles.new.now ≡ J.way job.new)
        × (J.Pile.way piles.new.next ≡ J.way job.new)) }
    ensures kept { piles.new.beyond ≡ piles.old.beyond }
    ensures some { OnOk result (ForSome so_far.new.untold (λ closed. (lines : List ℕ) × J.tells closed lines)) }
    ensures held { OnOk result (IfNone so_far.new.untold (text.new.items ≡ [])) }
    ensures stands { IfOk result (λ ahead. (plan : P) (link : ℕ) (first left before : Option (List ℕ))
        (all packets : List (List ℕ)) →
        Standing means.now.portions (J.done job.old plan) (J.lines plan) J.tells so_far.old.untold link first left
        so_far.old.packets all before (K.put sink.old) text.old.items →
        J.Pile.holds piles.old.now so_far.old.packets packets →
        length packets ≡ so_far.old.ahead →
        HaveCome link first left reader.old (all ++ packets) → (held : List (List ℕ))
        × Standing means.now.portions (J.done job.new plan) (J.lines plan) J.tells so_far.new.untold link first left
        so_far.new.packets (all ++ packets) before (K.put sink.new) text.new.items
        × J.Pile.holds piles.new.now so_far.new.packets held × (length held ≡ ahead)
        × HaveCome link first left reader.new ((all ++ packets) ++ held)) }
    ensures leaves { IfErr result (λ stop. (plan : P) (failed now link : ℕ)
        (first left before : Option (List ℕ)) (all : List (List ℕ)) →
        Standing means.now.portions (J.done job.old plan) (J.lines plan) J.tells so_far.old.untold link first left
        so_far.old.packets all before (K.put sink.old) text.old.items →
        LoopLeavesBy means.now.portions (J.lines plan) (J.report plan) (EndsBy failed now) link first left before
        (K.put sink.new) (Err stop)) }
    ensures failed { OnNotPut result (Rose (K.faults sink.old) (K.faults sink.new)) }
    ensures writes { RunWrites result (K.failed sink.old) (K.failed sink.new) }
    ensures counted { K.faults sink.old ≤ K.faults sink.new }
{
    let packets = so_far.packets + u64::from(so_far.ahead);
    let batch = means.portions.at(packets);
    let limit = means.portions.limit;
    let Opened {
        shared,
        mut workers,
        kept,
        alone,
    } = job.open(means.alloc, &mut piles.now)?;
    piles.next.clear(packets);
    let apart = so_far.untold.is_some();
    let untold = &mut so_far.untold;
    let next = &mut piles.next;
    let hands = Hands { alone, apart };
    let (told, taken) = work(
        means,
        hands,
        &shared,
        workers.as_mut_slice(),
        &mut || -> (
            Result<Result<(), Failed>, AllocError>,
            Result<u32, AllocError>,
        )
            requires some { ForSome untold.now (λ closed. (lines : List ℕ) × J.tells closed lines) }
            requires limited { (limit ≤ J.Pile.most) × (limit ≤ MOST_PACKETS) }
            requires held { (reader.now.ended ≡ false) × (reader.now.given ≡ packets) × (packets < limit)
                × (batch ≤ MOST_BATCH) × J.Pile.holds next.now packets [] }
            ensures memory { OnErr result.0 ((plan : P) (failed now : ℕ) (portions : Portions) (link many : ℕ)
                (first left before : Option (List ℕ)) (all : List (List ℕ)) →
                Standing portions (J.lines plan) (J.lines plan) J.tells untold.entry.now link first left many
                all before (K.put sink.entry.now) text.entry.now.items →
                LoopLeavesBy portions (J.lines plan) (J.report plan) (EndsBy failed now) link first left before
                (K.put sink.exit.now) (Err Stop.Memory)) }
            ensures front { IfOk result.0 (λ put. OnErr put ((plan : P)
                (failed now : ℕ) (portions : Portions) (link many : ℕ)
                (first left before : Option (List ℕ)) (all : List (List ℕ)) →
                Standing portions (J.lines plan) (J.lines plan) J.tells untold.entry.now link first left many
                all before (K.put sink.entry.now) text.entry.now.items →
                LoopLeavesBy portions (J.lines plan) (J.report plan) (EndsBy failed now) link first left before
                (K.put sink.exit.now) (Err Stop.NotPut))) }
            ensures stands { IfOk result.0 (λ put. OnOk put ((shared : J.Shared) (workers : List J.Worker) (plan : P)
                (portions : Portions) (link many : ℕ) (first left before : Option (List ℕ)) (all : List (List ℕ)) →
                Standing portions (J.under job.entry.now shared workers plan) (J.lines plan) J.tells untold.entry.now
                link first left many all before (K.put sink.entry.now) text.entry.now.items →
                Stands portions (J.under job.exit.now shared workers plan) link first many all before
                (K.put sink.exit.now) text.exit.now.items)) }
            ensures job { OnOk result.0 ((J.way job.exit.now ≡ J.way job.entry.now)
                × ((before : ℕ) → J.away job.entry.now before → J.away job.exit.now before)
                × ((shared : J.Shared) (workers : List J.Worker) (kept : J.Kept)
                (before : ℕ) (packets : List (List ℕ)) → J.opened job.entry.now shared workers kept before packets →
                J.opened job.exit.now shared workers kept before packets)) }
            ensures failed { IfOk result.0 (λ put. OnErr put ((Rose (K.faults sink.entry.now) (K.faults sink.exit.now))
                × (K.failed sink.exit.now ≡ count_after (K.failed sink.entry.now) 1))) }
            ensures none_failed { OnErr result.0 (K.failed sink.exit.now ≡ K.failed sink.entry.now) }
            ensures none_failed_put { IfOk result.0 (λ put.
                OnOk put (K.failed sink.exit.now ≡ K.failed sink.entry.now)) }
            ensures counted { K.faults sink.entry.now ≤ K.faults sink.exit.now }
            ensures way { J.Pile.way next.exit.now ≡ J.Pile.way next.entry.now }
            ensures taken { IfOk result.1 (λ ahead. (more : List (List ℕ)) × J.Pile.holds next.exit.now packets more
                × (length more ≡ ahead) × IsTaken limit reader.entry.now reader.exit.now batch packets more) }
        {
            let told = settle(means.rt, means.alloc, job, untold, text, sink);
            (told, take_held(reader, batch, packets, limit, next))
        },
    );
    let served = Opened {
        shared,
        workers,
        kept,
        alone,
    };
    let written = told?;
    written?;
    let ahead = taken?;
    let closed = job.close(means.alloc, served)?;
    so_far.untold = untold_of(job, closed, text);
    so_far.packets = packets;
    mem::swap(&mut piles.now, &mut piles.next);
    Ok(ahead)
}

/// Keeps of a batch that is closed what its lines are made from, unless there is nothing to tell and no text is held.
fn untold_of<P, J: Job<P>>(job: &J, closed: J::Closed, text: &Vec<u8>) -> Option<J::Closed>
    ensures some { ForSome result (λ kept. kept ≡ closed) }
    ensures none { IfNone result ((text.now.items ≡ [])
        × ((lines : List ℕ) → J.tells closed lines → lines ≡ [])) }
{
    if job.has_lines(&closed) || !text.is_empty() {
        return Some(closed);
    }
    None
}

/// In which threads workers work.
#[derive(Clone, Copy)]
struct Hands {
    /// All in the caller's, one after the other.
    alone: bool,
    /// Or else all in other threads than what is done meanwhile.
    apart: bool,
}

/// Lets the workers work, and does this once meanwhile in the caller's thread. Where they do not work alone or apart,
/// the last one works in the caller's thread too, behind this.
fn work<R: Threads + Sync, G: Gate + Sync, T: Sync, W: WorksOn<T> + Send, F: FnMut() -> A, A>(
    means: &Means<R, G>,
    hands: Hands,
    on: &T,
    workers: &mut [W],
    beside: &mut F,
) -> A
    requires few { length workers.old ≤ 8 }
    requires ready { All (W.ready on.now) workers.old }
    requires beside { F.pre beside.old }
    ensures done { AllZip (W.done on.now) workers.old workers.new }
    ensures beside { F.step beside.old result beside.new }
{
    let rt = means.rt;
    let gate = means.gate;
    if hands.alone {
        let made = beside();
        serve_alone(on, 0, workers, gate);
        return made;
    }
    if !hands.apart {
        return serve_on(rt, on, workers, gate, beside);
    }
    let ((), made) = join_mut(
        rt,
        &mut ||
            requires { IsSync R.row × IsSync T.row × IsSync G.row × (length workers.now ≤ 8)
                × All (W.ready on.now) workers.now }
            ensures { AllZip (W.done on.entry.now) workers.entry.now workers.exit.now }
        { serve_on(rt, on, workers, gate, &mut || {}) },
        beside,
    );
    made
}

/// Each worker works in the caller's thread, one after the other. The first has this seat.
fn serve_alone<T, W: WorksOn<T>, G: Gate>(on: &T, first: u32, workers: &mut [W], gate: &G)
    requires few { first + length workers.old ≤ 8 }
    requires ready { All (W.ready on.now) workers.old }
    ensures { AllZip (W.done on.now) workers.old workers.new }
{
    if workers.len() == 0 {
        return;
    }
    if workers.len() == 1 {
        workers[0].work_on(on, first, gate);
        return;
    }
    let half = workers.len() / 2;
    let second = first + half as u32;
    let (front, back) = workers.split_at_mut(half);
    serve_alone(on, first, front, gate);
    serve_alone(on, second, back, gate);
}

/// Tells the lines of a batch that is closed, where there is one, and puts them with the text that is held. Memory may
/// run out, and otherwise the write may fail.
fn settle<R: Threads, K: Sink, P, J: Job<P>>(
    rt: &R,
    alloc: Global,
    job: &mut J,
    untold: &mut Option<J::Closed>,
    text: &mut Vec<u8>,
    sink: &mut K,
) -> Result<Result<(), Failed>, AllocError>
    requires some { ForSome untold.old (λ closed. (lines : List ℕ) × J.tells closed lines) }
    ensures none { untold.new ≡ None }
    ensures held { IfOk result (λ put. OnOk put (MatchOption untold.old (text.new.items ≡ text.old.items)
        (λ closed. text.new.items ≡ []))) }
    ensures job { OnOk result ((J.way job.new ≡ J.way job.old)
        × ((before : ℕ) → J.going job.old before → J.going job.new before)
        × ((before : ℕ) → J.away job.old before → J.away job.new before)
        × ((shared : J.Shared) (workers : List J.Worker) (kept : J.Kept)
        (before : ℕ) (packets : List (List ℕ)) → J.opened job.old shared workers kept before packets →
        J.opened job.new shared workers kept before packets)) }
    ensures stands { IfOk result (λ put. OnOk put ((plan : P) (portions : Portions) (link many : ℕ)
        (first left before : Option (List ℕ)) (all : List (List ℕ)) →
        Standing portions (J.done job.old plan) (J.lines plan) J.tells untold.old link first left many all before
        (K.put sink.old) text.old.items →
        Stands portions (J.done job.new plan) link first many all before (K.put sink.new) text.new.items)) }
    ensures stands_under { IfOk result (λ put. OnOk put ((shared : J.Shared) (workers : List J.Worker) (plan : P)
        (portions : Portions) (link many : ℕ) (first left before : Option (List ℕ)) (all : List (List ℕ)) →
        Standing portions (J.under job.old shared workers plan) (J.lines plan) J.tells untold.old link first left many
        all before (K.put sink.old) text.old.items →
        Stands portions (J.under job.new shared workers plan) link first many all before (K.put sink.new)
        text.new.items)) }
    ensures memory { OnErr result ((plan : P) (failed now : ℕ) (portions : Portions) (link many : ℕ)
        (first left before : Option (List ℕ)) (all : List (List ℕ)) →
        Standing portions (J.lines plan) (J.lines plan) J.tells untold.old link first left many all before
        (K.put sink.old) text.old.items →
        LoopLeavesBy portions (J.lines plan) (J.report plan) (EndsBy failed now) link first left before (K.put sink.new)
        (Err Stop.Memory)) }
    ensures front { IfOk result (λ put. OnErr put ((plan : P) (failed now : ℕ) (portions : Portions) (link many : ℕ)
        (first left before : Option (List ℕ)) (all : List (List ℕ)) →
        Standing portions (J.lines plan) (J.lines plan) J.tells untold.old link first left many all before
        (K.put sink.old) text.old.items →
        LoopLeavesBy portions (J.lines plan) (J.report plan) (EndsBy failed now) link first left before (K.put sink.new)
        (Err Stop.NotPut))) }
    ensures failed { IfOk result (λ put. OnErr put ((Rose (K.faults sink.old) (K.faults sink.new))
        × (K.failed sink.new ≡ count_after (K.failed sink.old) 1))) }
    ensures none_failed { OnErr result (K.failed sink.new ≡ K.failed sink.old) }
    ensures none_failed_put { IfOk result (λ put. OnOk put (K.failed sink.new ≡ K.failed sink.old)) }
    ensures counted { K.faults sink.old ≤ K.faults sink.new }
{
    match untold.take() {
        Some(closed) => {
            job.tell(rt, alloc, closed, text)?;
            Ok(put(sink, text))
        }
        None => Ok(Ok(())),
    }
}

/// Serves the packets of one batch more, and appends their lines. The only error is want of memory.
fn serve<R: Threads + Sync, G: Gate + Sync, P, J: Job<P>>(
    means: &Means<R, G>,
    job: &mut J,
    pile: &mut J::Pile,
    text: &mut Vec<u8>,
) -> Result<(), AllocError>
    requires going { (before : ℕ) × (packets : List (List ℕ)) × J.going job.old before
        × J.Pile.holds pile.old before packets × (length packets ≤ MOST_BATCH)
        × (before + length packets ≤ J.most) }
    requires way { J.Pile.way pile.old ≡ J.way job.old }
    ensures going { OnOk result ((before : ℕ) (packets : List (List ℕ)) → J.going job.old before →
        J.Pile.holds pile.old before packets → J.going job.new (before + length packets)) }
    ensures served { OnOk result ((plan : P) (batches : List (List (List ℕ))) (put : List ℕ) (before : ℕ)
        (packets : List (List ℕ)) → J.done job.old plan batches put → J.going job.old before →
        J.Pile.holds pile.old before packets → (lines : List ℕ) × (text.new.items ≡ text.old.items ++ lines)
        × J.done job.new plan (batches ++ packets ∷ []) (put ++ lines)) }
{
    let Opened {
        shared,
        mut workers,
        kept,
        alone,
    } = job.open(means.alloc, pile)?;
    let hands = Hands {
        alone,
        apart: false,
    };
    work(means, hands, &shared, workers.as_mut_slice(), &mut || {});
    let served = Opened {
        shared,
        workers,
        kept,
        alone,
    };
    let closed = job.close(means.alloc, served)?;
    job.tell(means.rt, means.alloc, closed, text)
}

/// Puts the text that is held, and holds none then.
fn put<K: Sink>(sink: &mut K, text: &mut Vec<u8>) -> Result<(), Failed>
    ensures ok { OnOk result (Appends (K.put sink.old) (K.put sink.new) text.old.items) }
    ensures none { OnOk result (text.new.items ≡ []) }
    ensures prefix { OnErr result (AppendsFront (K.put sink.old) (K.put sink.new) text.old.items) }
    ensures failed { OnErr result (Rose (K.faults sink.old) (K.faults sink.new)) }
    ensures counted { K.faults sink.old ≤ K.faults sink.new }
    ensures one_failed { OnErr result (K.failed sink.new ≡ count_after (K.failed sink.old) 1) }
    ensures none_failed { OnOk result (K.failed sink.new ≡ K.failed sink.old) }
{
    write_all(sink, text)?;
    text.clear();
    Ok(())
}

/// Serves the packets of one batch more, and puts its lines.
fn serve_one<R: Threads + Sync, K: Sink, G: Gate + Sync, P, J: Job<P>>(
    means: &Means<R, G>,
    job: &mut J,
    pile: &mut J::Pile,
    text: &mut Vec<u8>,
    sink: &mut K,
) -> Result<(), Stop>
    requires going { (many : ℕ) × (packets : List (List ℕ)) × J.going job.old many
        × J.Pile.holds pile.old many packets × (length packets ≤ MOST_BATCH)
        × (many + length packets ≤ J.most) }
    requires way { J.Pile.way pile.old ≡ J.way job.old }
    ensures going { OnOk result ((many : ℕ) (packets : List (List ℕ)) → J.going job.old many →
        J.Pile.holds pile.old many packets → J.going job.new (many + length packets)) }
    ensures served { OnOk result ((plan : P) (batches : List (List (List ℕ))) (done : List ℕ)
        (before : Option (List ℕ)) (many : ℕ) (packets : List (List ℕ)) → J.done job.old plan batches done →
        J.going job.old many → J.Pile.holds pile.old many packets →
        HasPut before (K.put sink.old) text.old.items done →
        (lines : List ℕ) × J.done job.new plan (batches ++ packets ∷ []) (done ++ lines)
        × HasPut before (K.put sink.new) text.new.items (done ++ lines)) }
    ensures none { OnOk result (text.new.items ≡ []) }
    ensures front { OnNotPut result ((plan : P) (batches : List (List (List ℕ))) (done : List ℕ)
        (before : Option (List ℕ)) (many : ℕ) (packets : List (List ℕ)) → J.done job.old plan batches done →
        J.going job.old many → J.Pile.holds pile.old many packets →
        HasPut before (K.put sink.old) text.old.items done →
        (lines : List ℕ) × J.done job.new plan (batches ++ packets ∷ []) (done ++ lines)
        × AppendsFront before (K.put sink.new) (done ++ lines)) }
    ensures memory { OnMemory result (sink.new ≡ sink.old) }
    ensures failed { OnNotPut result (Rose (K.faults sink.old) (K.faults sink.new)) }
    ensures writes { RunWrites result (K.failed sink.old) (K.failed sink.new) }
    ensures counted { K.faults sink.old ≤ K.faults sink.new }
{
    serve(means, job, pile, text)?;
    put(sink, text)?;
    Ok(())
}

/// Serves the last batch, where one is begun, and puts what is left of the report.
fn serve_last<R: Threads + Sync, K: Sink, G: Gate + Sync, P, J: Job<P>>(
    means: &Means<R, G>,
    job: &mut J,
    pile: &mut J::Pile,
    many: u64,
    last: Last,
    text: &mut Vec<u8>,
    sink: &mut K,
) -> Result<Ending, Stop>
    requires going { J.going job.old many }
    requires piled { (packets : List (List ℕ)) × J.Pile.holds pile.old many packets
        × (length packets ≡ last.packets) }
    requires way { J.Pile.way pile.old ≡ J.way job.old }
    requires batch { (0 < means.now.portions.batch) × (means.now.portions.batch ≤ MOST_BATCH) }
    requires every { ForSome means.now.portions.every (λ every. 0 < every) }
    requires limit { (means.now.portions.limit ≤ J.most) × (means.now.portions.limit ≤ J.Pile.most)
        × (means.now.portions.limit ≤ MOST_PACKETS) }
    requires few { (last.packets ≤ MOST_BATCH) × (many + last.packets ≤ means.now.portions.limit) }
    requires cut { last.packets ≤ cut_of means.now.portions many }
    requires ending { IsEnding last.ending }
    ensures leaves { (plan : P) (failed now : ℕ) (link : ℕ) (first left before : Option (List ℕ))
        (all packets : List (List ℕ)) →
        Stands means.now.portions (J.done job.old plan) link first many all before (K.put sink.old) text.old.items →
        J.Pile.holds pile.old many packets → length packets ≡ last.packets →
        HaveEnded means.now.portions.limit link first left (all ++ packets) last.ending →
        IsMet (EndsBy failed now) last.ending →
        LoopLeavesBy means.now.portions (J.lines plan) (J.report plan) (EndsBy failed now) link first left before
        (K.put sink.new) result }
    ensures same { IfOk result (λ ending. ending ≡ last.ending) }
    ensures write_fault { OnNotPut result (Rose (K.faults sink.old) (K.faults sink.new)) }
    ensures writes { RunWrites result (K.failed sink.old) (K.failed sink.new) }
    ensures counted { K.faults sink.old ≤ K.faults sink.new }
{
    if last.packets == 0 && many > 0 {
        return end_run(job, many, last.ending, text, sink);
    }
    match serve_one(means, job, pile, text, sink) {
        Ok(()) => end_run(job, many + u64::from(last.packets), last.ending, text, sink),
        Err(stop) => Err(stop),
    }
}

/// Puts what is left of the report, where all batches were served.
fn end_run<K: Sink, P, J: Job<P>>(
    job: &mut J,
    packets: u64,
    ending: Ending,
    text: &mut Vec<u8>,
    sink: &mut K,
) -> Result<Ending, Stop>
    requires going { J.going job.old packets }
    requires limited { packets ≤ J.most }
    requires ending { IsEnding ending }
    ensures leaves { (plan : P) (portions : Portions) (failed now link : ℕ) (first left before : Option (List ℕ))
        (all : List (List ℕ)) (batches : List (List (List ℕ))) (done : List ℕ) → J.done job.old plan batches done →
        AreBatchesBy portions all batches → HasPut before (K.put sink.old) text.old.items done →
        HaveEnded portions.limit link first left all ending → IsMet (EndsBy failed now) ending →
        LoopLeavesBy portions (J.lines plan) (J.report plan) (EndsBy failed now) link first left before (K.put sink.new)
        result }
    ensures same { IfOk result (λ last. last ≡ ending) }
    ensures write_fault { OnNotPut result (Rose (K.faults sink.old) (K.faults sink.new)) }
    ensures writes { RunWrites result (K.failed sink.old) (K.failed sink.new) }
    ensures counted { K.faults sink.old ≤ K.faults sink.new }
{
    if let Err(memory) = job.finish(packets, &ending, text) {
        return Err(Stop::from(memory));
    }
    match put(sink, text) {
        Ok(()) => Ok(ending),
        Err(failed) => Err(Stop::from(failed)),
    }
}
