//! A run that counts.

ghost use Rattle.std.specs.Prelude.{◌≡◌, ◌<◌, ◌≤◌, Ok};
ghost use Rattle.edge_traits.specs.Edge.{Rose};
ghost use Rattle.capture_loop.specs.Input.{StopsAt, in_batches, packet_limit};
ghost use Rattle.capture_loop.specs.Leaves.{EndsBy, LoopLeavesAll, Marks, RunReads, RunWrites};
ghost use Rattle.capture_loop.specs.declared.job.TheConstants.{MOST_BATCH};
ghost use Rattle.capture_loop.specs.Looping.{OnNotPut};
ghost use Rattle.packet_heads.specs.Links.{number_in};
ghost use Rattle.totals_runner.specs.Told.{IsTotalsLines, IsTotalsReport};

use crate::adds::totals_head_text;
use crate::counting::{Asked, Counting};
use crate::frames::Frames;
use capture_faults::Ending;
use capture_loop::{Means, Piles, Stop, run_job};
use edge_traits::{Gate, Sink, Source};
use std::thread::Threads;

/// Counts the packets of the source's input as is asked, batch by batch, each by the adder of its seat in a thread of
/// its own, and puts the report into the sink.
pub fn count_input<R: Threads + Sync, S: Source, K: Sink, G: Gate + Sync>(
    means: &Means<R, G>,
    asked: &Asked,
    source: &mut S,
    sink: &mut K,
    beyond: &mut Option<u64>,
) -> Result<Ending, Stop>
    requires some { 1 ≤ asked.now.seats }
    requires few { asked.now.seats ≤ 8 }
    requires batch { (0 < asked.now.batch) × (asked.now.batch ≤ MOST_BATCH) }
    requires so_many { means.now.portions ≡ in_batches asked.now.batch }
    ensures leaves { LoopLeavesAll asked.now.batch (IsTotalsLines asked.now) (IsTotalsReport asked.now)
        (EndsBy (S.failed source.old) (S.failed source.new)) (number_in asked.now.framing.link)
        (S.left source.old) (S.left source.new) (K.put sink.old) (K.put sink.new) result }

    // Where the first packet starts that is not counted, exactly if there were more than are taken.
    ensures beyond { Marks result beyond.old beyond.new
        (StopsAt (number_in asked.now.framing.link) packet_limit (S.left source.old) (S.left source.new)) }

    // A device failed, and each that did is answered.
    ensures read_fault { result ≡ Ok Ending.ReadFault → Rose (S.faults source.old) (S.faults source.new) }
    ensures write_fault { OnNotPut result (Rose (K.faults sink.old) (K.faults sink.new)) }
    ensures reads { RunReads result (S.failed source.old) (S.failed source.new) }
    ensures writes { RunWrites result (K.failed sink.old) (K.failed sink.new) }
    ensures counted { (S.faults source.old ≤ S.faults source.new) × (K.faults sink.old ≤ K.faults sink.new) }
{
    let mut text = Vec::new(means.alloc);
    totals_head_text(&mut text, asked.seats, asked.batch)?;
    let mut counting = Counting::new(asked);
    let mut piles = Piles {
        now: Frames::new(means.alloc, asked.framing),
        next: Frames::new(means.alloc, asked.framing),
        beyond: *beyond,
    };
    let link = asked.framing.link.number();
    let answer = run_job::<R, S, K, G, Asked, Counting>(
        means,
        link,
        &mut counting,
        &mut piles,
        source,
        &mut text,
        sink,
    );
    *beyond = piles.beyond;
    answer
}
