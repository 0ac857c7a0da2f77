//! A run through flows.

ghost use Rattle.std.specs.Prelude.{◌≡◌, ◌<◌, ◌≤◌, Ok};
ghost use Rattle.std.specs.Option.{ForSome};
ghost use Rattle.edge_traits.specs.Edge.{Rose};
ghost use Rattle.capture_loop.specs.Input.{StopsAt};
ghost use Rattle.capture_loop.specs.Leaves.{EndsBy, LeavesBy, Marks, RunReads, RunWrites};
ghost use Rattle.capture_loop.specs.declared.job.TheConstants.{MOST_BATCH};
ghost use Rattle.capture_loop.specs.Looping.{OnNotPut};
ghost use Rattle.packet_heads.specs.Links.{number_in};
ghost use Rattle.flows_runner.specs.declared.pile.TheConstants.{FLOW_LIMIT};
ghost use Rattle.flows_runner.specs.Asked.{CanBeAsked, IsPortionsOf};
ghost use Rattle.flows_runner.specs.Told.{ReportsFlows, TellsFlows};

use crate::asked::Asked;
use crate::flowing::{Flowing, head_of};
use crate::pile::FlowPile;
use capture_faults::Ending;
use capture_loop::{Means, Piles, Stop, run_job};
use edge_traits::{Gate, Sink, Source};
use report_text::flows_head_text;
use std::thread::Threads;

/// Goes through the flows of the source's input as is asked, portion by portion, on one table that lasts, and puts the
/// report into the sink. The calls of each class are made by one caller, in packet order. Each caller has a thread of
/// its own.
pub fn flow_input<R: Threads + Sync, S: Source, K: Sink, G: Gate + Sync>(
    means: &Means<R, G>,
    asked: &Asked,
    source: &mut S,
    sink: &mut K,
    beyond: &mut Option<u64>,
) -> Result<Ending, Stop>
    requires asked { CanBeAsked asked.now }
    requires portions { IsPortionsOf asked.now means.now.portions }
    ensures leaves { LeavesBy FLOW_LIMIT (number_in asked.now.calling.framing.link) (TellsFlows asked.now)
        (TellsFlows asked.now) (ReportsFlows asked.now) (EndsBy (S.failed source.old) (S.failed source.new))
        (S.left source.old) (S.left source.new) (K.put sink.old) (K.put sink.new) result }

    // Where the first packet starts that is not served, exactly if there were more than are taken.
    ensures beyond { Marks result beyond.old beyond.new
        (StopsAt (number_in asked.now.calling.framing.link) FLOW_LIMIT (S.left source.old) (S.left source.new)) }

    // A device failed, and each that did is answered.
    ensures read_fault { result ≡ Ok Ending.ReadFault → Rose (S.faults source.old) (S.faults source.new) }
    ensures write_fault { OnNotPut result (Rose (K.faults sink.old) (K.faults sink.new)) }
    ensures reads { RunReads result (S.failed source.old) (S.failed source.new) }
    ensures writes { RunWrites result (K.failed sink.old) (K.failed sink.new) }
    ensures counted { (S.faults source.old ≤ S.faults source.new) × (K.faults sink.old ≤ K.faults sink.new) }
{
    let alloc = means.alloc;
    let room = means.portions.batch as usize / asked.seats as usize + 1;
    let mut text = Vec::new(alloc);
    flows_head_text(&mut text, &head_of(asked))?;
    let mut flowing = Flowing::new(alloc, asked, room)?;
    let mut piles = Piles {
        now: FlowPile::with_room(alloc, asked, room)?,
        next: FlowPile::with_room(alloc, asked, room)?,
        beyond: *beyond,
    };
    let link = asked.calling.framing.link.number();
    let answer = run_job::<R, S, K, G, Asked, Flowing>(
        means,
        link,
        &mut flowing,
        &mut piles,
        source,
        &mut text,
        sink,
    );
    *beyond = piles.beyond;
    answer
}
