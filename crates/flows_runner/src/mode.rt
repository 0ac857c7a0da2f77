//! Mode `flows`: a capture is gone through on one table that lasts.

ghost use Rattle.std.specs.Prelude.{◌≡◌};
ghost use Rattle.command_line.specs.Words.{IsInRange};
ghost use Rattle.mode_parts.specs.Edges.{TellsReads, TellsWrites, edges, sink_edge, source_edge};
ghost use Rattle.flows_runner.specs.Asked.{CanBeAsked, IsPortionsOf};
ghost use Rattle.flows_runner.specs.Does.{DoesFlows, asked_of, seed_of};

use crate::asked::Asked;
use crate::pile::FLOW_LIMIT;
use crate::running::flow_input;
use capture_loop::{Means, Portions};
use command_line::Plan;
use edge_traits::{Gate, Sink, Source};
use hash_bits::Hashing;
use mode_parts::{Status, calling_of};
use pcapng_reader::one_input;
use std::thread::Threads;

/// Goes through the flows of the source's packets on one table, with as many callers as the plan has seats, and puts
/// the report into the sink. How the input is cut, whatever the means say, changes nothing of the report. Where there
/// are more packets than are taken, `beyond` is where the first of these starts, in bytes from the input's first.
pub fn flow<R: Threads + Sync, S: Source, K: Sink, G: Gate + Sync>(
    means: &Means<R, G>,
    plan: &Plan,
    source: &mut S,
    sink: &mut K,
    beyond: &mut Option<u64>,
) -> Status
    requires range { IsInRange plan.now }
    ensures does { DoesFlows plan.now (edges S.Source K.Sink source.old sink.old beyond.old)
        (edges S.Source K.Sink source.new sink.new beyond.new) result }
    ensures reads { TellsReads (source_edge S.Source source.old) (source_edge S.Source source.new) result }
    ensures writes { TellsWrites (sink_edge K.Sink sink.old) (sink_edge K.Sink sink.new) result }
    ensures no_usage { result ≡ Status.Usage → ⊥ }
{
    one_input();
    let asked = asked_of(plan);
    let means = Means {
        rt: means.rt,
        alloc: means.alloc,
        gate: means.gate,
        portions: portions_of(plan),
    };
    let end = flow_input(&means, &asked, source, sink, beyond);
    Status::of_run(&end)
}

/// What the plan asks of a run through flows.
fn asked_of(plan: &Plan) -> Asked
    requires range { IsInRange plan.now }
    ensures asked { result ≡ asked_of plan.now }
    ensures can { CanBeAsked result }
{
    Asked {
        seats: plan.seats,
        items: plan.items,
        depth: plan.depth,
        seed: seed_of(&plan.hashing),
        calling: calling_of(plan),
        every: plan.every,
    }
}

/// How the input is cut: where a block stands, and else where the reader holds nothing more.
fn portions_of(plan: &Plan) -> Portions
    requires { IsInRange plan.now }
    ensures { IsPortionsOf (asked_of plan.now) result }
{
    Portions {
        batch: plan.batch,
        every: plan.every,
        eager: true,
        limit: FLOW_LIMIT,
    }
}

/// The number of a hash.
fn seed_of(hashing: &Hashing) -> u64
    ensures { result ≡ seed_of hashing.now }
{
    match hashing {
        Hashing::Mix(seed) => *seed,
        Hashing::Ports(seed) => *seed,
    }
}
