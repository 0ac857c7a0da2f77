//! Mode `totals`: the packets are counted by adders that share one table.

ghost use Rattle.std.specs.Prelude.{◌≡◌};
ghost use Rattle.capture_loop.specs.Input.{in_batches};
ghost use Rattle.command_line.specs.Words.{IsInRange};
ghost use Rattle.mode_parts.specs.Edges.{TellsReads, TellsWrites, edges, sink_edge, source_edge};
ghost use Rattle.totals_runner.specs.Does.{DoesTotals};

use crate::counting::Asked;
use crate::running::count_input;
use capture_loop::Means;
use command_line::Plan;
use edge_traits::{Gate, Sink, Source};
use mode_parts::Status;
use pcapng_reader::one_input;
use std::thread::Threads;

/// Counts the source's packets by as many adders as the plan has seats, and puts the report into the sink. Where there
/// are more than are counted, `beyond` is where the first of these starts, in bytes from the input's first.
pub fn count<R: Threads + Sync, S: Source, K: Sink, G: Gate + Sync>(
    means: &Means<R, G>,
    plan: &Plan,
    source: &mut S,
    sink: &mut K,
    beyond: &mut Option<u64>,
) -> Status
    requires range { IsInRange plan.now }
    requires batch { means.now.portions ≡ in_batches plan.now.batch }
    ensures does { DoesTotals plan.now (edges S.Source K.Sink source.old sink.old beyond.old)
        (edges S.Source K.Sink source.new sink.new beyond.new) result }
    ensures reads { TellsReads (source_edge S.Source source.old) (source_edge S.Source source.new) result }
    ensures writes { TellsWrites (sink_edge K.Sink sink.old) (sink_edge K.Sink sink.new) result }
    ensures no_usage { result ≡ Status.Usage → ⊥ }
{
    one_input();
    let asked = Asked {
        seats: plan.seats,
        framing: plan.framing,
        batch: plan.batch,
    };
    let end = count_input(means, &asked, source, sink, beyond);
    Status::of_run(&end)
}
