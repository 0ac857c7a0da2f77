//! Mode `check`: a report is judged by itself.

ghost use Rattle.std.specs.Prelude.{◌≡◌, ℕ, Option};
ghost use Rattle.mode_parts.specs.Edges.{TellsReads, TellsWrites, edges, sink_edge, source_edge};
ghost use Rattle.check_runner.specs.Does.{DoesCheck, status_of_check};

use crate::checking::{Checked, Stop, check_input};
use edge_traits::{Sink, Source};
use mode_parts::Status;
use std::alloc::Global;

/// Judges the report in the source, and puts the line of its verdict into the sink.
pub fn check<S: Source, K: Sink>(alloc: Global, source: &mut S, sink: &mut K) -> Status
    // It notes no place, whatever place is noted.
    ensures does { (beyond : Option ℕ) → DoesCheck (edges S.Source K.Sink source.old sink.old beyond)
        (edges S.Source K.Sink source.new sink.new beyond) result }
    ensures reads { TellsReads (source_edge S.Source source.old) (source_edge S.Source source.new) result }
    ensures writes { TellsWrites (sink_edge K.Sink sink.old) (sink_edge K.Sink sink.new) result }
    ensures no_usage { result ≡ Status.Usage → ⊥ }
{
    let end = check_input(alloc, source, sink);
    status_of(&end)
}

/// The status of a check that ended so.
fn status_of(end: &Result<Checked, Stop>) -> Status
    ensures { result ≡ status_of_check end.now }
{
    match end {
        Ok(Checked::Judged(_verdict)) => Status::Done,
        Ok(Checked::TooLong) => Status::Limit,
        Err(Stop::ReadFault) => Status::ReadFault,
        Err(Stop::NotPut) => Status::WriteFault,
        Err(Stop::Memory) => Status::Memory,
    }
}
