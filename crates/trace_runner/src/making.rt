//! Mode `make`: the made capture is put.

ghost use Rattle.std.specs.Prelude.{◌≡◌};
ghost use Rattle.trace_runner.specs.Made.{LeavesMade};
ghost use Rattle.mode_parts.specs.Edges.{TellsWrites, sink_edge};

use command_line::Plan;
use edge_traits::Sink;
use mode_parts::Status;
use pcap_reader::{MakeFault, put_made};
use std::alloc::Global;

/// Puts the made capture of the plan's number and packets.
pub(crate) fn make<K: Sink>(alloc: Global, plan: &Plan, sink: &mut K) -> Status
    ensures leaves { LeavesMade plan.now (K.put sink.old) (K.put sink.new) result }
    ensures writes { TellsWrites (sink_edge K.Sink sink.old) (sink_edge K.Sink sink.new) result }
    ensures no_read { result ≡ Status.ReadFault → ⊥ }
    ensures no_usage { result ≡ Status.Usage → ⊥ }
{
    match put_made(alloc, plan.number, plan.packets, sink) {
        Ok(()) => Status::Done,
        Err(MakeFault::NotPut) => Status::WriteFault,
        Err(MakeFault::Memory) => Status::Memory,
    }
}
