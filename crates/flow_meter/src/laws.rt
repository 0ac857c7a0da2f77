//! What holds of a meter over many packets and passes.

ghost use Rattle.flow_meter.specs.Orders.{SortedAreInOrder};
ghost use Rattle.flow_meter.specs.Runs.{BeginsSo, FinishesSo, PassesSo, TakesSo};

/// Behind packets and passes a meter holds what the definition holds, and has told what ended. In the end the records
/// are those of the packets alone, whatever the passes were.
pub fn meter_laws()
    ensures begins { BeginsSo }
    ensures takes { TakesSo }
    ensures passes { PassesSo }
    ensures finishes { FinishesSo }
{}

/// No two records of a run have one place in the order of ends. So the same records, sorted, are one list.
pub fn order_laws()
    ensures { SortedAreInOrder }
{}
