//! What holds of the texts of reports.

ghost use Rattle.report_promises.specs.Asked.{AmountsFit, CallsAreOfFlows, CallsInsertPackets};
ghost use Rattle.report_promises.specs.Good.{GoodIsCertified};

/// The call of a packet is about a flow that a report can tell, and brings no other value than the packet's number. Its
/// bytes can be told, as can those of each call that can be asked.
pub fn call_laws()
    ensures flows { CallsAreOfFlows }
    ensures values { CallsInsertPackets }
    ensures amounts { AmountsFit }
{}

/// The text of a good report is certified.
pub fn promise_laws()
    ensures { GoodIsCertified }
{}
