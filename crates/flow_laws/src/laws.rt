//! What holds of calls that are dealt by their keys, and of the pairs that they leave.

ghost use Rattle.flow_laws.specs.Asked.{PairsAreAsked};
ghost use Rattle.flow_laws.specs.ClassOrders.{ClassesHaveTurns};
ghost use Rattle.flow_laws.specs.FlowOrders.{FlowsHaveOneOrder};
ghost use Rattle.flow_laws.specs.Parts.{PartsAreSessions};

/// In every run of a lasting table whose calls are dealt by their keys: once all are answered they have one order, each
/// key's as they were asked, with the plain map's replies, lookups too. Each bucket has what the plain map has then.
pub fn flow_order_laws()
    ensures { FlowsHaveOneOrder }
{}

/// Of the buckets' pairs. If each bucket holds the pairs of its class, all of them, sorted by key, are what is held.
/// If nothing was held before some calls, each pair that is held after them has the key of one of them.
pub fn part_laws()
    ensures sessions { PartsAreSessions }
    ensures asked { PairsAreAsked }
{}

/// In every run of a lasting table whose calls are dealt by their classes: once all are answered each has the plain
/// map's reply, asked them as they stand, and each bucket has what the plain map has then. Full classes make no
/// difference.
pub fn class_order_laws()
    ensures { ClassesHaveTurns }
{}
