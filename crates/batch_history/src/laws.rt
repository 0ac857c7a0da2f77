//! The orders of batches as one order.

ghost use Rattle.batch_history.specs.Batches.{BatchesAreOneOrder, CallsAreNumberedOn};

/// Where each batch begins with what the last one left, the orders of all batches, one after the other, are one: it is
/// legal, each call stands after its seat's earlier calls and after all that its caller had seen, each answered call
/// stands once, and what is held in the end is what the last batch left. A seat's calls are numbered from 1 on through
/// all batches.
pub fn batches_laws()
    ensures one_order { BatchesAreOneOrder }
    ensures numbered { CallsAreNumberedOn }
{}
