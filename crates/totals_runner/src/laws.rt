//! What holds of all batches together.

ghost use Rattle.totals_runner.specs.Right.{CountedAreRight};
ghost use Rattle.totals_runner.specs.Told.{BatchesMakeAdds};

/// Whatever the interleaving, batches that were counted one after the other keep all that is promised of them: each
/// packet stands once in one order, after all that its adder had seen, with the count of the plain totals there, and
/// the totals are the sums over the packets. Batches of packets make the adds of all their packets.
pub fn counted_laws()
    ensures right { CountedAreRight }
    ensures make { BatchesMakeAdds }
{}
