//! What holds of batches that were served.

ghost use Rattle.batch_runner.specs.Promises.{ServedAreRight};

use batch_history::batches_laws;

/// Whatever the interleaving: the orders of all batches, one after the other, are one right order of all calls from
/// the empty map on, and what is held after it are the pairs that are left. Each update took no more steps than the
/// bound and each lookup exactly its own; the leaves of each closed table cover all hashes, each deeper one has its
/// cause, and the directory is as deep as the deepest.
pub fn served_laws()
    ensures right { ServedAreRight }
{
    batches_laws();
}
