//! What holds of batches that were served.

ghost use Rattle.serve_modes.specs.Served.{ServedArePromised};

use batch_answers::answer_laws;
use batch_history::batches_laws;
use batch_runner::served_laws;

/// Whatever the interleaving, batches that were served keep all that is promised of them.
pub fn serving_laws()
    ensures { ServedArePromised }
{
    served_laws();
    answer_laws();
    batches_laws();
}
