//! What holds of every play.

ghost use Rattle.play_mode.specs.Playing.{PlaysAreAnswered, PlaysAreRight};

use bound_laws::{row_laws, step_laws};
use closed_laws::cover_laws;
use order_laws::{end_laws, one_order_laws, warrant_laws};
use play_laws::schedule_laws;

/// Every play is a run of its table, in the end of which each seat has made its calls or is stopped, and its one order
/// is right. With the automatic rows of its seats' calls none of them is refused.
pub fn playing_laws()
    ensures right { PlaysAreRight }
    ensures answered { PlaysAreAnswered }
{
    schedule_laws();
    one_order_laws();
    end_laws();
    warrant_laws();
    cover_laws();
    step_laws();
    row_laws();
}
