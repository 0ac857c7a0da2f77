//! What turns in another order than the definition's reach.

ghost use Rattle.history_order.specs.Turns.{ReachedIsTheOrder, FirstReadyIsChosen};

/// Free turns that end with nothing left have made the one order. And where each ready piece has a first seat that is
/// at least that of this one, and no other has the same, this one is chosen.
pub fn turns_reach()
    ensures reached { ReachedIsTheOrder }
    ensures chosen { FirstReadyIsChosen }
{}
