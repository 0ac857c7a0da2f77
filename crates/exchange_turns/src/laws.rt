//! What holds of calls that are dealt by their classes.

ghost use Rattle.exchange_turns.specs.Turns.{ClassesHaveTurns};

/// In every run whose calls are dealt by their classes: once all are answered each has the plain map's reply, asked
/// them as they stand, and each bucket has what the plain map has then. Full classes make no difference.
pub fn class_order_laws()
    ensures { ClassesHaveTurns }
{}
