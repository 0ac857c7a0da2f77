//! What a closed table leaves to the order of its calls.

ghost use Rattle.shared_table.specs.Orders.{ClosedIsOfARun};

/// A closed table's words and the records of its seats, by number, are what a run leaves: so their calls have
/// their one order.
pub fn order_laws()
    ensures { ClosedIsOfARun }
{}
