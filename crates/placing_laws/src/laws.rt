//! The turns of the order.
//!
//! Orders of calls of which no two callers share a key.

ghost use Rattle.table_model.specs.Turns.{TurnsDoNotMatter};
ghost use Rattle.placing_laws.specs.OneThread.{AnswersAsOneThread};

/// In whatever turns the ready pieces without calls are placed, the calls come in the one order.
pub fn free_turns()
    ensures same_order { TurnsDoNotMatter }
{}

/// Where calls of one key are made by one seat and each class has room for all its keys, replies and sessions of a
/// legal order that is after and whole are those of the calls one after the other.
pub fn one_thread_laws()
    ensures answers { AnswersAsOneThread }
{}
