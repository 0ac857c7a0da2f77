//! What a reader is told of every run.

ghost use Rattle.peek_laws.specs.Peeks.{CurrentRowsReply, RowsWereCurrent};

/// The current row of a key answers a lookup as the plain map does at that moment. And the row that is found by a
/// bucket of an earlier moment was the current row of the key at some moment from then on: where its bucket left the
/// directory meanwhile, at the moment before that.
pub fn glance_laws()
    ensures replies { CurrentRowsReply }
    ensures were_current { RowsWereCurrent }
{}
