//! The lists that the closed words tell.
//!
//! What the closed words of every run say of their leaves.

ghost use Rattle.closed_laws.specs.Lists.{EachOnce};
ghost use Rattle.table_model.specs.Histories.{LeavesCover};

/// Each number of a list stands once in what `each_once` and `each_once_first` make of it, and no other does.
pub fn listed_once()
    ensures each_once { EachOnce }
{}

/// The leaves of a closed table cover all hashes, each once, wherever its seats have stopped.
pub fn cover_laws()
    ensures cover { LeavesCover }
{}
