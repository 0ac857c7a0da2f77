//! What holds of every text.

ghost use Rattle.report_told.specs.Verdicts.{DeservesOne, TellsOnce};

/// A text is one report at most, and deserves one verdict at most.
pub fn one_verdict()
    ensures one_report { TellsOnce }
    ensures one { DeservesOne }
{}
