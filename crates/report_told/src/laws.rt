//! What holds of verdicts.

ghost use Rattle.report_told.specs.Verdicts.{DeservesOne, TellsOnce};

/// Where a text is one report at most, it deserves one verdict at most.
pub fn verdict_laws()
    ensures { TellsOnce → DeservesOne }
{}
