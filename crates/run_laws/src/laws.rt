//! What holds in every run of every table.

ghost use Rattle.table_model.specs.Promises.{NeverStuck};
ghost use Rattle.table_model.specs.Rows.{OpRowsAreRight, StepsAreWithin, StoresAreOwn};

/// No update comes to a state in which its seat cannot go on.
pub fn stuck_laws()
    ensures never { NeverStuck }
{}

/// Each step is on a word of the table, a seat stores only in words of its own that are not published, and it announces
/// its last op row.
pub fn own_step_laws()
    ensures within { StepsAreWithin }
    ensures own { StoresAreOwn }
    ensures ops { OpRowsAreRight }
{}
