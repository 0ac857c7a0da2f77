//! What holds of every step of every run.
//!
//! What holds in every run of every table.

ghost use Rattle.table_model.specs.Fits.{EveryStepFits};
ghost use Rattle.table_model.specs.Promises.{StepsAreBounded, UpdatesAreShort, LookupsAreShort, UpdatesEnd, LookupsEnd, LeavesComeInTwos, LeavesComeOnce, RowsSuffice, SpentIsUsed};
ghost use Rattle.table_model.specs.Needs.{FewArePublished, BatchRowsSuffice};
ghost use Rattle.bound_laws.specs.Numbers.{EachRecordIsNumbered, FlightsAreNumbered};
ghost use Rattle.bound_laws.specs.Splits.{SplitsAreFew};
ghost use Rattle.bound_laws.specs.Moments.{BegunAreAnswered, IdleMoments, InsertsAreOfCalls};

/// Every step of every run is one that a machine of bounded room can take.
pub fn fits_laws()
    ensures fits { EveryStepFits }
{}

/// Every answered call has its steps: an update at most the bound, a lookup exactly those of the items of its row. A
/// call in flight has fewer than it may have, and ends, whatever the other seats do.
pub fn step_laws()
    ensures bounded { StepsAreBounded }
    ensures updates_short { UpdatesAreShort }
    ensures lookups_short { LookupsAreShort }
    ensures updates_end { UpdatesEnd }
    ensures lookups_end { LookupsEnd }
{}

/// A seat's records are numbered from 1 on, its call in flight has the next number, and an idle seat has published
/// what it had after its last answer.
pub fn number_laws()
    ensures spent { SpentIsUsed }
    ensures records { EachRecordIsNumbered }
    ensures flights { FlightsAreNumbered }
{}

/// Every exchange of the root brings at least two new buckets, and no prefix becomes a bucket twice.
pub fn new_leaf_laws()
    ensures twos { LeavesComeInTwos }
    ensures once { LeavesComeOnce }
{}

/// The automatic rows suffice.
pub fn row_laws()
    ensures suffice { RowsSuffice }
{}

/// Few rows are published: the root is exchanged once at most for each prefix that can be split, and all seats together
/// publish two buckets at most for each; a seat publishes a bucket row for each update that it began, and two more for
/// each such prefix. So the rows of a batch suffice.
pub fn need_laws()
    ensures few { FewArePublished }
    ensures suffice { BatchRowsSuffice }
{}

/// The splits after the opening and the frozen buckets in use are together at most as many as the prefixes that can be
/// split.
pub fn split_laws()
    ensures few { SplitsAreFew }
{}

/// A seat is idle after each of its answers, and has then published what it tells of that answer. And refused calls
/// leave no trace: for every run there is one that leaves the same, and whose calls were all answered, or are going on.
/// What a run inserts are keys of the calls that it gave its seats.
pub fn moment_laws()
    ensures idle { IdleMoments }
    ensures begun { BegunAreAnswered }
    ensures inserts { InsertsAreOfCalls }
{}
