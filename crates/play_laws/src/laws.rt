//! What a program, which keeps no records and no first pairs, has of its seat.
//!
//! What holds of every play by a schedule.

ghost use Rattle.play_laws.specs.Laws.{
  FirstPairsDoNotAsk,
  SeatsGoAsPrograms,
  StepsEndOrGoOn,
  FitsWithoutFirst,
  RunsCanBeTaken,
  ProgramsFollow,
};
ghost use Rattle.table_model.specs.Schedules.{PlaysAreRuns, PlaysEnd};

/// A seat goes as its program does, and no step depends on the first pairs. A step ends the call or goes on in it, and
/// every step of a run is one that its program can take.
pub fn program_laws()
    ensures asks { FirstPairsDoNotAsk }
    ensures goes { SeatsGoAsPrograms }
    ensures ends { StepsEndOrGoOn }
    ensures fits { FitsWithoutFirst }
    ensures can_take { RunsCanBeTaken }
    ensures follow { ProgramsFollow }
{}

/// The events of every play are a run, and lead to its world. In the end each seat has made its calls or is stopped.
pub fn schedule_laws()
    ensures runs { PlaysAreRuns }
    ensures end { PlaysEnd }
{}
