//! What holds in every run of a lasting table, and what of the core it rests on.

ghost use Rattle.lasting_laws.specs.Facts.{EndedAreApplied, FixedDepthNeverFreezes, NumbersHaveOneReply};
ghost use Rattle.lasting_laws.specs.Fits.{PeeksAreOnTable, RowsAreOfBuckets, StepsAreOnTable};
ghost use Rattle.lasting_laws.specs.OneByOne.{LooksAreInTurn};
ghost use Rattle.lasting_laws.specs.Orders.{
  AnswersStay,
  AskingsAreCounted,
  CopiesAreOfRests,
  CountsTellRests,
  InFlightIsAnswered,
  RestsAreAlike,
  UpdatesHaveOneOrder,
};
ghost use Rattle.lasting_laws.specs.Promises.{UpdatesAreOrdered};
ghost use Rattle.lasting_model.specs.Laws.{
  AllCountsAreSmall,
  BucketsAreApart,
  HeldRowsAreKept,
  LooksAreOfMoments,
  NoneIsRefused,
  PeeksAreOfMoments,
  SeatsGoOn,
  StepsAreBounded,
};

/// An update that was answered is in the row in use of each open bucket of its key; and each row that has its number
/// has its reply. Where a table begins as deep as it may be no row in use is frozen.
pub fn shown_facts()
    ensures applied { EndedAreApplied }
    ensures one_reply { NumbersHaveOneReply }
    ensures never_frozen { FixedDepthNeverFreezes }
{}

/// In every run of a lasting table no update is refused, since a sweep always finds rows enough; and no two buckets
/// have one row.
pub fn pool_laws()
    ensures none_refused { NoneIsRefused }
    ensures apart { BucketsAreApart }
{}

/// In every run of a lasting table each call of a seat is answered within its bound of steps. No seat comes to where
/// there is no further step.
pub fn step_laws()
    ensures bounded { StepsAreBounded }
    ensures go_on { SeatsGoOn }
{}

/// In every run of a lasting table each lookup of a seat, and each copy of a bucket that it makes, tells what the
/// bucket had at one moment of the call. A reader is told that, or that it may be tried again.
pub fn peek_laws()
    ensures of_moments { PeeksAreOfMoments }
    ensures of_seats { LooksAreOfMoments }
{}

/// In every run of a lasting table a row that a seat reads under its hold is free for no seat, so nobody writes it
/// meanwhile.
pub fn hold_laws()
    ensures kept { HeldRowsAreKept }
{}

/// In every run of a lasting table all updates have one order. Each that was answered stands in it once, with the reply
/// of the plain map, after all that had ended before its call began. Each lookup, and each copy of a bucket, tells what
/// the plain map has at one moment of its call.
pub fn ordered_laws()
    ensures ordered { UpdatesAreOrdered }
{}

/// In every run of a lasting table each row was published at most once in each update that its seat has answered, and a
/// seat has asked at most once in each event. So a bucket word has no more than 55 bits.
pub fn count_laws()
    ensures small { AllCountsAreSmall }
{}

/// In every run of a lasting table each step of a seat is on a word of the table, and each step of a reader loads
/// one. A row whose generation is the same after all its words were loaded is one of its bucket.
pub fn word_laws()
    ensures on_table { StepsAreOnTable }
    ensures peeks_on_table { PeeksAreOnTable }
    ensures rows { RowsAreOfBuckets }
{}

/// In every run of a lasting table each bucket stays as it is from a moment at which all seats are idle to another one,
/// if no update was answered between. So it is if no seat has counted one. A copy that a seat makes between tells what
/// its bucket had at first.
pub fn rest_laws()
    ensures by_counts { CountsTellRests }
    ensures alike { RestsAreAlike }
    ensures copied { CopiesAreOfRests }
{}

/// In every run of a lasting table answers stay. A seat asks at most once in a call, and has counted its answered
/// updates. The first answer that it gets after it had an update under way is to that one.
pub fn call_laws()
    ensures answers_stay { AnswersStay }
    ensures counted { AskingsAreCounted }
    ensures answered_first { InFlightIsAnswered }
{}

/// In every run of a lasting table the updates that were made by any moment have one order, with the plain map's
/// replies. Those of a seat are the ones that it was answered, in order, and at most the one that it has under way.
/// Each bucket has what the plain map holds after all of them.
pub fn update_laws()
    ensures one_order { UpdatesHaveOneOrder }
{}

/// In every run of a lasting table the calls of a seat come one after the other. At each moment of a lookup or a copy
/// its earlier updates are answered, and its later ones have not begun.
pub fn turn_laws()
    ensures in_turn { LooksAreInTurn }
{}
