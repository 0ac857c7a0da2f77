//! What holds in every run of the table, whatever the interleaving.

ghost use Rattle.exchange_model.specs.Laws.{
  AllRowsArePlaced,
  BucketsAreApart,
  CallsStayWithin,
  FewAreHeld,
  HeldRowsAreKept,
  LoadsAreTrue,
  LooksAreOfMoments,
  NextRowsAreTrue,
  NoneIsSpent,
  NoneIsRefused,
  OrdersGrow,
  PeeksAreOfMoments,
  PeeksAreOnTable,
  PendingIsAlwaysCounted,
  RowsStayInTheirWords,
  SeatsGoOn,
  SpentIsFound,
  SpentIsTold,
  SpentStays,
  StepsAreBounded,
  StepsAreOnTable,
  TriesAreTrue,
  UpdatesAreOrdered,
  WordsAreSmall,
  WordsNeverComeBack,
};
ghost use Rattle.exchange_laws.specs.Fits.{RowsAreKept, RowsAreOfBuckets};
ghost use Rattle.exchange_laws.specs.OneByOne.{LooksAreInTurn};
ghost use Rattle.exchange_laws.specs.Orders.{
  AnnouncementsAreCounted,
  AnswersStay,
  AskingsAreCounted,
  CopiesAreOfRests,
  CountsTellRests,
  InFlightIsAnswered,
  RestsAreAlike,
};
ghost use Rattle.exchange_laws.specs.PeekBounds.{PeeksAreBounded};

/// In every run no two buckets have one row, and no update is refused, since a scan always finds a free row. A
/// bucket word never comes back, and as long as a bucket has one word nobody writes the row in it.
pub fn row_laws()
    ensures apart { BucketsAreApart }
    ensures none_refused { NoneIsRefused }
    ensures words { WordsNeverComeBack }
    ensures rows { RowsStayInTheirWords }
{}

/// In every run each row stands in one place, and each seat has the same number of rows for ever. A scan sees fewer
/// rows held than there are who can hold.
pub fn place_laws()
    ensures placed { AllRowsArePlaced }
    ensures held { FewAreHeld }
{}

/// In every run a row that a seat, or a reader that can hold, reads under its hold is not written meanwhile.
pub fn held_laws()
    ensures kept { HeldRowsAreKept }
{}

/// In every run the words of a row that were loaded between two loads of one bucket word are what the row says
/// then. And a seat that comes to its exchange has stored what its try makes of the row that it read: its next row
/// says so. And while the bucket still has the word of the try, the row that it read is the one that stands there.
pub fn load_laws()
    ensures true_ { LoadsAreTrue }
    ensures next { NextRowsAreTrue }
    ensures tries { TriesAreTrue }
{}

/// In every run each lookup of a reader that cannot hold, and each copy of a bucket that it makes, tells what the
/// bucket had at one moment of the call, or that it may be tried again.
pub fn peek_laws()
    ensures of_moments { PeeksAreOfMoments }
{}

/// In every run each lookup of a seat, or of a reader that can hold, and each copy of a bucket that it makes, tells
/// what the bucket had at one moment of the call, whatever the others do meanwhile.
pub fn look_laws()
    ensures of_moments { LooksAreOfMoments }
{}

/// In every run the updates that were made stay in their order, and later ones come behind them. Each has the reply
/// that the plain map gives, and each bucket has the pairs of its class that the plain map has after all of them.
/// Those of a seat are the ones that it was answered, in its order, and at most the one under way.
pub fn order_laws()
    ensures grow { OrdersGrow }
    ensures ordered { UpdatesAreOrdered }
{}

/// In every run no seat is ever stuck: a held look always finds its entry, and an exchange that happens has the
/// reply of the call that it was made for.
pub fn progress_laws()
    ensures go_on { SeatsGoOn }
{}

/// In every run a bucket that has its last generation stays as it is. Who is told that its bucket is spent has
/// found it so at one moment of the call. Each update that begins there later is told so, unless it changes
/// nothing: then it is told its reply. With 10^12 updates no bucket is spent.
pub fn spent_laws()
    ensures found { SpentIsFound }
    ensures told { SpentIsTold }
    ensures stays { SpentStays }
    ensures none { NoneIsSpent }
{}

/// In every run each update, lookup and copy of a seat, and each lookup and copy of a reader that can hold, is
/// answered within its bound, whatever the others do. One that is under way has never taken more steps.
pub fn bound_laws()
    ensures bounded { StepsAreBounded }
    ensures under_way { CallsStayWithin }
{}

/// In every run what is pending is the number of seats that have an op announced, or are about to, or have just
/// ended one. So a seat that finds its own share alone knows that no other op is announced.
pub fn pending_laws()
    ensures counted { PendingIsAlwaysCounted }
{}

/// In every run each step of a seat, or of a reader that can hold, is on a word of the table, and what it stores
/// there has 64 bits; each step of another reader is a load of such a word. So all words always have 64 bits.
pub fn word_laws()
    ensures on_table { StepsAreOnTable }
    ensures peeks_on_table { PeeksAreOnTable }
    ensures small { WordsAreSmall }
{}

/// In every run answers stay. A seat, or a reader that can hold, asks and announces at most once in a call, and has
/// counted its answered updates. The first answer that a seat gets after it had an update under way is to that one.
pub fn call_laws()
    ensures answers_stay { AnswersStay }
    ensures counted { AskingsAreCounted }
    ensures announced { AnnouncementsAreCounted }
    ensures answered_first { InFlightIsAnswered }
{}

/// In every run each bucket stays as it is from a moment at which all seats are idle to another one, if no update
/// was made between. So it is if no seat has counted one. A copy that is made between tells what its bucket had
/// at first.
pub fn rest_laws()
    ensures by_counts { CountsTellRests }
    ensures alike { RestsAreAlike }
    ensures copied { CopiesAreOfRests }
{}

/// In every run the calls of a seat come one after the other. At each moment of a lookup or a copy its earlier
/// updates are answered, and its later ones have not begun.
pub fn turn_laws()
    ensures in_turn { LooksAreInTurn }
{}

/// In every run each call of a reader that cannot hold takes no more steps than the tries that it began with may.
pub fn try_laws()
    ensures bounded { PeeksAreBounded }
{}

/// In every run the words of a row that were loaded between two loads of one bucket word spell a row of that
/// bucket: its keys are of the class and none stands twice, and its values and replies can be kept.
pub fn kept_laws()
    ensures kept { RowsAreKept }
    ensures of_buckets { RowsAreOfBuckets }
{}
