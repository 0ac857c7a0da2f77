//! No call of a batch is refused, where no rows are given.
//!
//! Batches in which no two seats share a key.

ghost use Rattle.batch_laws.specs.Rooms.{AnsweredAreRecords, BatchIsAnswered};
ghost use Rattle.batch_laws.specs.Threads.{
  BatchesAnswerAsOneThread,
  FlowsAreByKey,
  OneSeatAnswers,
  OneSeatIsByKey,
  OutcomesAreLines,
  RoomIsOfCalls,
};

/// Where a batch's table has the rows that the batch's own calls can need, and its seats made each call of the batch
/// once, no call is refused, whatever the interleaving: each has its record.
pub fn room_laws()
    ensures none { BatchIsAnswered }
    ensures records { AnsweredAreRecords }
{}

/// Where calls of one key are made by one seat, and each class has room for all its keys, the replies of all batches
/// are those of one thread that makes the calls in the order of their packets, and so is what is held in the end. So it
/// is where calls are dealt by flow, or where there is one seat; and with one seat whatever room there is.
pub fn thread_laws()
    ensures answers { BatchesAnswerAsOneThread }
    ensures lines { OutcomesAreLines }
    ensures flows { FlowsAreByKey }
    ensures one_seat { OneSeatIsByKey }
    ensures room { RoomIsOfCalls }
    ensures alone { OneSeatAnswers }
{}
