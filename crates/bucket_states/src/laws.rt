//! What holds of every bucket change.
//!
//! By these laws all that stands on buckets knows them, so that the steps of the change need not be looked at again.

ghost use Rattle.bucket_states.specs.Parts.{LocalAnswers, OtherPartsStay};
ghost use Rattle.bucket_states.specs.Laws.{
  SamePrefix,
  FrozenStays,
  OnlyAnnounced,
  Covers,
  DoesSomething,
  StaysGood,
  FrozenIsFull,
  Folds,
  FoldsAlike,
};
ghost use Rattle.bucket_states.specs.Values.{StaysSmall};

/// What holds of each answer by a bucket's items.
///
/// It is the plain object's answer, where the call does not overflow the bucket, and the items are then again the
/// sessions of the bucket's prefix. What is held at keys of other prefixes stays.
pub fn answer_laws()
    ensures alike { LocalAnswers }
    ensures others { OtherPartsStay }
{}

/// What a change keeps of a bucket: its prefix, all of it where it is frozen, and that it is good and small.
pub fn kept_laws()
    ensures prefix { SamePrefix }
    ensures frozen { FrozenStays }
    ensures good { StaysGood }
    ensures full { FrozenIsFull }
    ensures small { StaysSmall }
{}

/// Which of the announced calls a change takes: no others, and all that are for the bucket, unless it freezes.
pub fn taken_laws()
    ensures only_announced { OnlyAnnounced }
    ensures covers { Covers }
    ensures does_something { DoesSomething }
{}

/// What a change makes of the items and the replies.
///
/// They are those of the calls that it took, asked one after the other in the order of their seats.
pub fn fold_laws()
    ensures here { Folds }
    ensures alike { FoldsAlike }
{}
