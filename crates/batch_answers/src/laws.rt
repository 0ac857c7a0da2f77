//! What is answered over all batches.

ghost use Rattle.batch_answers.specs.Answers.{
  AllAreAnswered,
  NoneIsRefused,
  PrintedStandOnce,
  ServedAsOneThread,
};

/// With no rows given no call is refused, whatever the interleaving, and each has its record. Where calls are dealt by
/// flow and each class has room for all its keys, or where there is one seat, replies and sessions are those of one
/// thread that makes the calls in the order of their packets. And each call that is printed stands once in the one
/// order of all calls.
pub fn answer_laws()
    ensures none { NoneIsRefused }
    ensures all { AllAreAnswered }
    ensures one_thread { ServedAsOneThread }
    ensures once { PrintedStandOnce }
{}
