//! What every answered call has.
//!
//! The one order of the calls of every run.

ghost use Rattle.table_model.specs.Promises.{RepliesAreOfRows, AnsweredAreApplied};
ghost use Rattle.table_model.specs.Histories.{
  OrderIsNeverStuck,
  OrderIsLegal,
  OrderIsAfter,
  OrderIsWhole,
  PairsAreOfOrder,
  DepthIsOfLeaves,
  LeavesAreWarranted,
  LookupsStandByTheirRows,
  PairsReopen,
};
ghost use Rattle.table_model.specs.Turns.{OneIsReady};
ghost use Rattle.order_laws.specs.KeyOrder.{
  NextOpeningHasRoom,
  NoPairLacksRoom,
  PairsReopenInAnyTurn,
  SortedPairsAreHeld,
};

/// In every run each answered call has the reply of its row, and each answered update is applied in the current row of
/// its key from then on.
pub fn reply_laws()
    ensures replies { RepliesAreOfRows }
    ensures applied { AnsweredAreApplied }
{}

/// The order that the closed words tell is never stuck, it is legal for the plain object from the first pairs on, each
/// call stands after all that its caller had seen, and each answered call and each update that took effect stands once.
pub fn one_order_laws()
    ensures never_stuck { OrderIsNeverStuck }
    ensures legal { OrderIsLegal }
    ensures after { OrderIsAfter }
    ensures whole { OrderIsWhole }
{}

/// The closed table has the pairs that the order leaves, and its directory is as deep as its deepest leaf.
pub fn end_laws()
    ensures pairs { PairsAreOfOrder }
    ensures depth { DepthIsOfLeaves }
{}

/// Each leaf that is deeper than the starting depth has its cause: the bucket above it was full at some stage, of the
/// first pairs or of the order.
pub fn warrant_laws()
    ensures warranted { LeavesAreWarranted }
{}

/// A lookup stands after exactly those updates of its row's keys that are applied in its row. And of the pieces that
/// are left and ready at any moment of the placing, one at most has a call of each seat.
pub fn lookup_laws()
    ensures lookups { LookupsStandByTheirRows }
    ensures one_ready { OneIsReady }
{}

/// The pairs of the closed table can open the next one, in whatever turn: each can be kept, their keys are distinct and
/// find room, and that table begins with what is held after the order. Sorted by their keys they are the pairs of what
/// is held. So that opening lacks room for none of them.
pub fn reopen_laws()
    ensures reopen { PairsReopen }
    ensures any_turn { PairsReopenInAnyTurn }
    ensures sorted { SortedPairsAreHeld }
    ensures has_room { NoPairLacksRoom }
    ensures next_has_room { NextOpeningHasRoom }
{}
