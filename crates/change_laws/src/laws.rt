//! What holds of every directory change and of every opening.
//!
//! By these laws all that stands on the leaves knows them, so that the steps of a change need not be looked at again.

ghost use Rattle.table_model.specs.DirectoryLaws.{
  LeavesTakeHashes,
  LeavesAreGood,
  LeavesAreSmall,
  OpsAreCarried,
  OpsAreInLeaves,
  FrozenAreReplaced,
  LeavesAreFew,
  DirectoryNamesLeaves,
  DirectoryStaysRight,
  BucketsStay,
  ReplacedAreLeft,
  DepthIsOfOne,
  PartsHoldAll,
  LeavesFold,
  SplitsHaveCauses,
};
ghost use Rattle.table_model.specs.OpeningLaws.{OpeningIsRight, OpeningOfNone, OpeningDepthIsOfOne};

/// What the new leaves of a change are: whose hashes they take, what they keep, and how many they are.
pub fn leaf_laws()
    ensures hashes { LeavesTakeHashes }
    ensures good { LeavesAreGood }
    ensures small { LeavesAreSmall }
    ensures carried { OpsAreCarried }
    ensures own { OpsAreInLeaves }
    ensures replaced { FrozenAreReplaced }
    ensures few { LeavesAreFew }
{}

/// What stands at each place of the new directory.
pub fn directory_laws()
    ensures names { DirectoryNamesLeaves }
    ensures right { DirectoryStaysRight }
    ensures stay { BucketsStay }
    ensures left { ReplacedAreLeft }
    ensures depth { DepthIsOfOne }
{}

/// What the leaves hold, and why there are so many.
pub fn change_fold_laws()
    ensures parts { PartsHoldAll }
    ensures folds { LeavesFold }
    ensures causes { SplitsHaveCauses }
{}

/// What the leaves of an opening are.
pub fn opening_laws()
    ensures right { OpeningIsRight }
    ensures none { OpeningOfNone }
    ensures depth { OpeningDepthIsOfOne }
{}
