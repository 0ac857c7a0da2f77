//! What holds of every run.

ghost use Rattle.table_model.specs.Helped.{AnnouncedInLaterDirectories};
ghost use Rattle.table_model.specs.Helped.{AnnouncedInLaterRows};
ghost use Rattle.table_model.specs.Helped.{AnnouncedInNewBuckets};
ghost use Rattle.table_model.specs.Helped.{AnnouncedToLaterRoots};
ghost use Rattle.table_model.specs.Helped.{AnnouncedToLaterTries};
ghost use Rattle.table_model.specs.Helped.{AnnouncedToRootsOfNewBuckets};
ghost use Rattle.table_model.specs.Helped.{LaterBucketTriesKnow};
ghost use Rattle.table_model.specs.Helped.{LaterChangesReplace};
ghost use Rattle.table_model.specs.Helped.{LaterDirectoryTriesKnow};
ghost use Rattle.table_model.specs.Helped.{LaterDirectoryTriesSeeFrozen};
ghost use Rattle.table_model.specs.Helped.{LaterReplacementsCarry};
ghost use Rattle.table_model.specs.Helped.{LaterRowsHave};
ghost use Rattle.table_model.specs.Promises.{BeforeLastFind};
ghost use Rattle.table_model.specs.Promises.{BeforeLastLook};
ghost use Rattle.table_model.specs.Promises.{BeforeSecondFind};
ghost use Rattle.table_model.specs.Promises.{BucketsLeaveFrozen};
ghost use Rattle.table_model.specs.Promises.{FrozenIsLast};
ghost use Rattle.table_model.specs.Promises.{InSecondRound};
ghost use Rattle.table_model.specs.Promises.{LoadedRowsAreOfLine};
ghost use Rattle.table_model.specs.Promises.{NumbersNeverFall};
ghost use Rattle.table_model.specs.Promises.{OpRowsStay};
ghost use Rattle.table_model.specs.Promises.{RowsStay};
ghost use Rattle.table_model.specs.Promises.{WordsNeverReturn};
ghost use Rattle.table_model.specs.Rows.{DirectoriesAreRight};
ghost use Rattle.table_model.specs.Rows.{FixedDepthNeverFreezes};
ghost use Rattle.table_model.specs.Rows.{LinesGrow};
ghost use Rattle.table_model.specs.Rows.{RowsAreGood};
ghost use Rattle.table_model.specs.Tries.{LostBucketsShow};
ghost use Rattle.table_model.specs.Tries.{LostRootsShow};
ghost use Rattle.table_model.specs.Tries.{TriesCanChange};

/// The published rows are those of good buckets and of right directories, and whatever a call has loaded is published.
pub fn published_row_laws()
    ensures good { RowsAreGood }
    ensures right { DirectoriesAreRight }
    ensures frozen_last { FrozenIsLast }
    ensures numbers { NumbersNeverFall }
    ensures loaded { LoadedRowsAreOfLine }
    ensures fixed_depth { FixedDepthNeverFreezes }
{}

/// What is published stays as it is, lines only grow, and no word returns to a row that it has left.
pub fn line_laws()
    ensures rows { RowsStay }
    ensures op_rows { OpRowsStay }
    ensures lines { LinesGrow }
    ensures words { WordsNeverReturn }
    ensures buckets { BucketsLeaveFrozen }
{}

/// What an update knows between its rounds, what lost exchanges show it, and that a directory try can be carried out.
pub fn round_laws()
    ensures before_second { BeforeSecondFind }
    ensures in_second { InSecondRound }
    ensures before_last { BeforeLastFind }
    ensures before_look { BeforeLastLook }
    ensures lost_buckets { LostBucketsShow }
    ensures lost_roots { LostRootsShow }
    ensures can_change { TriesCanChange }
{}

/// What helping gives an update in flight.
pub fn help_laws()
    ensures tries { LaterBucketTriesKnow }
    ensures rows { LaterRowsHave }
    ensures directory_tries { LaterDirectoryTriesKnow }
    ensures carried { LaterReplacementsCarry }
    ensures seen { LaterDirectoryTriesSeeFrozen }
    ensures replaced { LaterChangesReplace }
{}

/// What helping gives every update that was ever announced, whether it is answered by now or not.
pub fn announced_laws()
    ensures rows { AnnouncedInLaterRows }
    ensures tries { AnnouncedToLaterTries }
    ensures directories { AnnouncedInLaterDirectories }
    ensures roots { AnnouncedToLaterRoots }
    ensures new_buckets { AnnouncedInNewBuckets }
    ensures roots_of_new { AnnouncedToRootsOfNewBuckets }
{}
