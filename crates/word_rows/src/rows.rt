//! What the spellings of rows promise, for every row.

ghost use Rattle.word_rows.specs.RowLaws.{BucketsAreRead, DirectoriesAreRead, ItemsAreRead, OpsAreRead};

/// A row has one spelling, of the row's length, and words spell one row.
pub fn row_laws()
    ensures ops { OpsAreRead }
    ensures buckets { BucketsAreRead }
    ensures items { ItemsAreRead }
    ensures directories { DirectoriesAreRead }
{}
