//! What holds in every run of every table.

ghost use Rattle.leaf_laws.specs.Leaves.{SplitsAreByKeys, RowsByKeysSuffice};

/// Where no more than so many keys come, with the first ones, few prefixes can be split: of each depth at most as many
/// as there are, and as these keys can crowd. So the rows by keys suffice.
pub fn key_laws()
    ensures splits { SplitsAreByKeys }
    ensures suffice { RowsByKeysSuffice }
{}
