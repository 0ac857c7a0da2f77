//! A try that looks for what all seats announce.

ghost use Rattle.table_model.specs.Setup.{Setup};
ghost use Rattle.table_model.specs.declared.rounds.Round.{Round as ModelRound};
ghost use Rattle.seat_calls.specs.Tries.{AnyTry, directory_trying, trying};
ghost use Rattle.seat_calls.specs.Tries.AnyTry.{OfBucket, OfDirectory};

use dir_states::DirState;
use table_model::Round;

/// A try of either kind, which looks for what all seats announce.
pub trait Trying {
    // Its round.
    ghost round: { Self → ModelRound };

    // The try, as the settings of its table read it.
    ghost attempt: { Self → Setup → AnyTry };
}

/// A bucket try whose row is loaded.
#[derive(Clone, Copy)]
pub struct Attempt<'a> {
    pub round: Round,
    /// Which try of the round it is, from 1 on.
    pub turn: u64,
    /// The row that the first try of the round loaded. It is kept for the proofs alone.
    pub first: u64,
    /// The row that this try loaded.
    pub row: u64,
    /// The words of that row.
    pub words: &'a [u64],
}

impl Trying for Attempt<'_> {
    ghost round = { λ a. a.round };

    ghost attempt = { λ a setup. OfBucket (trying setup a) };
}

/// A directory try whose directory row is loaded.
#[derive(Clone, Copy)]
pub struct DirectoryAttempt<'a> {
    pub round: Round,
    /// Which directory try of the round it is, 1 or 2.
    pub turn: u64,
    /// The directory row that the first of them loaded. It is kept for the proofs alone.
    pub first: u64,
    /// The directory row that this try loaded.
    pub root: u64,
    /// What it says.
    pub directory: &'a DirState,
}

impl Trying for DirectoryAttempt<'_> {
    ghost round = { λ a. a.round };

    ghost attempt = { λ a setup. OfDirectory (directory_trying a) };
}
