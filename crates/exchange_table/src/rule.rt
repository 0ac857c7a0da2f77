//! The rule of the table.

ghost use Rattle.std.specs.Prelude.{ℕ, List, []};
ghost use Rattle.exchange_table.specs.Parties.{PartyValue};
ghost use Rattle.exchange_model.specs.Goes.{Asked as AskedCall};
ghost use Rattle.exchange_table.specs.Joins.{joined, meets, spent};
ghost use Rattle.exchange_table.specs.Rule.{Holds, acted, entered, foremost, no_call, others, plain, stored, whole};

use crate::view::View;
use atomic_table::{Join, Play, Split, TableRule};
use exchange_calls::TableSizes;
use hash_bits::Hashing;
use std::marker::{Brand, PhantomData};

/// What a table is opened with.
#[derive(Clone, Copy, Drop)]
pub struct Opening {
    pub sizes: TableSizes,
    pub hashing: Hashing,
}

/// There is a run of the table, and all that is known is of it.
pub struct OneRun;

impl TableRule<(), View, Opening> for OneRun {
    ghost holds = { λ opening. Holds (plain opening) };

    ghost first = { λ opening. whole (plain opening) };
}

/// The call that is being made. Each call picks it.
pub trait Asked {
    ghost asked: { AskedCall };

    // With how many tries, none where it is an update.
    ghost tries: { ℕ };

    // What the caller is as the call begins.
    ghost since: { List PartyValue };
}

impl Asked for Brand {
    ghost asked = { no_call };

    ghost tries = { 0 };

    ghost since = { [] };
}

/// A step that finds a word: a load, an exchange, an addition or a subtraction.
pub struct Acts<B> {
    marker: PhantomData<B>,
}

impl<B: Asked> Play<(), View> for Acts<B> {
    ghost then = { acted B.asked B.tries };
}

/// A store.
pub struct Stores<B> {
    marker: PhantomData<B>,
}

impl<B: Asked> Play<(), View> for Stores<B> {
    ghost then = { stored B.asked B.tries };
}

/// A new reader.
pub struct Enters;

impl Play<(), View> for Enters {
    ghost then = { entered };
}

/// All parties of a token come to know the run.
pub struct Meets;

impl Play<(), View> for Meets {
    ghost then = { meets };
}

/// Another party comes to those of a view.
pub struct Joint;

impl Join<View> for Joint {
    ghost both = { joined };

    ghost spent = { spent };
}

/// The first party of a view is cut off.
pub struct Deal;

impl Split<View> for Deal {
    ghost left = { others };

    ghost right = { foremost };
}
