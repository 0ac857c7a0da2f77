//! What a seat or a reader knows of the table.

ghost use Rattle.std.specs.Prelude.{List};
ghost use Rattle.std.specs.Borrow.{ftrue};
ghost use Rattle.exchange_table.specs.Parties.{Holding};

use std::marker::Model;

/// Some who can hold a row of the table, or one reader that cannot. No value of it is made.
pub struct View {
    pub ghost bundle: { List Holding },
}

impl Model for View {
    ghost also_owns = { λ _. ftrue };
}
