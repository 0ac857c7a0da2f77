//! What a seat or a reader knows of the table.

ghost use Rattle.std.specs.Prelude.{List};
ghost use Rattle.std.specs.Borrow.{ftrue};
ghost use Rattle.lasting_table.specs.Parties.{Holding};

use std::marker::Model;

/// Some seats of the table, or one reader. No value of it is made.
pub struct View {
    pub ghost bundle: { List Holding },
}

impl Model for View {
    ghost also_owns = { λ _. ftrue };
}
