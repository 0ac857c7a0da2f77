//! A reader of a directory, which is no seat.
//!
//! **Words**: it loads those of its directory, and stores none.
//! **Keeps**: `OneRun`, the rule that there is a run: what it knows is a front of the run.
//! **Steps**: 5 loads for a peek, and seven for each item of the row that it reads.
//! **Why it ends**: it waits for nobody, and a row has no more items than a bucket has room for.

ghost use Rattle.std.specs.Prelude.{◌≡◌};
ghost use Rattle.shared_table.specs.Readers.{ReadsFrom, StaysReader};
ghost use Rattle.shared_table.specs.Seen.{WasSeen};

use crate::directory::Directory;
use crate::glancing::run_glance;
use crate::rule::Enters;
use crate::view::View;
use atomic_table::Badge;
use plain_map::{Key, Reply};
use seat_calls::Desk;
use std::marker::{Brand, Model};
use std::mem;
use word_rows::place_laws;

/// A reader of a directory. There may be any number of them, and they leave no trace: no seat, no number and no store.
#[derive(Drop)]
pub struct Reader {
    badge: Badge<View>,
    desk: Desk,
}

impl Model for Reader {
    ghost use Rattle.shared_table.specs.Readers.{ReaderValue};

    ghost Value = { ReaderValue };

    ghost use Rattle.shared_table.specs.Readers.{ReaderStands, reader_value};

    ghost view = { λ r. reader_value r.desk r.badge.table_id r.badge.views };

    ghost invariant = { λ r. ReaderStands r.desk r.badge.views };
}

impl Directory {
    /// A new reader of the directory, by one load of the root.
    pub fn reader(&self) -> Reader
        ensures { ReadsFrom self.now result }
    {
        place_laws();
        let (_, token) = self
            .table
            .shared
            .load_new_seat::<Enters>(self.layout.root() as usize);
        Reader {
            badge: token.into_badge(),
            desk: Desk::new(self.layout, self.hashing, 0),
        }
    }
}

impl Reader {
    /// Looks a key up with loads alone. It is never refused, and takes no memory.
    ///
    /// At some moment between this call's first load and its last one, the plain map of the run gives this reply. What
    /// the reader knew of the run before comes before that first load.
    pub fn peek(&mut self, directory: &Directory, key: &Key) -> Reply
        requires reader { ReadsFrom directory.now self.old }
        ensures same { StaysReader self.old self.new }
        ensures held { WasSeen self.old.front.setup self.old.front self.new.front key.now result }
    {
        let badge = mem::replace(&mut self.badge, Badge::blank());
        let (token, reply) = run_glance::<Brand>(
            &directory.table.shared,
            badge.into_seat(),
            &self.desk,
            key,
        );
        self.badge = token.into_badge();
        reply
    }
}
