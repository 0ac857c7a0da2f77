//! One caller: it opens a directory, asks it, and closes it.

ghost use Rattle.std.specs.Prelude.{◌≡◌, ◌<◌, IfSome};
ghost use Rattle.plain_map.specs.Updates.{value_limit};
ghost use Rattle.table_model.specs.Setup.{seats_of};
ghost use Rattle.shared_table.specs.Values.{IsOf, new_seat, new_seats};

use crate::{opened, settings_of};
use plain_map::{Key, Pair, Record};
use shared_table::{Directory, Seat};
use std::alloc::{AllocError, Global};
use step_counts::automatic_rows;

/// Inserts a flow with a session, and looks it up: the two records, and the pairs that the directory holds then.
///
/// The settings are one caller, 8 keys of a class, 10 bits of a hash that make a class, and 0 of them at the opening.
/// The rows say how many updates the caller may make: they are used up. `None` comes for want of memory.
pub fn remember(alloc: Global, key: Key, session: u64) -> Option<(Record, Record, Vec<Pair>)>
    requires { session < value_limit }
{
    let settings = settings_of(1)?;
    let rows = automatic_rows(&settings, 1);
    let (directory, seats) = opened(alloc, &settings, &[rows])?;
    let mut seat = only_one(seats, &directory)?;
    let inserted = seat.insert(&directory, 1, key, session).ok()?;
    let found = seat.lookup(&directory, 2, &key);
    let pairs = held(alloc, directory, seat).ok()?;
    Some((inserted, found, pairs))
}

// The only seat of a new directory.
pub(crate) fn only_one(mut seats: Vec<Seat>, directory: &Directory) -> Option<Seat>
    requires { seats.items ≡ new_seats directory.now 0 1 }
    ensures { IfSome result (λ seat. seat ≡ new_seat directory.now 0) }
{
    seats.pop()
}

// Closes a directory of one seat: the pairs that it holds, in the order of their keys.
fn held(alloc: Global, directory: Directory, seat: Seat) -> Result<Vec<Pair>, AllocError>
    requires one { seats_of directory.setup ≡ 1 }
    requires of { IsOf directory seat }
{
    let mut seats = Vec::with_capacity(alloc, 1)?;
    seats.push_reserved(seat);
    directory.close_in_place(seats).pairs(alloc)
}
