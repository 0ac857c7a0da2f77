//! A reader beside a caller: it has no seat, and looks keys up by loads alone.

ghost use Rattle.std.specs.Prelude.{◌<◌};
ghost use Rattle.plain_map.specs.Updates.{value_limit};

use crate::one_caller::only_one;
use crate::{opened, settings_of};
use plain_map::{Key, Reply};
use std::alloc::Global;
use step_counts::automatic_rows;

/// Looks a flow up before and after a caller inserts it with a session: what the reader was told. `None` comes for want
/// of memory.
pub fn look_twice(alloc: Global, key: Key, session: u64) -> Option<(Reply, Reply)>
    requires { session < value_limit }
{
    let settings = settings_of(1)?;
    let rows = automatic_rows(&settings, 1);
    let (directory, seats) = opened(alloc, &settings, &[rows])?;
    let mut seat = only_one(seats, &directory)?;
    let mut reader = directory.reader();
    let before = reader.peek(&directory, &key);
    seat.insert(&directory, 1, key, session).ok()?;
    let after = reader.peek(&directory, &key);
    Some((before, after))
}
