//! Two callers at once, each in a thread of its own.

ghost use Rattle.std.specs.Prelude.{◌≡◌, ◌<◌, IfSome};
ghost use Rattle.plain_map.specs.Serving.{CanCount};
ghost use Rattle.plain_map.specs.Updates.{value_limit};
ghost use Rattle.table_model.specs.Setup.{seats_of};
ghost use Rattle.shared_table.specs.SeatValues.{account_of};
ghost use Rattle.shared_table.specs.Values.{IsNew, IsOf, new_seats};

use crate::{opened, settings_of};
use plain_map::{Full, Pair, Record};
use shared_table::{Directory, Seat};
use std::alloc::{AllocError, Global};
use std::thread::{Threads, join_mut};
use step_counts::automatic_rows;

/// Two flows with their sessions, each inserted by a caller of its own: the two records, and the pairs that the
/// directory holds in the end, in the order of their keys. `None` comes for want of memory.
pub fn remember_both<R: Threads>(
    rt: &R,
    alloc: Global,
    one: Pair,
    other: Pair,
) -> Option<(Record, Record, Vec<Pair>)>
    requires { (one.value < value_limit) × (other.value < value_limit) }
{
    let settings = settings_of(2)?;
    let rows = automatic_rows(&settings, 1);
    let (directory, seats) = opened(alloc, &settings, &[rows; 2])?;
    let (mut first, mut second) = both_of(seats, &directory)?;
    let (one_made, other_made) = insert_both(rt, &directory, &mut first, &mut second, one, other);
    let pairs = held(alloc, directory, first, second).ok()?;
    Some((one_made.ok()?, other_made.ok()?, pairs))
}

// Each seat makes its insert, at once with the other one's where a thread can be made.
fn insert_both<R: Threads>(
    rt: &R,
    directory: &Directory,
    first: &mut Seat,
    second: &mut Seat,
    one: Pair,
    other: Pair,
) -> (Result<Record, Full>, Result<Record, Full>)
    requires values { (one.value < value_limit) × (other.value < value_limit) }
    requires first { IsNew directory.now first.old }
    requires second { IsNew directory.now second.old }
    ensures first { IsOf directory.now first.new }
    ensures second { IsOf directory.now second.new }
{
    join_mut(
        rt,
        &mut || -> Result<Record, Full>
            requires { (one.value < value_limit) × IsNew directory.now first.now }
            ensures { IsOf directory.entry.now first.exit.now }
        { first.insert(directory, 1, one.key, one.value) },
        &mut || -> Result<Record, Full>
            requires { (other.value < value_limit) × IsNew directory.now second.now }
            ensures { IsOf directory.entry.now second.exit.now }
        { second.insert(directory, 2, other.key, other.value) },
    )
}

// The two seats of a new directory.
fn both_of(mut seats: Vec<Seat>, directory: &Directory) -> Option<(Seat, Seat)>
    requires { seats.items ≡ new_seats directory.now 0 2 }
    ensures first { IfSome result (λ two. IsNew directory.now two.0) }
    ensures second { IfSome result (λ two. IsNew directory.now two.1) }
{
    let second = seats.pop()?;
    let first = seats.pop()?;
    Some((first, second))
}

// Closes a directory of two seats: the pairs that it holds, in the order of their keys.
fn held(
    alloc: Global,
    directory: Directory,
    first: Seat,
    second: Seat,
) -> Result<Vec<Pair>, AllocError>
    requires two { seats_of directory.setup ≡ 2 }
    requires first { IsOf directory first }
    requires second { IsOf directory second }
{
    let mut seats = Vec::with_capacity(alloc, 2)?;
    seats.push_reserved(first);
    seats.push_reserved(second);
    directory.close_in_place(seats).pairs(alloc)
}
