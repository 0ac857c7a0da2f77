//! How a program uses the lasting table: two seats in threads of their own, and a reader.
#![tactic(auto)]

ghost use Rattle.std.specs.Prelude.{◌≡◌, ◌≤◌, ◌<◌, ◌^◌, IfSome};
ghost use Rattle.plain_map.specs.Updates.{value_limit};
ghost use Rattle.lasting_model.specs.Plans.{least_rows};
ghost use Rattle.lasting_table.specs.Meetings.{AreSeatsOf};
ghost use Rattle.lasting_table.specs.Tables.{new_seats};
ghost use Rattle.lasting_table.specs.Values.{IsPartyOf, IsSame};

use hash_bits::Hashing;
use lasting_calls::Spent;
use lasting_table::{LastingTable, Seat, rows_for};
use plain_map::{Key, Pair, Reply};
use std::alloc::Global;
use std::thread::{Threads, join_mut};
use step_counts::Settings;

#[cfg(test)]
mod tests;

// Two seats, 8 keys of a class, and classes of 4 bits of a hash.
fn settings() -> Option<Settings>
    ensures deep { IfSome result (λ s. s.start ≡ s.depth) }
    ensures seats { IfSome result (λ s. s.seats ≡ 2) }
    ensures few { IfSome result (λ s. least_rows s ≤ 2 ^ 14) }
{
    Settings::new(2, 8, 4, 4).ok()
}

/// Two flows with their sessions, each inserted by a seat of its own: what each was answered, and what a reader was
/// told of the first in the end, by two tries. `None` comes for want of memory.
pub fn remember_both<R: Threads>(
    rt: &R,
    alloc: Global,
    one: Pair,
    other: Pair,
) -> Option<(Reply, Reply, Option<Reply>)>
    requires { (one.value < value_limit) × (other.value < value_limit) }
{
    let settings = settings()?;
    let rows = rows_for(&settings);
    let (table, seats) = LastingTable::open(alloc, &settings, Hashing::Mix(0), rows).ok()?;
    let (mut first, mut second) = both_of(seats, &table)?;
    let (one_made, other_made) = insert_both(rt, &table, &mut first, &mut second, one, other);
    let mut reader = table.reader();
    let seen = reader.peek(&table, 2, &one.key);
    Some((one_made.ok()?, other_made.ok()?, seen))
}

/// Gives a flow one session after another, 0 and up, and looks it up then. The seat has few rows: each is used again.
/// `None` comes for want of memory.
pub fn put_often(alloc: Global, key: Key, times: u64) -> Option<Reply>
    requires { times ≤ value_limit }
{
    let settings = settings()?;
    let rows = rows_for(&settings);
    let (table, seats) = LastingTable::open(alloc, &settings, Hashing::Mix(0), rows).ok()?;
    let (mut seat, _other) = both_of(seats, &table)?;
    for value in 0..times {
        put_one(&table, &mut seat, key, value)?;
    }
    if !seat.can_ask() {
        return None;
    }
    Some(seat.lookup(&table, &key))
}

/// Two flows with their sessions, each inserted by a seat of its own, and then all pairs of the table. `None` comes for
/// want of memory.
pub fn remember_and_list(alloc: Global, one: Pair, other: Pair) -> Option<Vec<Pair>>
    requires { (one.value < value_limit) × (other.value < value_limit) }
{
    let settings = settings()?;
    let rows = rows_for(&settings);
    let (table, mut seats) = LastingTable::open(alloc, &settings, Hashing::Mix(0), rows).ok()?;
    insert_by(&table, &mut seats, 0, one)?;
    insert_by(&table, &mut seats, 1, other)?;
    table.pairs_at_rest(alloc, &mut seats).ok()
}

// One of all seats inserts this.
fn insert_by(table: &LastingTable, seats: &mut [Seat], number: usize, pair: Pair) -> Option<Reply>
    requires seats { AreSeatsOf table.now seats.old }
    requires number { number < table.now.plan.settings.seats }
    requires value { pair.value < value_limit }
    ensures { AreSeatsOf table.now seats.new }
{
    seats[number].insert(table, pair.key, pair.value).ok()
}

// One of these.
fn put_one(table: &LastingTable, seat: &mut Seat, key: Key, value: u64) -> Option<Reply>
    requires value { value < value_limit }
    requires seat { IsPartyOf table.now seat.old }
    ensures { IsPartyOf table.now seat.new }
{
    seat.put(table, key, value).ok()
}

// Each seat makes its insert, at once with the other one's where a thread can be made.
fn insert_both<R: Threads>(
    rt: &R,
    table: &LastingTable,
    first: &mut Seat,
    second: &mut Seat,
    one: Pair,
    other: Pair,
) -> (Result<Reply, Spent>, Result<Reply, Spent>)
    requires values { (one.value < value_limit) × (other.value < value_limit) }
    requires first { IsPartyOf table.now first.old }
    requires second { IsPartyOf table.now second.old }
    ensures first { IsSame first.old first.new }
    ensures second { IsSame second.old second.new }
{
    join_mut(
        rt,
        &mut || -> Result<Reply, Spent>
            requires { (one.value < value_limit) × IsPartyOf table.now first.now }
            ensures { IsSame first.entry.now first.exit.now }
        { first.insert(table, one.key, one.value) },
        &mut || -> Result<Reply, Spent>
            requires { (other.value < value_limit) × IsPartyOf table.now second.now }
            ensures { IsSame second.entry.now second.exit.now }
        { second.insert(table, other.key, other.value) },
    )
}

// The two seats of a new table.
fn both_of(mut seats: Vec<Seat>, table: &LastingTable) -> Option<(Seat, Seat)>
    requires { seats.items ≡ new_seats table.now 0 2 }
    ensures first { IfSome result (λ two. IsPartyOf table.now two.0) }
    ensures second { IfSome result (λ two. IsPartyOf table.now two.1) }
{
    let second = seats.pop()?;
    let first = seats.pop()?;
    Some((first, second))
}
