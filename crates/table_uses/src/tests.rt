//! Each use once, and what readers and used memory show of the table. Expected steps are counted by hand.

ghost use Rattle.std.specs.Prelude.{◌≡◌, All, IfSome};
ghost use Rattle.table_model.specs.Setup.{seats_of};
ghost use Rattle.shared_table.specs.Values.{IsNew, IsOf, new_seat, new_seats};

use super::*;
use closed_words::Words;
use plain_map::{Key, Reply};
use shared_table::{Blank, ClosedTable, pairs_in};
use std::alloc::AllocError;
use std::test::Fail;
use step_counts::automatic_rows;
use word_rows::ClosedRows;

// 10.0.0.1 with port 1 and 10.0.0.2:80 over TCP.
const WEB: Key = Key {
    k0: 0,
    k1: 0x0a00_0001,
    k2: 0,
    k3: 0x0a00_0002,
    k4: 0x0100_5006,
};

// The same with port 2.
const WEB_AGAIN: Key = Key {
    k0: 0,
    k1: 0x0a00_0001,
    k2: 0,
    k3: 0x0a00_0002,
    k4: 0x0200_5006,
};

// An insert of a new flow has 151 steps in a table of 8 items and one caller: a bucket row has 63 words, and an
// op row 8. The lookup of one item has 14.
#[test]
fn a_flow_is_remembered(rt: HostRuntime) -> Result<(), Fail> {
    let Some((inserted, found, pairs)) = remember(rt.alloc(), WEB, 7) else {
        panic!(rt; "there is memory");
    };
    assert!(rt; (inserted.reply, inserted.steps) == (Reply::New, 151));
    assert!(rt; (found.reply, found.steps) == (Reply::Found(7), 14));
    let held = Pair {
        key: WEB,
        value: 7,
        bytes: 0,
    };
    assert!(rt; pairs.as_slice() == [held].as_slice());
    Ok(())
}

// No clause says that both inserts are made.
#[test]
fn two_flows_are_remembered(rt: HostRuntime) -> Result<(), Fail> {
    let one = Pair {
        key: WEB,
        value: 7,
        bytes: 0,
    };
    let other = Pair {
        key: WEB_AGAIN,
        value: 8,
        bytes: 0,
    };
    let Some((one_made, other_made, pairs)) = remember_both(&rt, rt.alloc(), one, other) else {
        panic!(rt; "there is memory");
    };
    assert!(rt; (one_made.reply, other_made.reply) == (Reply::New, Reply::New));
    assert!(rt; pairs.as_slice() == [one, other].as_slice());
    Ok(())
}

// No clause says that a reader sees what was answered before.
#[test]
fn a_reader_sees_the_insert(rt: HostRuntime) -> Result<(), Fail> {
    let seen = look_twice(rt.alloc(), WEB, 7);
    assert!(rt; seen == Some((Reply::Absent, Reply::Found(7))));
    Ok(())
}

// The key with this port, whose hash by ports begins with the port.
fn key(port: u16) -> Key {
    Key {
        k4: u64::from(port) << 24 | 0x5006,
        ..WEB
    }
}

// The only seat of a new table.
fn one_of(mut seats: Vec<Seat>, directory: &Directory) -> Option<Seat>
    requires { seats.items ≡ new_seats directory.now 0 1 }
    ensures { IfSome result (λ seat. seat ≡ new_seat directory.now 0) }
{
    seats.pop()
}

// A table of one seat, opened from a blank, to which two keys came, the greater one first. Keys lie by their ports.
fn filled(alloc: Global, blank: &mut Blank, settings: &Settings) -> Option<(Directory, Seat)>
    requires { settings.now.seats ≡ 1 }
    ensures one { IfSome result (λ made. seats_of made.0.setup ≡ 1) }
    ensures of { IfSome result (λ made. IsOf made.0 made.1) }
{
    let rows = automatic_rows(settings, 10);
    let opened = Directory::open_in(
        alloc,
        blank,
        settings,
        Hashing::Ports(0),
        &[rows],
        &no_pairs(),
    );
    let Ok((directory, seats)) = opened else {
        return None;
    };
    let mut seat = one_of(seats, &directory)?;
    let second = seat.insert(&directory, 0, WEB_AGAIN, 8);
    let first = seat.insert(&directory, 1, WEB, 7);
    match (second, first) {
        (Ok(_), Ok(_)) => Some((directory, seat)),
        _ => None,
    }
}

// Readers see each update once it is answered, across a split: three keys of a bucket of two, whose hashes by ports are
// 001, 011 and 100 in their first bits. A reader that was made at the opening and one that was made later see the same.
#[test]
fn readers_see_what_is_done(rt: HostRuntime) -> Result<(), Fail> {
    let settings = Settings::new(1, 2, 3, 0)?;
    let rows = automatic_rows(&settings, 10);
    let mut blank = Blank::new(rt.alloc());
    let first = Directory::open_in(
        rt.alloc(),
        &mut blank,
        &settings,
        Hashing::Ports(0),
        &[rows],
        &no_pairs(),
    );
    let (directory, seats) = first?;
    let Some(mut seat) = one_of(seats, &directory) else {
        panic!(rt; "one seat");
    };
    let mut early = directory.reader();
    assert!(rt; early.peek(&directory, &key(0x2000)) == Reply::Absent);
    let Ok(_) = seat.insert(&directory, 0, key(0x2000), 20) else {
        panic!(rt; "there is room");
    };
    assert!(rt; early.peek(&directory, &key(0x2000)) == Reply::Found(20));
    assert!(rt; early.peek(&directory, &key(0x6000)) == Reply::Absent);
    let Ok(_) = seat.insert(&directory, 1, key(0x6000), 60) else {
        panic!(rt; "there is room");
    };
    let Ok(_) = seat.insert(&directory, 2, key(0x8000), 80) else {
        panic!(rt; "there is room");
    };
    let mut late = directory.reader();
    assert!(rt; early.peek(&directory, &key(0x2000)) == Reply::Found(20));
    assert!(rt; early.peek(&directory, &key(0x8000)) == Reply::Found(80));
    assert!(rt; late.peek(&directory, &key(0x6000)) == Reply::Found(60));
    let Ok(_) = seat.remove(&directory, 3, key(0x2000)) else {
        panic!(rt; "there is room");
    };
    assert!(rt; early.peek(&directory, &key(0x2000)) == Reply::Absent);
    assert!(rt; late.peek(&directory, &key(0x2000)) == Reply::Absent);
    Ok(())
}

// A closed table of one seat, copied.
fn copied(alloc: Global, directory: Directory, seat: Seat) -> Result<ClosedRows, AllocError>
    requires one { seats_of directory.setup ≡ 1 }
    requires of { IsOf directory seat }
{
    let mut seats = Vec::with_capacity(alloc, 1)?;
    seats.push_reserved(seat);
    match directory.close(alloc, seats) {
        Ok(rows) => Ok(rows),
        Err((failed, _, _)) => Err(failed),
    }
}

// A closed table of one seat, in place.
fn in_place(alloc: Global, directory: Directory, seat: Seat) -> Result<ClosedTable, AllocError>
    requires one { seats_of directory.setup ≡ 1 }
    requires of { IsOf directory seat }
{
    let mut seats = Vec::with_capacity(alloc, 1)?;
    seats.push_reserved(seat);
    Ok(directory.close_in_place(seats))
}

// Whether both have the same words.
fn have_same_words(rows: &ClosedRows, closed: &ClosedTable) -> bool {
    if rows.words.len() != closed.count() {
        return false;
    }
    for (at, word) in rows.words.iter().enumerate() {
        if closed.word(at) != *word {
            return false;
        }
    }
    true
}

// Whether a table from a used blank, closed in place, says what one from a new blank says, closed as a copy: the words,
// and the pairs in the order of their keys. The blank gets the words of the closed table.
fn says_the_same(alloc: Global, used: &mut Blank, settings: &Settings) -> Result<bool, AllocError>
    requires { settings.now.seats ≡ 1 }
{
    let kept = filled(alloc, used, settings);
    let anew = filled(alloc, &mut Blank::new(alloc), settings);
    let (Some((directory, seat)), Some((other, own))) = (kept, anew) else {
        return Ok(false);
    };
    let closed = in_place(alloc, directory, seat)?;
    let rows = copied(alloc, other, own)?;
    let pairs = closed.pairs(alloc)?;
    let held = [
        Pair {
            key: WEB,
            value: 7,
            bytes: 0,
        },
        Pair {
            key: WEB_AGAIN,
            value: 8,
            bytes: 0,
        },
    ];
    let same = have_same_words(&rows, &closed) && pairs_in(alloc, &rows.layout, &rows)? == pairs;
    used.keep(closed);
    Ok(same && pairs.as_slice() == held.as_slice())
}

// One blank serves tables of any size, one after the other, also where its words are made ahead, more of them than the
// first table has, or fewer.
#[test]
fn a_blank_serves_again(rt: HostRuntime) -> Result<(), Fail> {
    for words in [5_000, 5] {
        let mut blank = Blank::new(rt.alloc());
        blank.prepare(words);
        for (items, depth, start) in [(4, 2, 2), (2, 1, 0), (4, 3, 1), (4, 2, 2)] {
            let settings = Settings::new(1, items, depth, start)?;
            assert!(rt;
                says_the_same(rt.alloc(), &mut blank, &settings)?,
                "{words} {depth}"
            );
        }
    }
    Ok(())
}
