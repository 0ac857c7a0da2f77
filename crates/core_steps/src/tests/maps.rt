//! Calls of the plain map, and of the one that keeps each class apart.

ghost use Rattle.std.specs.Prelude.{◌≤◌};
ghost use Rattle.plain_map.specs.PlainObject.{InRange};
ghost use Rattle.class_map.specs.Rows.{HasEachClass};

use super::{key, pair};
use class_map::{ClassMap, PlainMap};
use hash_bits::Hashing;
use plain_map::{Call, Reply, Rules};
use std::process::Abort;
use std::test::Fail;

// Two keys in each class, which is the first two bits of the lower port.
fn two_in_quarters() -> Rules
    ensures { InRange result }
{
    Rules {
        items: 2,
        depth: 2,
        hashing: Hashing::Ports(0),
    }
}

// A count brings an absent key with its bytes, adds to those of a held one, whose value stays, and stops at 2^61 - 1; a
// put gives a held key another value, whose bytes stay. A full class refuses both.
#[test]
fn counts_and_puts(rt: HostRuntime) -> Result<(), Fail> {
    let rules = two_in_quarters();
    let mut map = PlainMap::new(rt.alloc());
    for (call, reply) in [
        (Call::Count(key(1), 7, 40), Reply::New),
        (Call::Count(key(1), 8, 2), Reply::Sum(42)),
        (Call::Lookup(key(1)), Reply::Found(7)),
        (Call::Put(key(1), 9), Reply::Old(7)),
        (Call::Put(key(2), 5), Reply::New),
        (Call::Count(key(3), 1, 1), Reply::NoRoom),
        (Call::Put(key(3), 1), Reply::NoRoom),
        (
            Call::Count(key(2), 6, 0x1fff_ffff_ffff_ffff),
            Reply::Sum(0x1fff_ffff_ffff_ffff),
        ),
        (Call::Count(key(2), 6, 1), Reply::Sum(0x1fff_ffff_ffff_ffff)),
    ] {
        assert!(rt; map.answer(&rules, &call)? == reply);
    }
    let held = [pair(1, 9, 42), pair(2, 5, 0x1fff_ffff_ffff_ffff)];
    assert!(rt; map.pairs() == held.as_slice());
    Ok(())
}

// A tally adds to the bytes of a held key alone, its sum stops at 2^61 - 1, and a session that begins again has none.
#[test]
fn tallied_bytes_stop_at_the_greatest(rt: HostRuntime) -> Result<(), Fail> {
    let rules = two_in_quarters();
    let mut map = PlainMap::new(rt.alloc());
    for (call, reply) in [
        (Call::Tally(key(1), 5), Reply::Absent),
        (Call::Insert(key(1), 1), Reply::New),
        (
            Call::Tally(key(1), 0x1fff_ffff_ffff_fffd),
            Reply::Sum(0x1fff_ffff_ffff_fffd),
        ),
        (Call::Tally(key(1), 9), Reply::Sum(0x1fff_ffff_ffff_ffff)),
        (Call::Lookup(key(1)), Reply::Found(1)),
        (Call::Insert(key(2), 2), Reply::New),
        (Call::Tally(key(2), 5), Reply::Sum(5)),
        (Call::Remove(key(2)), Reply::Gone(2)),
        (Call::Insert(key(2), 3), Reply::New),
        (Call::Tally(key(2), 0), Reply::Sum(0)),
    ] {
        assert!(rt; map.answer(&rules, &call)? == reply);
    }
    let held = [pair(1, 1, 0x1fff_ffff_ffff_ffff), pair(2, 3, 0)];
    assert!(rt; map.pairs() == held.as_slice());
    Ok(())
}

fn expect_replies(
    rt: &impl Abort,
    map: &mut ClassMap,
    rules: &Rules,
    rows: &[(Call, Reply)],
) -> Result<(), Fail>
    requires range { InRange rules.now }
    requires rows { HasEachClass map.old rules.now }
    ensures { HasEachClass map.new rules.now }
{
    for (call, want) in rows {
        assert!(rt; map.answer(rules, call)? == *want);
    }
    Ok(())
}

// Ports 1, 2 and 3 have the first bits 00, 16384 has 01 and 32768 has 10. The third key of a class is refused, is taken
// once another has gone, and keys of other classes do not count. No clause shows that memory is found.
#[test]
fn classes_fill_by_themselves(rt: HostRuntime) -> Result<(), Fail> {
    let rules = two_in_quarters();
    let mut map = ClassMap::new(rt.alloc(), &rules)?;
    let rows = [
        (Call::Insert(key(1), 1), Reply::New),
        (Call::Insert(key(1), 9), Reply::Old(1)),
        (Call::Insert(key(2), 2), Reply::New),
        (Call::Insert(key(3), 3), Reply::NoRoom),
        (Call::Lookup(key(1)), Reply::Found(1)),
        (Call::Lookup(key(3)), Reply::Absent),
        (Call::Insert(key(32768), 5), Reply::New),
        (Call::Insert(key(16384), 4), Reply::New),
        (Call::Tally(key(16384), 70), Reply::Sum(70)),
        (Call::Count(key(16385), 6, 7), Reply::New),
        (Call::Put(key(16386), 6), Reply::NoRoom),
        (Call::Remove(key(1)), Reply::Gone(1)),
        (Call::Remove(key(1)), Reply::Absent),
        (Call::Insert(key(3), 6), Reply::New),
    ];
    expect_replies(&rt, &mut map, &rules, rows.as_slice())?;
    let held = [
        pair(2, 2, 0),
        pair(3, 6, 0),
        pair(16384, 4, 70),
        pair(16385, 6, 7),
        pair(32768, 5, 0),
    ];
    assert!(rt; map.holds_just(&rules, held.as_slice()));
    Ok(())
}
