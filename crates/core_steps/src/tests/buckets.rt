//! One bucket of a table, as a value and as a row whose words are changed where they stand.

ghost use Rattle.std.specs.Prelude.{◌<◌, ◌≤◌, vec_capacity};
ghost use Rattle.plain_map.specs.Updates.{IsUpdate, number_limit};

use super::{key, pair};
use bucket_machine::{Hashed, change_row};
use bucket_states::{Bucket, Op};
use hash_bits::Hashing;
use plain_map::{BucketRow, Call, Reply, Rules, VALUE_LIMIT};
use std::alloc::Global;
use std::process::Abort;
use std::test::Fail;
use step_counts::{SeatRows, Settings};
use word_rows::Layout;

fn put(seat: u32, number: u64, port: u16) -> Option<Op> {
    let call = Call::Insert(key(port), u64::from(port));
    Some(Op { seat, number, call })
}

fn tally(seat: u32, number: u64, port: u16) -> Option<Op> {
    let call = Call::Tally(key(port), u64::from(port));
    Some(Op { seat, number, call })
}

// Two items are all that a bucket may have. A third key freezes it at depth 1, with the numbers as before, and is
// refused at depth 2, the greatest. Ports 1, 2 and 3 have the first bits 00, and port 16384 has 01.
#[test]
fn a_third_key_freezes_or_is_refused(rt: HostRuntime) -> Result<(), Fail> {
    let settings = Settings::new(2, 2, 2, 0)?;
    let rules = Rules {
        items: 2,
        depth: 2,
        hashing: Hashing::Ports(0),
    };
    for (depth, frozen, number, reply) in [(1, true, 1, Reply::New), (2, false, 2, Reply::NoRoom)] {
        let mut bucket = Bucket::with_room(rt.alloc(), &settings)?;
        bucket.depth = depth;
        bucket.apply_all(&rules, &[put(0, 1, 1), put(1, 1, 2)]);
        bucket.apply_all(&rules, &[put(0, 2, 3), put(1, 1, 9)]);
        assert_eq!(rt; bucket.frozen, frozen, "at {depth}");
        assert!(rt;
            bucket.applied.as_slice() == [number, 1].as_slice(),
            "at {depth}"
        );
        assert!(rt;
            bucket.replies.as_slice() == [Some(reply), Some(Reply::New)].as_slice(),
            "at {depth}"
        );
        let found = (bucket.find(&key(2)), bucket.find(&key(3)));
        assert!(rt; found == (Some(2), None), "at {depth}");
        let tally = Call::Tally(key(2), 5);
        assert!(rt; bucket.reply(&rules, &tally) == Reply::Sum(5), "at {depth}");
    }
    Ok(())
}

// A row written from a bucket is read again as the same bucket, and so is a copy.
#[test]
fn a_bucket_goes_through_its_row(rt: HostRuntime) -> Result<(), Fail> {
    let settings = Settings::new(2, 2, 1, 0)?;
    let mut bucket = Bucket::with_room(rt.alloc(), &settings)?;
    bucket.frozen = true;
    bucket.applied[1] = 3;
    bucket.replies[1] = Some(Reply::Absent);
    let mut row = BucketRow::with_room(rt.alloc(), &settings)?;
    bucket.to_row(Some(4), &mut row);
    assert_eq!(rt; row.base, Some(4));
    let mut read = Bucket::with_room(rt.alloc(), &settings)?;
    read.from_row(&row);
    let mut copy = Bucket::with_room(rt.alloc(), &settings)?;
    copy.copy_from(&read);
    assert!(rt; copy.frozen && copy.applied.as_slice() == [0, 3].as_slice());
    Ok(())
}

// The key of port 1 has the first bits 00, that of 16384 has 01, and that of 32768 has 10. A full bucket of the keys
// that begin with 0 is split, and each part has a place for one more.
#[test]
fn a_full_bucket_is_split(rt: HostRuntime) -> Result<(), Fail> {
    let settings = Settings::new(2, 2, 2, 0)?;
    let rules = Rules {
        items: 2,
        depth: 2,
        hashing: Hashing::Ports(0),
    };
    let mut bucket = Bucket::with_room(rt.alloc(), &settings)?;
    bucket.depth = 1;
    bucket.apply_all(&rules, &[put(0, 1, 1), put(1, 1, 16384)]);
    bucket.apply_all(&rules, &[tally(0, 2, 1), tally(1, 2, 16384)]);
    let op = Op {
        seat: 0,
        number: 3,
        call: Call::Insert(key(2), 2),
    };
    bucket.apply_all(&rules, &[Some(op), None]);
    assert!(rt; bucket.frozen && bucket.overflows(&rules, &op.call));
    let held = (
        bucket.holds(&rules, &key(16384)),
        bucket.holds(&rules, &key(32768)),
    );
    assert_eq!(rt; (held, bucket.items.len()), ((true, false), 2));
    let mut zero = Bucket::with_room(rt.alloc(), &settings)?;
    let mut one = Bucket::with_room(rt.alloc(), &settings)?;
    bucket.split_one(&rules, &mut zero, &mut one);
    takes_the_call(&rt, &rules, &mut zero, &op, 0, 1);
    takes_the_call(&rt, &rules, &mut one, &op, 1, 16384);
    Ok(())
}

// A half with these bits has the item of this port, and takes up the call that the whole had no place for.
fn takes_the_call(rt: &impl Abort, rules: &Rules, half: &mut Bucket, op: &Op, bit: u64, port: u16)
    requires { rules.now.items ≤ vec_capacity half.old.items }
{
    assert_eq!(rt; (half.prefix, half.depth, half.frozen), (bit, 2, false));
    let item = pair(port, u64::from(port), u64::from(port));
    assert!(rt; half.items.as_slice() == [item].as_slice());
    assert!(rt; half.applied.as_slice() == [2, 2].as_slice());
    assert!(rt; !half.overflows(rules, &op.call) && half.replies.len() == 2);
    half.answer(rules, 0, op);
    assert!(rt; half.items.as_slice() == [item, pair(2, 2, 0)].as_slice());
    assert!(rt; half.applied.as_slice() == [3, 2].as_slice());
    assert!(rt; half.replies[0] == Some(Reply::New));
}

// The row of a bucket of depth 0 for two seats and two items, with one item of seat 1 that has 9 bytes, takes an op of
// each seat. The words are worked by hand from the layout: prefix, depth, one more than the base, mark, count, seven
// words an item, and number and reply of each seat.
fn takes(rt: &impl Abort, alloc: Global, one: Op, other: Op, wanted: &[u64; 23]) -> Result<(), Fail>
    requires one { IsUpdate one.call × (one.number < number_limit) }
    requires other { IsUpdate other.call × (other.number < number_limit) }
{
    let settings = Settings::new(2, 2, 2, 0)?;
    let rows = SeatRows {
        op_rows: 9,
        bucket_rows: 9,
        bucket_words: 9,
        directory_rows: 9,
    };
    let layout = Layout::new(&settings, &[rows, rows]);
    let rules = Rules {
        items: 2,
        depth: 2,
        hashing: Hashing::Ports(0),
    };
    let own = Hashed::new(&rules.hashing, &key(1));
    let mut room = BucketRow::with_room(alloc, &settings)?;
    let mut words = [
        0, 0, 4, 0, 1, 0, LOW, 0, HIGH, ONE, 7, 9, 0, 0, 0, 0, 0, 0, 0, 0, 0, 1, 1,
    ];
    assert!(rt; layout.read_bucket(&words, &mut room));
    let ops = [Some(one), Some(other)];
    change_row(&settings, &rules, &own, 6, &ops, &mut words);
    assert_eq!(rt; words, *wanted);
    Ok(())
}

// The words of the keys of ports 1 and 2 that are not 0.
const LOW: u64 = 0x0a00_0001;

const HIGH: u64 = 0x0a00_0002;

const ONE: u64 = 0x0100_5006;

const TWO: u64 = 0x0200_5006;

// An insert of seat 0 and a tally of seat 1, whose reply `sum 14` is 6 + 8 * 14.
#[test]
fn a_row_takes_an_insert_and_a_tally(rt: HostRuntime) -> Result<(), Fail> {
    let one = Op {
        seat: 0,
        number: 1,
        call: Call::Insert(key(2), 8),
    };
    let other = Op {
        seat: 1,
        number: 2,
        call: Call::Tally(key(1), 5),
    };
    let wanted = [
        0, 0, 7, 0, 2, 0, LOW, 0, HIGH, ONE, 7, 14, 0, LOW, 0, HIGH, TWO, 8, 0, 1, 1, 2, 118,
    ];
    takes(&rt, rt.alloc(), one, other, &wanted)
}

// A count of seat 0 and a put of seat 1, whose reply `old 7` is 2 + 8 * 7.
#[test]
fn a_row_takes_a_count_and_a_put(rt: HostRuntime) -> Result<(), Fail> {
    let one = Op {
        seat: 0,
        number: 1,
        call: Call::Count(key(2), 8, 5),
    };
    let other = Op {
        seat: 1,
        number: 2,
        call: Call::Put(key(1), 3),
    };
    let wanted = [
        0, 0, 7, 0, 2, 0, LOW, 0, HIGH, ONE, 3, 9, 0, LOW, 0, HIGH, TWO, 8, 5, 1, 1, 2, 58,
    ];
    takes(&rt, rt.alloc(), one, other, &wanted)
}

// A put of seat 0 and a count of seat 1 that stops at 2^61 - 1: its reply is 6 + 8 * (2^61 - 1).
#[test]
fn a_row_takes_a_put_and_a_count(rt: HostRuntime) -> Result<(), Fail> {
    let one = Op {
        seat: 0,
        number: 1,
        call: Call::Put(key(2), 8),
    };
    let other = Op {
        seat: 1,
        number: 2,
        call: Call::Count(key(1), 3, VALUE_LIMIT - 1),
    };
    let wanted = [
        0,
        0,
        7,
        0,
        2,
        0,
        LOW,
        0,
        HIGH,
        ONE,
        7,
        VALUE_LIMIT - 1,
        0,
        LOW,
        0,
        HIGH,
        TWO,
        8,
        0,
        1,
        1,
        2,
        u64::MAX - 1,
    ];
    takes(&rt, rt.alloc(), one, other, &wanted)
}
