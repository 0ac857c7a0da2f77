//! Rows that suffice, added by hand.

use super::{key, rows_of};
use batch_rows::{batch_rows, demand_of, sizes_for};
use hash_bits::Hashing;
use plain_map::Call;
use std::test::Fail;
use step_counts::{Settings, automatic_rows, need};

// The room of one update, and of many, for the smallest table, a small one and the largest. And of a batch: the
// automatic rows where they are fewer, and what the batch can need where that is.
#[test]
fn rooms_of_worked_settings(rt: HostRuntime) -> Result<(), Fail> {
    for (seats, items, depth, start, least, updates, most) in [
        (1, 1, 0, 0, (1, 3, 1, 1), 0, (0, 3, 3, 0)),
        (1, 1, 0, 0, (1, 3, 1, 1), 7, (7, 17, 3, 2)),
        (2, 2, 1, 0, (1, 6, 4, 1), 2, (2, 12, 8, 2)),
        (
            8,
            16,
            12,
            12,
            (1, 106, 104, 1),
            u32::MAX,
            (4_294_967_295, 8_589_942_886, 8_296, 4_097),
        ),
    ] {
        let settings = Settings::new(seats, items, depth, start)?;
        let (op_rows, bucket_rows, bucket_words, directory_rows) = least;
        let least = rows_of(op_rows, bucket_rows, bucket_words, directory_rows);
        assert!(rt; need(&settings) == least, "{seats} seats");
        let (op_rows, bucket_rows, bucket_words, directory_rows) = most;
        let most = rows_of(op_rows, bucket_rows, bucket_words, directory_rows);
        assert!(rt; automatic_rows(&settings, updates) == most, "{seats} seats");
    }
    // one seat, depth 10: 11 new leaves, 2,048 bucket words at most; the last has the automatic rows, 2 * 3 + 2,048 +
    // 11 and 2,048 + 11
    let one = Settings::new(1, 8, 10, 0)?;
    for (updates, splits, wanted) in [
        (0, 0, rows_of(0, 11, 11, 0)),
        (1, 0, rows_of(1, 13, 11, 1)),
        (2000, 16, rows_of(2000, 2044, 43, 17)),
        (3, 2000, rows_of(3, 2065, 2059, 3)),
    ] {
        assert!(rt;
            batch_rows(&one, updates, splits) == wanted,
            "{updates} {splits}"
        );
    }
    Ok(())
}

// Two seats share two inserts and a count of one prefix, which split three and need every depth, a put of a key that is
// there already, a remove and lookups. The keys are told in order and once each. A remove and a lookup bring none, and
// a lookup is no update. 8 new leaves: the first seat needs 4 + 1 + 2 * 3 + 8 bucket rows, and the second
// 2 + 2 * 3 + 8.
#[test]
fn sizes_of_each_share(rt: HostRuntime) -> Result<(), Fail> {
    let settings = Settings::new(2, 2, 3, 0)?;
    let calls = [
        (1, Call::Insert(key(2), 1)),
        (2, Call::Insert(key(1), 2)),
        (3, Call::Count(key(3), 3, 70)),
        (4, Call::Lookup(key(4))),
        (5, Call::Put(key(2), 5)),
        (6, Call::Lookup(key(1))),
        (7, Call::Remove(key(9))),
    ];
    let odd = vec![in rt.alloc(); calls[0], calls[2], calls[4], calls[6]]?;
    let even = vec![in rt.alloc(); calls[1], calls[3], calls[5]]?;
    let shares = vec![in rt.alloc(); odd, even]?;
    let demand = demand_of(rt.alloc(), &calls, &shares)?;
    let keys = [key(1), key(2), key(3)];
    assert!(rt; demand.inserted.as_slice() == keys.as_slice());
    assert!(rt; demand.updates.as_slice() == [4, 1].as_slice());
    let found = sizes_for(rt.alloc(), &settings, Hashing::Ports(0), None, &[], &demand)?;
    let wanted = [rows_of(4, 19, 14, 4), rows_of(1, 16, 14, 1)];
    assert!(rt; found.settings == settings && found.rows.as_slice() == wanted.as_slice());
    Ok(())
}
