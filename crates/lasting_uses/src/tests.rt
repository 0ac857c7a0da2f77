//! The use once: both inserts are made, and a reader sees the first.

use super::*;
use std::test::Fail;

// 10.0.0.1 with this port and 10.0.0.2:80 over TCP.
fn key(port: u16) -> Key {
    Key {
        k0: 0,
        k1: 0x0a00_0001,
        k2: 0,
        k3: 0x0a00_0002,
        k4: u64::from(port) << 24 | 0x5006,
    }
}

// No clause says that both inserts are made.
#[test]
fn two_flows_are_remembered(rt: HostRuntime) -> Result<(), Fail> {
    let one = Pair {
        key: key(1),
        value: 7,
        bytes: 0,
    };
    let other = Pair {
        key: key(2),
        value: 8,
        bytes: 0,
    };
    let made = remember_both(&rt, rt.alloc(), one, other);
    assert!(rt; made == Some((Reply::New, Reply::New, Some(Reply::Found(7)))));
    Ok(())
}

// No clause says that the puts are made. A seat has 37 rows, and each put takes one.
#[test]
fn rows_are_used_again(rt: HostRuntime) -> Result<(), Fail> {
    assert!(rt; put_often(rt.alloc(), key(1), 1000) == Some(Reply::Found(999)));
    Ok(())
}

// No clause says that both inserts are made. The order is that of the buckets.
#[test]
fn all_pairs_are_listed(rt: HostRuntime) -> Result<(), Fail> {
    let one = Pair {
        key: key(1),
        value: 7,
        bytes: 0,
    };
    let other = Pair {
        key: key(2),
        value: 8,
        bytes: 0,
    };
    let pairs = remember_and_list(rt.alloc(), one, other);
    assert!(rt; are_both(&pairs, &one, &other));
    Ok(())
}

fn are_both(pairs: &Option<Vec<Pair>>, one: &Pair, other: &Pair) -> bool {
    match pairs {
        Some(pairs) => pairs.len() == 2 && pairs.contains(one) && pairs.contains(other),
        None => false,
    }
}
