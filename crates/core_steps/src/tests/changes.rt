//! Changes of a directory.

ghost use Rattle.std.specs.Prelude.{◌≤◌, ◌<◌, ◌^◌, All, IfOk, length};
ghost use Rattle.dir_states.specs.Rooms.{HasItems};

use super::{key, pair};
use bucket_states::{Bucket, Op};
use dir_states::{Change, DirState, Loaded, NewLeaf, base_of};
use hash_bits::Hashing;
use plain_map::{Call, DirectoryRow, Pair, Reply, Rules};
use std::alloc::{AllocError, Global};
use std::process::Abort;
use std::test::Fail;
use step_counts::Settings;

fn op(seat: u32, number: u64, call: Call) -> Option<Op> {
    Some(Op { seat, number, call })
}

fn insert(port: u16, value: u64) -> Call {
    Call::Insert(key(port), value)
}

// A frozen bucket with these pairs, in which each seat's last update has this number and found its key new. Its row is
// 6 above it.
fn frozen(
    alloc: Global,
    bucket: u64,
    prefix: u64,
    depth: u32,
    pairs: &[Pair],
    applied: &[u64],
) -> Result<Loaded, AllocError>
    ensures { IfOk result (HasItems (length pairs.now)) }
{
    let mut state = Bucket {
        prefix,
        depth,
        frozen: true,
        items: Vec::new(alloc),
        applied: Vec::new(alloc),
        replies: vec![in alloc; Some(Reply::New); applied.len()]?,
    };
    state.items.extend_from_slice(pairs)?;
    state.applied.extend_from_slice(applied)?;
    Ok(Loaded {
        bucket,
        row: bucket.saturating_add(6),
        state,
    })
}

// What a leaf has to be: where it comes from, its prefix and depth, its pairs, and its numbers and replies.
type Wanted<'a> = (u64, u64, u32, &'a [Pair], &'a [u64], &'a [Option<Reply>]);

fn is_wanted(loaded: &[Loaded], leaf: &NewLeaf, wanted: &Wanted<'_>) -> bool {
    let (from, prefix, depth, items, applied, replies) = *wanted;
    let bucket = &leaf.bucket;
    leaf.from == Some(from)
        && base_of(loaded, leaf) == Some(from.saturating_add(6))
        && (bucket.prefix, bucket.depth, bucket.frozen) == (prefix, depth, false)
        && bucket.items.as_slice() == items
        && bucket.applied.as_slice() == applied
        && bucket.replies.as_slice() == replies
}

// A directory's change, with numbers from `fresh` on for new buckets; `None` where a bucket is none of a table.
fn changed(
    alloc: Global,
    settings: &Settings,
    directory: &DirState,
    loaded: &[Loaded],
    ops: &[Option<Op>],
    fresh: u64,
) -> Result<Option<Change>, AllocError>
    requires depth { directory.now.depth ≤ settings.now.depth }
    requires seats { length ops.now ≤ settings.now.seats }
    requires loaded { All (HasItems settings.now.items) loaded.now }
    requires fresh { fresh < 2 ^ 63 }
{
    let rules = Rules {
        items: settings.items,
        depth: settings.depth,
        hashing: Hashing::Ports(0),
    };
    let mut change = Change::with_room(alloc, settings)?;
    let fits = change.change(&rules, directory, loaded, ops, fresh);
    Ok(fits.then_some(change))
}

// Compares the entries and the new leaves of a change with those that were worked out.
fn compare(
    rt: &impl Abort,
    change: Option<Change>,
    loaded: &[Loaded],
    entries: &[u64],
    wanted: &[Wanted<'_>],
) {
    let Some(change) = change else {
        panic!(rt; "the buckets are those of a table");
    };
    assert!(rt; change.state().entries.as_slice() == entries);
    assert!(rt; change.leaves().len() == wanted.len());
    for (leaf, wanted) in change.leaves().iter().zip(wanted) {
        assert!(rt; is_wanted(loaded, leaf, wanted), "prefix {}", wanted.1);
    }
}

// The one bucket holds ports 1 and 16384, and port 32768 comes: the directory doubles once. Then it holds ports 1 and
// 2, and port 3 comes, which no split helps: it doubles twice, and the port is refused.
#[test]
fn a_full_bucket_is_split_for_a_third_key(rt: HostRuntime) -> Result<(), Fail> {
    let settings = Settings::new(1, 2, 2, 0)?;
    let directory = DirState::with_room(rt.alloc(), &settings)?;
    let new: &[Option<Reply>] = &[Some(Reply::New)];
    let halves = [pair(1, 1, 0), pair(16384, 2, 0)];
    let loaded = [frozen(rt.alloc(), 0, 0, 0, &halves, &[2])?];
    let wanted: [Wanted<'_>; 2] = [
        (0, 0, 1, &halves, &[2], new),
        (0, 1, 1, &[pair(32768, 3, 0)], &[3], new),
    ];
    let ops = [op(0, 3, insert(32768, 3))];
    let change = changed(rt.alloc(), &settings, &directory, &loaded, &ops, 4)?;
    compare(&rt, change, &loaded, &[4, 5], &wanted);

    let class = [pair(1, 1, 0), pair(2, 2, 0)];
    let loaded = [frozen(rt.alloc(), 0, 0, 0, &class, &[2])?];
    let wanted: [Wanted<'_>; 3] = [
        (0, 0, 2, &class, &[3], &[Some(Reply::NoRoom)]),
        (0, 1, 2, &[], &[2], new),
        (0, 1, 1, &[], &[2], new),
    ];
    let ops = [op(0, 3, insert(3, 3))];
    let change = changed(rt.alloc(), &settings, &directory, &loaded, &ops, 4)?;
    compare(&rt, change, &loaded, &[4, 5, 6, 6], &wanted);
    Ok(())
}

// The one bucket has room for one pair and holds port 1. Seat 0 inserts port 1 again, and is answered in the leaf 0;
// seat 1 inserts port 2, for which that leaf is split again: both parts have seat 0's number, the own leaf both.
#[test]
fn a_second_op_splits_the_leaf_of_the_first(rt: HostRuntime) -> Result<(), Fail> {
    let settings = Settings::new(2, 1, 2, 0)?;
    let directory = DirState::with_room(rt.alloc(), &settings)?;
    let ops = [op(0, 4, insert(1, 9)), op(1, 2, insert(2, 8))];
    let one = [pair(1, 5, 0)];
    let loaded = [frozen(rt.alloc(), 0, 0, 0, &one, &[3, 1])?];
    let (old, new) = (Some(Reply::Old(5)), Some(Reply::New));
    let wanted: [Wanted<'_>; 3] = [
        (0, 0, 2, &one, &[4, 2], &[old, Some(Reply::NoRoom)]),
        (0, 1, 2, &[], &[4, 1], &[old, new]),
        (0, 1, 1, &[], &[3, 1], &[new, new]),
    ];
    let change = changed(rt.alloc(), &settings, &directory, &loaded, &ops, 7)?;
    compare(&rt, change, &loaded, &[7, 8, 9, 9], &wanted);
    Ok(())
}

// The one bucket holds ports 1 and 16384. Seat 0 counts at port 32768, for which the bucket is split, and seat 1 puts
// another value at port 1, whose bytes stay. Then it holds ports 1 and 2, and a count and a put at port 3 are refused.
#[test]
fn a_count_splits_a_full_bucket(rt: HostRuntime) -> Result<(), Fail> {
    let settings = Settings::new(2, 2, 2, 0)?;
    let directory = DirState::with_room(rt.alloc(), &settings)?;
    let (old, new, no) = (Some(Reply::Old(1)), Some(Reply::New), Some(Reply::NoRoom));
    let halves = [pair(1, 1, 6), pair(16384, 2, 0)];
    let loaded = [frozen(rt.alloc(), 0, 0, 0, &halves, &[2, 1])?];
    let wanted: [Wanted<'_>; 2] = [
        (
            0,
            0,
            1,
            &[pair(1, 9, 6), pair(16384, 2, 0)],
            &[2, 2],
            &[new, old],
        ),
        (0, 1, 1, &[pair(32768, 3, 40)], &[3, 1], &[new, new]),
    ];
    let ops = [
        op(0, 3, Call::Count(key(32768), 3, 40)),
        op(1, 2, Call::Put(key(1), 9)),
    ];
    let change = changed(rt.alloc(), &settings, &directory, &loaded, &ops, 4)?;
    compare(&rt, change, &loaded, &[4, 5], &wanted);

    let class = [pair(1, 1, 0), pair(2, 2, 0)];
    let loaded = [frozen(rt.alloc(), 0, 0, 0, &class, &[2, 1])?];
    let wanted: [Wanted<'_>; 3] = [
        (0, 0, 2, &class, &[3, 2], &[no, no]),
        (0, 1, 2, &[], &[2, 1], &[new, new]),
        (0, 1, 1, &[], &[2, 1], &[new, new]),
    ];
    let ops = [
        op(0, 3, Call::Count(key(3), 3, 40)),
        op(1, 2, Call::Put(key(3), 9)),
    ];
    let change = changed(rt.alloc(), &settings, &directory, &loaded, &ops, 4)?;
    compare(&rt, change, &loaded, &[4, 5, 6, 6], &wanted);
    Ok(())
}

// Three buckets: 5 of prefix 00 and 9 of prefix 01 are frozen, 7 of prefix 1 is open. Seat 0 removes port 16384 from 9,
// seat 1's update is in 5 already, and seat 2 asks 7: so 9 alone is replaced, and the directory doubles.
#[test]
fn only_the_bucket_of_a_taken_op_is_replaced(rt: HostRuntime) -> Result<(), Fail> {
    let settings = Settings::new(3, 2, 3, 0)?;
    let mut directory = DirState::with_room(rt.alloc(), &settings)?;
    let mut row = DirectoryRow::with_room(rt.alloc(), &Settings::new(1, 1, 2, 0)?)?;
    row.depth = 2;
    row.entries = Vec::from_slice(rt.alloc(), &[5, 9, 7, 7])?;
    assert!(rt; row.entries.len() <= directory.entries.capacity());
    directory.from_row(&row);
    let ops = [
        op(0, 2, Call::Remove(key(16384))),
        op(1, 1, insert(8192, 8)),
        op(2, 1, insert(32768, 8)),
    ];
    let ninth = [pair(16384, 1, 0), pair(24576, 2, 0)];
    let mut open = frozen(rt.alloc(), 7, 1, 1, &[], &[0, 0, 0])?;
    open.state.frozen = false;
    let loaded = [
        frozen(rt.alloc(), 9, 1, 2, &ninth, &[1, 0, 0])?,
        frozen(rt.alloc(), 5, 0, 2, &[], &[0, 1, 0])?,
        open,
    ];
    let new = Some(Reply::New);
    let gone = [Some(Reply::Gone(1)), new, new];
    let wanted: [Wanted<'_>; 2] = [
        (9, 2, 3, &[], &[2, 0, 0], &gone),
        (9, 3, 3, &[pair(24576, 2, 0)], &[1, 0, 0], &[new, new, new]),
    ];
    let entries = [5, 5, 20, 21, 7, 7, 7, 7];
    let change = changed(rt.alloc(), &settings, &directory, &loaded, &ops, 20)?;
    compare(&rt, change, &loaded, &entries, &wanted);
    Ok(())
}
