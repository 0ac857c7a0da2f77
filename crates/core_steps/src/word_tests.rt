//! The words of a small table, one by one, under a seat's first call.

ghost use Rattle.std.specs.Prelude.{◌≡◌, ◌≢◌, ℕ, ◌^◌, ◌<◌, All, IfOk};
ghost use Rattle.bucket_states.specs.Parts.{HasDistinctKeys};
ghost use Rattle.word_rows.specs.Shape.{AreBelow, record_limit};
ghost use Rattle.table_model.specs.Setup.{IsPair, seats_of};
ghost use Rattle.table_model.specs.Schedules.{IsPlayable};
ghost use Rattle.table_model.specs.SeatStates.{fresh_seat};
ghost use Rattle.table_model.specs.Worlds.{seat_in};
ghost use Rattle.core_steps.specs.Values.{opened};

use crate::{CoreEnd, CoreWorld, Stepped};
use hash_bits::Hashing;
use plain_map::{Call, Full, FullKind, Key, Pair, Record, Reply, Seen};
use std::alloc::{AllocError, Global};
use std::process::Abort;
use std::test::Fail;
use step_counts::{SeatRows, Settings};
use table_model::Event;

// The key of 10.0.0.1:1 and 10.0.0.2:80 over TCP.
const KEY: Key = Key {
    k0: 0,
    k1: 0x0a00_0001,
    k2: 0,
    k3: 0x0a00_0002,
    k4: 0x0000_0000_0100_5006,
};

const ROWS: SeatRows = SeatRows {
    op_rows: 1,
    bucket_rows: 4,
    bucket_words: 2,
    directory_rows: 1,
};

// The words that are not 0 at the opening without pairs: the second bucket word; each first bucket row's prefix and
// depth; and the depth and the second entry of the first directory row.
const OPENING: [(usize, u64); 6] = [(4, 1), (16, 1), (36, 1), (37, 1), (141, 1), (144, 1)];

// What the insert stores: in which of its steps, in which word, and what.
const STORES: [(u32, usize, u64); 18] = [
    // What is not 0 of the op row, and the announcement.
    (2, 7, 1),
    (3, 8, 1),
    (5, 10, KEY.k1),
    (7, 12, KEY.k3),
    (8, 13, KEY.k4),
    (9, 14, 1),
    (10, 1, 1),
    // What is not 0 of bucket row 2, after the bucket's word and row and the announced op were loaded.
    (46, 58, 1),
    (47, 59, 1),
    (49, 61, 1),
    (51, 63, KEY.k1),
    (53, 65, KEY.k3),
    (54, 66, KEY.k4),
    (55, 67, 1),
    (64, 76, 1),
    (65, 77, 1),
    // The bucket word, and the done word.
    (66, 3, 2),
    (67, 2, 1),
];

// A table of one seat, two items and depth 1, opened at depth 1 with these pairs.
fn open(alloc: Global, rows: SeatRows, first: &[Pair]) -> Result<CoreWorld, Fail>
    requires rows { AreBelow (2 ^ 32) rows }
    requires pairs { All IsPair first.now }
    requires distinct { HasDistinctKeys first.now }
    ensures opened { IfOk result (λ core. core ≡ opened core.setup) }
    ensures seat { IfOk result (λ core. 0 < seats_of core.setup) }
    ensures limit { IfOk result (λ core. core.setup.shape.limit ≡ record_limit) }
{
    let settings = Settings::new(1, 2, 1, 1)?;
    let core = CoreWorld::new(alloc, &settings, Hashing::Ports(0), &[rows], first)?;
    Ok(core)
}

// The first step of the seat's first call, which changes no other seat.
fn begin(core: &mut CoreWorld, seat: u32, call: Call) -> Result<Stepped, AllocError>
    requires fresh { seat_in core.old.world seat ≡ fresh_seat }
    requires seat { seat < seats_of core.old.setup }
    requires limit { core.old.setup.shape.limit ≡ record_limit }
    requires call { IsPlayable (1, call) }
    ensures setup { IfOk result (λ _. core.new.setup ≡ core.old.setup) }
    ensures others { IfOk result (λ _. (other : ℕ) → other ≢ seat →
        seat_in core.new.world other ≡ seat_in core.old.world other) }
{
    core.step(&Event {
        seat,
        begin: Some((1, call)),
    })
}

// The next step of the seat, where it is in a call.
fn go_on(core: &mut CoreWorld, seat: u32) -> Result<Option<Stepped>, AllocError>
    requires { seat < seats_of core.old.setup }
    ensures { IfOk result (λ _. core.new.setup ≡ core.old.setup) }
{
    if core.idle(seat) {
        return Ok(None);
    }
    let stepped = core.step(&Event { seat, begin: None })?;
    Ok(Some(stepped))
}

// What the last of so many steps of the first call did, and what is left after it.
fn run(
    alloc: Global,
    core: CoreWorld,
    call: Call,
    steps: u32,
) -> Result<(Option<Stepped>, CoreEnd), AllocError>
    requires opened { core ≡ opened core.setup }
    requires seat { 0 < seats_of core.setup }
    requires limit { core.setup.shape.limit ≡ record_limit }
    requires call { IsPlayable (1, call) }
{
    let mut core = core;
    let mut last = None;
    if steps > 0 {
        last = Some(begin(&mut core, 0, call)?);
        for _ in 1..steps {
            last = go_on(&mut core, 0)?;
        }
    }
    match core.finish(alloc) {
        Ok(left) => Ok((last, left)),
        Err((failed, _)) => Err(failed),
    }
}

// The words after so many steps of the insert.
fn words_after(steps: u32) -> [u64; 149] {
    let mut words = [0; 149];
    for (at, word) in OPENING {
        if at < 149 {
            words[at] = word;
        }
    }
    for (step, at, word) in STORES {
        if step <= steps && at < 149 {
            words[at] = word;
        }
    }
    words
}

// The record of the only seat's first call.
fn first_record(call: Call, reply: Reply, steps: u64, place: u64) -> Record {
    Record {
        seat: 0,
        number: 1,
        packet: 1,
        call,
        reply,
        steps,
        seen: Seen { counts: [0; 8] },
        place,
    }
}

// The opening, and every word after each step of an insert.
#[test]
fn an_insert_word_by_word(rt: HostRuntime) -> Result<(), Fail> {
    let call = Call::Insert(KEY, 1);
    for steps in 0..=67 {
        let core = open(rt.alloc(), ROWS, &[])?;
        let (last, left) = run(rt.alloc(), core, call, steps)?;
        let ended = Some(Stepped::Ended(first_record(call, Reply::New, 67, 2)));
        assert_eq!(rt; last == ended, steps == 67, "after step {steps}");
        assert_eq!(rt;
            left.rows.words.as_slice(),
            words_after(steps).as_slice(),
            "after step {steps}"
        );
        assert_eq!(rt;
            left.begun.len() == 1,
            0 < steps && steps < 67,
            "after step {steps}"
        );
    }
    Ok(())
}

// A seat without an op row is refused an update, and no word changes. There is no op row, so that the bucket rows begin
// at word 7 and the directory at word 133.
fn is_refused(rt: &impl Abort, alloc: Global, call: Call) -> Result<(), Fail>
    requires { IsPlayable (1, call) }
{
    let rows = SeatRows { op_rows: 0, ..ROWS };
    let core = open(alloc, rows, &[])?;
    let (last, left) = run(alloc, core, call, 1)?;
    let full = Full {
        what: FullKind::OpRows,
        left: 0,
        need: 1,
    };
    assert!(rt; last == Some(Stepped::Refused(full)));
    let opening = words_after(0);
    assert_eq!(rt; left.rows.words.get(..7), opening.get(..7));
    assert_eq!(rt; left.rows.words.get(7..), opening.get(15..));
    Ok(())
}

#[test]
fn refused_updates(rt: HostRuntime) -> Result<(), Fail> {
    is_refused(&rt, rt.alloc(), Call::Insert(KEY, 1))?;
    is_refused(&rt, rt.alloc(), Call::Count(KEY, 1, 70))?;
    is_refused(&rt, rt.alloc(), Call::Put(KEY, 1))
}

// A lookup of a pair that was there at the opening finds it in the bucket's first row, and stores the done word alone.
#[test]
fn a_lookup_of_a_first_pair(rt: HostRuntime) -> Result<(), Fail> {
    let call = Call::Lookup(KEY);
    let pair = Pair {
        key: KEY,
        value: 7,
        bytes: 0,
    };
    let (_, before) = run(rt.alloc(), open(rt.alloc(), ROWS, &[pair])?, call, 0)?;
    let (last, left) = run(rt.alloc(), open(rt.alloc(), ROWS, &[pair])?, call, 14)?;
    let record = first_record(call, Reply::Found(7), 14, 0);
    assert!(rt; last == Some(Stepped::Ended(record)));
    let old = before.rows.words.as_slice();
    let new = left.rows.words.as_slice();
    assert_eq!(rt; (old.get(2), new.get(2)), (Some(&0), Some(&1)));
    assert_eq!(rt; (old.get(..2), old.get(3..)), (new.get(..2), new.get(3..)));
    assert!(rt; left.pairs.as_slice() == [pair].as_slice());
    Ok(())
}
