//! What a gate sees of a run.

use super::captures::{DNS_AND_WEB, HEAD, Part, file_of};
use super::words_of;
use edge_traits::{Gate, MemorySink, MemorySource};
use std::alloc::Global;
use std::process::Abort;
use std::sync::atomic::{AtomicU64, Ordering};
use std::test::Fail;
use std::thread::Threads;
use trace_runner::{Status, run};

/// Keeps the sum of the seats; and the numbers and answers as decimal digits, in the order in which they came.
#[derive(Drop)]
struct Witness {
    seats: AtomicU64,
    digits: AtomicU64,
}

impl Witness {
    fn note(&self, seat: u32, digit: u64) {
        self.seats.fetch_add(u64::from(seat), Ordering::SeqCst);
        let before = self.digits.load(Ordering::SeqCst);
        let after = before.wrapping_mul(10).wrapping_add(digit);
        self.digits.store(after, Ordering::SeqCst);
    }
}

impl Gate for Witness {
    fn pass(&self, seat: u32, number: u32) {
        self.note(seat, u64::from(number));
    }

    fn told(&self, seat: u32, _number: u32, answer: u64) {
        self.note(seat, answer);
    }
}

/// Each call passes the gate with its number. Before the next call the value that its reply carries is
/// told, or 0 where it carries none. A gate promises nothing, so no clause says what it sees.
#[test]
fn gate_sees_each_call_and_its_answer(rt: HostRuntime) -> Result<(), Fail> {
    let witness = Witness {
        seats: AtomicU64::new(0),
        digits: AtomicU64::new(0),
    };
    let file = file_of(rt.alloc(), &DNS_AND_WEB)?;
    let mut source = MemorySource::new(rt.alloc(), &file, 1000, &[])?;
    let mut sink = MemorySink::new(rt.alloc(), 2000, &[])?;
    let words = words_of(rt.alloc(), "serve --seats 1")?;
    let status = run(
        &rt,
        rt.alloc(),
        &words,
        &mut source,
        &mut sink,
        &witness,
        &mut None,
    );
    assert!(rt; status == Status::Done);
    assert_eq!(rt; witness.seats.load(Ordering::SeqCst), 0);
    let digits = witness.digits.load(Ordering::SeqCst);
    // the sixth is a tally, whose sum of 100 is added where another call adds its digit
    assert_eq!(rt; digits, 10_21_30_43_53_60_73_80_90 + 100 * 1_000_000);
    Ok(())
}

/// By seat, how often it passed, and how often it was told.
#[derive(Drop)]
struct Counter {
    passed: [AtomicU64; 8],
    told: [AtomicU64; 8],
}

impl Gate for Counter {
    fn pass(&self, seat: u32, _number: u32) {
        count(&self.passed, seat);
    }

    fn told(&self, seat: u32, _number: u32, _answer: u64) {
        count(&self.told, seat);
    }
}

/// One more of the seat.
fn count(counts: &[AtomicU64], seat: u32) {
    if let Some(word) = counts.get(seat as usize) {
        word.fetch_add(1, Ordering::SeqCst);
    }
}

/// The counts as decimal digits, that of seat 0 first.
fn digits_of(counts: &[AtomicU64]) -> u64 {
    let mut digits: u64 = 0;
    for word in counts {
        digits = digits
            .wrapping_mul(10)
            .wrapping_add(word.load(Ordering::SeqCst));
    }
    digits
}

/// None of any seat.
fn no_counts() -> [AtomicU64; 8] {
    [
        AtomicU64::new(0),
        AtomicU64::new(0),
        AtomicU64::new(0),
        AtomicU64::new(0),
        AtomicU64::new(0),
        AtomicU64::new(0),
        AtomicU64::new(0),
        AtomicU64::new(0),
    ]
}

/// Each of eight callers passes as the seat whose calls it makes: of twelve calls that are dealt in turn, the first
/// four seats make two each and the others one. No clause says what a gate sees.
#[test]
fn callers_pass_as_their_seats(rt: HostRuntime) -> Result<(), Fail> {
    let counter = Counter {
        passed: no_counts(),
        told: no_counts(),
    };
    let mut parts = [Part::Ack(1); 13];
    parts[0] = Part::Bytes(&HEAD);
    let file = file_of(rt.alloc(), &parts)?;
    let mut source = MemorySource::new(rt.alloc(), &file, 1000, &[])?;
    let mut sink = MemorySink::new(rt.alloc(), 4000, &[])?;
    let words = words_of(rt.alloc(), "serve --seats 8 --share round")?;
    let status = run(
        &rt,
        rt.alloc(),
        &words,
        &mut source,
        &mut sink,
        &counter,
        &mut None,
    );
    assert!(rt; status == Status::Done);
    assert_eq!(rt; digits_of(&counter.passed), 22_221_111);
    assert_eq!(rt; digits_of(&counter.told), 22_221_111);
    Ok(())
}

/// How often a call looks for what it waits for.
const TURNS: u32 = 200_000_000;

/// What one of two seats shows the other.
#[derive(Drop)]
struct Flag {
    /// How many batches the seat has begun.
    begun: AtomicU64,
    /// In how many it saw the other one there.
    saw: AtomicU64,
}

/// A flag for each of two seats. At its first call of a batch each raises its own, and looks for the other's to be as
/// high.
#[derive(Drop)]
struct Meeting {
    first: Flag,
    second: Flag,
}

impl Gate for Meeting {
    fn pass(&self, seat: u32, number: u32) {
        if number != 1 {
            return;
        }
        let (own, other) = if seat == 0 {
            (&self.first, &self.second)
        } else {
            (&self.second, &self.first)
        };
        let before = own.begun.fetch_add(1, Ordering::SeqCst);
        for _ in 0..TURNS {
            if other.begun.load(Ordering::SeqCst) > before {
                own.saw.fetch_add(1, Ordering::SeqCst);
                return;
            }
        }
    }

    fn told(&self, _seat: u32, _number: u32, _answer: u64) {}
}

/// A flag that is down.
fn new_flag() -> Flag {
    Flag {
        begun: AtomicU64::new(0),
        saw: AtomicU64::new(0),
    }
}

/// Two callers are in their first calls of a batch at once, where a capture is served and where one of 5,000 packets is
/// tried, which are three batches. A body that makes one call after the other reaches its limit of turns. No clause
/// says that callers run in threads.
#[test]
fn two_callers_meet(rt: HostRuntime) -> Result<(), Fail> {
    let file = file_of(
        rt.alloc(),
        &[Part::Bytes(&HEAD), Part::Syn(1), Part::Syn(2)],
    )?;
    let rows = [
        ("serve --seats 2 --share round", 1),
        ("trial --number 7 --packets 5000", 3),
    ];
    for (line, batches) in rows {
        let meeting = Meeting {
            first: new_flag(),
            second: new_flag(),
        };
        let mut source = MemorySource::new(rt.alloc(), &file, 1000, &[])?;
        let mut sink = MemorySink::new(rt.alloc(), 2000, &[])?;
        let words = words_of(rt.alloc(), line)?;
        let status = run(
            &rt,
            rt.alloc(),
            &words,
            &mut source,
            &mut sink,
            &meeting,
            &mut None,
        );
        assert!(rt; status == Status::Done, "{line}");
        assert_eq!(rt; meeting.first.saw.load(Ordering::SeqCst), batches, "{line}");
        assert_eq!(rt;
            meeting.second.saw.load(Ordering::SeqCst),
            batches,
            "{line}"
        );
    }
    Ok(())
}

/// Six calls in an order, each by its seat and its place, from 1, among the calls of its seat.
type Order = [(u32, u32); 6];

/// Lets six calls of two seats pass in this order, each when the one before it was told. Keeps the answers as decimal
/// digits, and how many calls reached their limit of turns.
#[derive(Drop)]
struct Follower {
    order: Order,
    told: AtomicU64,
    digits: AtomicU64,
    missed: AtomicU64,
}

impl Gate for Follower {
    fn pass(&self, seat: u32, number: u32) {
        let mut place: u64 = 0;
        for before in self.order {
            if before == (seat, number) {
                break;
            }
            place = place.wrapping_add(1);
        }
        for _ in 0..TURNS {
            if self.told.load(Ordering::SeqCst) == place {
                return;
            }
        }
        self.missed.fetch_add(1, Ordering::SeqCst);
    }

    fn told(&self, _seat: u32, _number: u32, answer: u64) {
        let before = self.digits.load(Ordering::SeqCst);
        let after = before.wrapping_mul(10).wrapping_add(answer);
        self.digits.store(after, Ordering::SeqCst);
        self.told.fetch_add(1, Ordering::SeqCst);
    }
}

/// What is printed where the seats go in this order of their packets: 2 1 4 3 6 5. No call runs beside another, so that
/// the steps are those of the program of a seat, worked by hand: an update takes 51 where the other seat has announced
/// nothing and 81 where it has, and a lookup 8, and 7 more where the session is there.
const ONE_WAY: &str = "\
    flowdir serve seats 2 items 2 depth 1 start 1 hash ports seed 0 share round\n\
    call 1 seat 0 lookup 10.0.0.1:1-10.0.0.2:80/tcp found 2 steps 15 after 0,1\n\
    call 2 seat 1 insert 10.0.0.1:1-10.0.0.2:80/tcp new 2 steps 73 after 0,0\n\
    call 3 seat 0 remove 10.0.0.1:1-10.0.0.2:80/tcp gone 2 steps 81 after 1,2\n\
    call 4 seat 1 lookup 10.0.0.1:1-10.0.0.2:80/tcp found 2 steps 15 after 1,1\n\
    call 5 seat 0 insert 10.0.0.1:1-10.0.0.2:80/tcp new 5 steps 81 after 2,3\n\
    call 6 seat 1 lookup 10.0.0.1:1-10.0.0.2:80/tcp absent steps 8 after 2,2\n\
    order 2 1 4 3 6 5\n\
    session 10.0.0.1:1-10.0.0.2:80/tcp 5 bytes 0\n\
    leaves 2 depth 1\n\
    input done rest 0\n\
    count packets 6 calls 6 passed 0 full 0 pending 0 unbegun 0\n\
    steps update 81 bound 1041 lookup 15\n";

/// And in this: 1 2 3 4 5 6.
const OTHER_WAY: &str = "\
    flowdir serve seats 2 items 2 depth 1 start 1 hash ports seed 0 share round\n\
    call 1 seat 0 lookup 10.0.0.1:1-10.0.0.2:80/tcp absent steps 8 after 0,0\n\
    call 2 seat 1 insert 10.0.0.1:1-10.0.0.2:80/tcp new 2 steps 73 after 1,0\n\
    call 3 seat 0 remove 10.0.0.1:1-10.0.0.2:80/tcp gone 2 steps 81 after 1,1\n\
    call 4 seat 1 lookup 10.0.0.1:1-10.0.0.2:80/tcp absent steps 8 after 2,1\n\
    call 5 seat 0 insert 10.0.0.1:1-10.0.0.2:80/tcp new 5 steps 81 after 2,2\n\
    call 6 seat 1 lookup 10.0.0.1:1-10.0.0.2:80/tcp found 5 steps 15 after 3,2\n\
    order 1 2 3 4 5 6\n\
    session 10.0.0.1:1-10.0.0.2:80/tcp 5 bytes 0\n\
    leaves 2 depth 1\n\
    input done rest 0\n\
    count packets 6 calls 6 passed 0 full 0 pending 0 unbegun 0\n\
    steps update 81 bound 1041 lookup 15\n";

/// Runs two callers whose six calls the gate holds to an order. No call waits in vain, and the answers are these. What
/// was put is in the sink.
fn follow<R: Threads + Abort + Sync>(
    rt: &R,
    alloc: Global,
    line: &str,
    order: Order,
    digits: u64,
) -> Result<MemorySink, Fail> {
    let follower = Follower {
        order,
        told: AtomicU64::new(0),
        digits: AtomicU64::new(0),
        missed: AtomicU64::new(0),
    };
    let file = file_of(alloc, &SIX_PACKETS)?;
    let mut source = MemorySource::new(alloc, &file, 1000, &[])?;
    let mut sink = MemorySink::new(alloc, 2000, &[])?;
    let words = words_of(alloc, line)?;
    let status = run(
        rt,
        alloc,
        &words,
        &mut source,
        &mut sink,
        &follower,
        &mut None,
    );
    assert!(rt; status == Status::Done, "{line}");
    assert_eq!(rt; follower.missed.load(Ordering::SeqCst), 0, "{line}");
    assert_eq!(rt; follower.digits.load(Ordering::SeqCst), digits, "{line}");
    Ok(sink)
}

/// Six packets of one flow.
const SIX_PACKETS: [Part; 7] = [
    Part::Bytes(&HEAD),
    Part::Ack(1),
    Part::Syn(1),
    Part::Fin(1),
    Part::Ack(1),
    Part::Syn(1),
    Part::Ack(1),
];

/// Two callers make six calls in an order that the gate holds them to, each told before the next begins. That order is
/// printed, with the replies of one caller who makes them so, and nothing else.
#[test]
fn callers_follow_gate(rt: HostRuntime) -> Result<(), Fail> {
    let line = "serve --seats 2 --items 2 --depth 1 --start 1 --hash ports --share round";
    let crossed = [(1, 1), (0, 1), (1, 2), (0, 2), (1, 3), (0, 3)];
    let straight = [(0, 1), (1, 1), (0, 2), (1, 2), (0, 3), (1, 3)];
    for (order, digits, text) in [(crossed, 22_200, ONE_WAY), (straight, 2_005, OTHER_WAY)] {
        let sink = follow(&rt, rt.alloc(), line, order, digits)?;
        assert_eq!(rt; sink.bytes(), text.as_bytes(), "{digits}");
    }
    Ok(())
}

/// The trial of six packets, worked from the definition of the made capture by a program apart: the calls insert a flow
/// of seat 0 and one of seat 1, insert the latter again, look for a third, find the first, and remove a fourth.
const SIX_TRIED: &str = "\
    flowdir trial number 10842 packets 6 seats 2 items 8 depth 10 start 0 seed 0\n\
    calls 6 new 2 old 1 noroom 0 gone 0 found 1 absent 2 full 0\n\
    sessions 2\n";

/// So do two callers of a trial, in the order of the packets and where one caller makes all its calls before the other.
#[test]
fn callers_of_a_trial_follow_gate(rt: HostRuntime) -> Result<(), Fail> {
    let rows = [
        ([(0, 1), (1, 1), (1, 2), (0, 2), (0, 3), (0, 4)], 2_010),
        ([(1, 1), (1, 2), (0, 1), (0, 2), (0, 3), (0, 4)], 20_010),
    ];
    for (order, digits) in rows {
        let line = "trial --number 10842 --packets 6 --seats 2";
        let sink = follow(&rt, rt.alloc(), line, order, digits)?;
        assert_eq!(rt; sink.bytes(), SIX_TRIED.as_bytes(), "{digits}");
    }
    Ok(())
}

/// The report of four SYNs of one flow, where the gate lets packet 2 pass first, then 1, 4 and 3. The first add finds
/// that the other seat has announced nothing, and takes 2 + 3 + 1 + (1 + 11 + 2 + 3 + 11 + 1) + 1 = 36 steps; each
/// other one finds an op, whose row has three words more.
const FOUR_ADDED: &str = "\
    flowdir totals seats 2\n\
    add 1 seat 0 tcp 54 count 2 steps 39 after 0,1\n\
    add 2 seat 1 tcp 54 count 1 steps 36 after 0,0\n\
    add 3 seat 0 tcp 54 count 4 steps 39 after 1,2\n\
    add 4 seat 1 tcp 54 count 3 steps 39 after 1,1\n\
    order 2 1 4 3\n\
    total tcp 4 216\n\
    total udp 0 0\n\
    total passed 0 0\n\
    input done rest 0\n\
    steps add 39 bound 83\n";

/// Two adders follow the gate too. Each had seen the adds that were told before it, the gate was told the counts in its
/// order, and the printed order is the gate's. No clause says that the seats add on the shared words, or what the gate
/// is told.
#[test]
fn adders_follow_gate(rt: HostRuntime) -> Result<(), Fail> {
    let follower = Follower {
        order: [(1, 1), (0, 1), (1, 2), (0, 2), (0, 0), (0, 0)],
        told: AtomicU64::new(0),
        digits: AtomicU64::new(0),
        missed: AtomicU64::new(0),
    };
    let mut parts = [Part::Syn(1); 5];
    parts[0] = Part::Bytes(&HEAD);
    let file = file_of(rt.alloc(), &parts)?;
    let mut source = MemorySource::new(rt.alloc(), &file, 1000, &[])?;
    let mut sink = MemorySink::new(rt.alloc(), 2000, &[])?;
    let words = words_of(rt.alloc(), "totals --seats 2")?;
    let status = run(
        &rt,
        rt.alloc(),
        &words,
        &mut source,
        &mut sink,
        &follower,
        &mut None,
    );
    assert!(rt; status == Status::Done);
    assert_eq!(rt; follower.missed.load(Ordering::SeqCst), 0);
    assert_eq!(rt; follower.digits.load(Ordering::SeqCst), 1234);
    assert_eq!(rt; sink.bytes(), FOUR_ADDED.as_bytes());
    Ok(())
}
