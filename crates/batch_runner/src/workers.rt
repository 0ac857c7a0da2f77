//! The seats of a table make the calls that are dealt to them.

ghost use Rattle.std.specs.Prelude.{◌≡◌, ℕ, ◌≤◌, [], All, IfOk, List, map, vec_capacity, vec_len};
ghost use Rattle.std.specs.List.{AllZip};
ghost use Rattle.plain_map.specs.declared.calls.Call.{Call as ACall};
ghost use Rattle.shared_table.specs.Values.{new_seat, new_seats};
ghost use Rattle.trace_share.specs.declared.outcome.Outcome.{Outcome as AnOutcome};
ghost use Rattle.batch_runner.specs.Seats.{AreFresh, AreThrough, HasWorked, HaveMade, IsFresh, MayWork};

use edge_traits::Gate;
use plain_map::Call;
use shared_table::{Caller, Directory, Seat};
use std::alloc::{AllocError, Global};
use std::mem;
use trace_share::{Collector, WorksOn, make_calls};

/// A seat of a table, with the calls that it is to make, and what is kept of how they ended.
#[derive(Drop)]
pub struct SeatWorker<K> {
    /// `None` while it makes them.
    pub seat: Option<Seat>,
    /// Each with the packet that it came from.
    pub calls: Vec<(u32, Call)>,
    /// Takes one outcome for each call that is made, in order.
    pub kept: K,
}

impl<K: Collector> WorksOn<Directory> for SeatWorker<K> {
    ghost ready = { MayWork K.holds K.room };

    ghost done = { λ _ was now. HasWorked K.holds was now };

    // What is kept is taken out of the worker meanwhile: it is written at each call, and the worker that lies beside
    // this one would else lose that part of memory each time.
    fn work_on<G: Gate>(&mut self, on: &Directory, seat: u32, gate: &G) {
        let Some(own) = self.seat.take() else {
            unreachable!()
        };
        let none = K::empty(*self.calls.allocator());
        let mut kept = mem::replace(&mut self.kept, none);
        let mut caller = Caller::new(own, on);
        make_calls(&mut caller, self.calls.as_slice(), &mut kept, seat, gate);
        self.seat = Some(caller.into_seat());
        self.kept = kept;
    }
}

// A worker for each seat of this directory and its share, in the order of the seats.
pub(crate) fn workers_of<K: Collector>(
    alloc: Global,
    directory: &Directory,
    mut seats: Vec<Seat>,
    mut shares: Vec<Vec<(u32, Call)>>,
) -> Result<Vec<SeatWorker<K>>, AllocError>
    requires new { seats.items ≡ new_seats directory.now 0 (vec_len seats) }
    requires as_many { vec_len seats ≡ vec_len shares }
    ensures { IfOk result (λ workers.
        AreFresh K.holds K.room directory.now 0 (map (λ share. share.items) shares.items) workers.items) }
{
    let mut workers = Vec::with_capacity(alloc, seats.len())?;
    while let Some(seat) = seats.pop() {
        let Some(calls) = shares.pop() else {
            unreachable!()
        };
        let worker = worker_of(alloc, directory, seat, calls)?;
        workers.push(worker)?;
    }
    workers.reverse();
    Ok(workers)
}

// A worker for one seat of this directory.
fn worker_of<K: Collector>(
    alloc: Global,
    directory: &Directory,
    seat: Seat,
    calls: Vec<(u32, Call)>,
) -> Result<SeatWorker<K>, AllocError>
    requires new { seat ≡ new_seat directory.now seat.holding.seat }
    ensures { IfOk result (IsFresh K.holds K.room directory.now seat.holding.seat calls.items) }
{
    let kept = K::with_room(alloc, calls.len())?;
    Ok(SeatWorker {
        seat: Some(seat),
        calls,
        kept,
    })
}

// The seats of workers that are done, and what was kept, in the order of the seats.
pub(crate) fn take_apart<K: Collector>(
    directory: &Directory,
    mut workers: Vec<SeatWorker<K>>,
    seats: &mut Vec<Seat>,
    kept: &mut Vec<K>,
)
    requires seats { (seats.old.items ≡ []) × (vec_capacity seats.old ≡ vec_len workers) }
    requires kept { (kept.old.items ≡ []) × (vec_capacity kept.old ≡ vec_len workers) }
    requires through { (shares : List (List (ℕ × ACall))) × AreThrough K.holds directory.now 0 shares workers.items }
    ensures { (shares : List (List (ℕ × ACall))) → AreThrough K.holds directory.now 0 shares workers.items →
        (logs : List (List AnOutcome)) × HaveMade directory.now 0 shares seats.new.items logs
        × AllZip K.holds kept.new.items logs }
{
    while let Some(worker) = workers.pop() {
        let SeatWorker {
            seat,
            calls: _,
            kept: own,
        } = worker;
        let Some(seat) = seat else { unreachable!() };
        seats.push_reserved(seat);
        kept.push_reserved(own);
    }
    seats.reverse();
    kept.reverse();
}
