//! The workers of a table: they are made ready for the packets that are dealt to them, and are taken apart.

ghost use Rattle.std.specs.Prelude.{◌≡◌, List, [], IfOk, length, map, vec_capacity, vec_len};
ghost use Rattle.packet_adders.specs.declared.frames.Frame.{Frame as AFrame};
ghost use Rattle.sim_steps.specs.Layout.{seats_of};
ghost use Rattle.sim_totals.specs.Values.{AdderValue, Ran, fresh, fresh_from};
ghost use Rattle.totals_runner.specs.Seats.{AreFresh, AreThrough, HaveAdded, IsFresh};

use packet_adders::{AddWorker, Frame};
use sim_totals::{Added, Adder, ClosedTotals, TotalsTable};
use std::alloc::{AllocError, Global};

/// Takes apart the workers of a table, which are through, and closes it. What each was answered comes back, in the
/// order of the seats. The only error is want of memory.
pub(crate) fn end_table(
    alloc: Global,
    table: TotalsTable,
    workers: Vec<AddWorker>,
) -> Result<(Vec<Vec<Added>>, ClosedTotals), AllocError>
    requires { (shares : List (List AFrame)) × AreThrough table 0 shares workers.items
        × (length shares ≡ seats_of table.settings) }
    ensures { IfOk result (λ ended. (shares : List (List AFrame)) → AreThrough table 0 shares workers.items →
        (adders : List AdderValue) × HaveAdded table 0 shares adders (map (λ log. log.items) ended.0.items)
        × Ran table.settings ended.1.totals ended.1.order.items adders) }
{
    let mut adders = Vec::with_capacity(alloc, workers.len())?;
    let mut logs = Vec::with_capacity(alloc, workers.len())?;
    take_apart(&table, workers, &mut adders, &mut logs);
    match table.close(alloc, adders) {
        Ok(closed) => Ok((logs, closed)),
        Err((failed, _, _)) => Err(failed),
    }
}

/// A worker for each adder and its share, in the order of the seats. The only error is want of memory.
pub(crate) fn workers_of(
    alloc: Global,
    table: &TotalsTable,
    mut adders: Vec<Adder>,
    mut shares: Vec<Vec<Frame>>,
) -> Result<Vec<AddWorker>, AllocError>
    requires new { adders.items ≡ fresh_from table.now 0 (vec_len adders) }
    requires as_many { vec_len adders ≡ vec_len shares }
    ensures { IfOk result (λ workers.
        AreFresh table.now 0 (map (λ share. share.items) shares.items) workers.items) }
{
    let mut workers = Vec::with_capacity(alloc, adders.len())?;
    while let Some(adder) = adders.pop() {
        let Some(frames) = shares.pop() else {
            unreachable!()
        };
        let worker = worker_of(alloc, table, adder, frames)?;
        workers.push(worker)?;
    }
    workers.reverse();
    Ok(workers)
}

// A worker for one adder.
fn worker_of(
    alloc: Global,
    table: &TotalsTable,
    adder: Adder,
    frames: Vec<Frame>,
) -> Result<AddWorker, AllocError>
    requires new { adder ≡ fresh table.now adder.number }
    ensures { IfOk result (IsFresh table.now adder.number frames.items) }
{
    match AddWorker::new(alloc, adder, frames) {
        Ok(worker) => Ok(worker),
        Err((failed, _)) => Err(failed),
    }
}

// The adders of workers that are through, and what they were answered, in the order of the seats.
fn take_apart(
    table: &TotalsTable,
    mut workers: Vec<AddWorker>,
    adders: &mut Vec<Adder>,
    logs: &mut Vec<Vec<Added>>,
)
    requires adders { (adders.old.items ≡ []) × (vec_capacity adders.old ≡ vec_len workers) }
    requires logs { (logs.old.items ≡ []) × (vec_capacity logs.old ≡ vec_len workers) }
    ensures { (shares : List (List AFrame)) → AreThrough table.now 0 shares workers.items →
        HaveAdded table.now 0 shares adders.new.items (map (λ log. log.items) logs.new.items) }
{
    while let Some(worker) = workers.pop() {
        let AddWorker {
            adder,
            frames: _,
            log,
        } = worker;
        adders.push_reserved(adder);
        logs.push_reserved(log);
    }
    adders.reverse();
    logs.reverse();
}
