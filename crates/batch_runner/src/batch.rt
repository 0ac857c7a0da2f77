//! One batch.

ghost use Rattle.std.specs.Prelude.{◌≡◌, ◌^◌, ◌<◌, ◌≤◌, All, IfOk, List, length, map, vec_len};
ghost use Rattle.std.specs.List.{AllZip};
ghost use Rattle.std.specs.Option.{ForSome};
ghost use Rattle.plain_map.specs.Serving.{IsAskable};
ghost use Rattle.word_rows.specs.Shape.{AreBelow};
ghost use Rattle.table_model.specs.Setup.{settings_of};
ghost use Rattle.shared_table.specs.Values.{new_seats};
ghost use Rattle.trace_share.specs.declared.outcome.Outcome.{Outcome as AnOutcome};
ghost use Rattle.trace_share.specs.Work.{IsLogOf, room_in};
ghost use Rattle.batch_rows.specs.Demands.{IsDemandOf};
ghost use Rattle.batch_rows.specs.Depths.{IsTableFor};
ghost use Rattle.batch_rows.specs.declared.rows.TheConstants.{CALL_LIMIT};
ghost use Rattle.batch_deals.specs.Opens.{CanOpen, rules_of};
ghost use Rattle.batch_runner.specs.Served.{IsServed, Served, setup_in};
ghost use Rattle.batch_deals.specs.Dealt.{shares_of};
ghost use Rattle.batch_runner.specs.Opened.{IsOpened, IsWorked};
ghost use Rattle.batch_runner.specs.Seats.{MayWork};
ghost use Rattle.batch_runner.specs.Told.{CanGoOn, HasOutcomes, IsClosedBatch, IsToldBy};
ghost use Rattle.batch_runner.specs.Totals.{IsTotalOf, room_of};

use crate::outcomes::counts_of;
use crate::totals::{Totals, totals_in};
use crate::workers::{SeatWorker, take_apart, workers_of};
use crate::workspace::Workspace;
use batch_deals::Service;
use batch_rows::{Demand, sizes_for};
use plain_map::{Call, OpenFault, Pair};
use shared_table::{ClosedTable, Directory, Seat, order_laws};
use std::alloc::{AllocError, Global};
use trace_share::{Collector, Outcome};

/// What a batch is asked, and how it is served.
#[derive(Clone, Copy)]
pub struct Asked<'a> {
    pub service: &'a Service,
    /// The pairs that its table begins with.
    pub first: &'a [Pair],
    /// Each with the packet that it came from.
    pub calls: &'a [(u32, Call)],
}

/// A batch whose table is open.
#[derive(Drop)]
pub struct OpenBatch<K> {
    pub directory: Directory,
    /// One for each seat, seat 0 first, with the calls that are dealt to it.
    pub workers: Vec<SeatWorker<K>>,
}

/// What a batch came to.
#[derive(Drop)]
pub struct Batch {
    /// What its calls came to.
    pub totals: Totals,
    /// How many calls each seat has answered.
    pub answered: Vec<u32>,
    /// The pairs that are left, in the order of their keys.
    pub pairs: Vec<Pair>,
    /// How many leaves the closed table has.
    pub leaves: u64,
    /// The depth of its directory.
    pub depth: u32,
}

/// Opens a table with the pairs of a batch whose calls are dealt already, and of which it is told what they ask of the
/// table. The shares are those of the seats, seat 0 first. The only error is want of memory.
///
/// Then the workers may work on the table, each in a thread of its own, as `trace_share::serve_on` lets them.
pub fn open_batch<K: Collector>(
    alloc: Global,
    asked: &Asked,
    workspace: &mut Workspace,
    shares: Vec<Vec<(u32, Call)>>,
    demand: &Demand,
) -> Result<OpenBatch<K>, AllocError>
    requires given { ForSome asked.now.service.now.rows (AreBelow (2 ^ 32)) }
    requires few { length asked.now.calls.now < CALL_LIMIT }
    requires askable { All (λ call. IsAskable call.1) asked.now.calls.now }
    requires opens { CanOpen (rules_of asked.now.service.now) asked.now.first.now }
    requires shares { map (λ share. share.items) shares.items
        ≡ shares_of asked.now.service.now asked.now.calls.now }
    requires demand { IsDemandOf asked.now.calls.now (shares_of asked.now.service.now asked.now.calls.now)
        demand.now }
    ensures few { IfOk result (λ begun. vec_len begun.workers ≤ 8) }
    ensures ready { IfOk result (λ begun. All (MayWork K.holds K.room begun.directory) begun.workers.items) }
    ensures opened { IfOk result (λ begun. IsOpened K.holds K.room asked.now.service.now asked.now.first.now
        asked.now.calls.now begun.directory begun.workers.items) }
{
    let Asked {
        service,
        first,
        calls,
    } = *asked;
    let (directory, seats) = opened(alloc, service, workspace, first, calls, demand)?;
    let workers = workers_of(alloc, &directory, seats, shares)?;
    Ok(OpenBatch { directory, workers })
}

/// Closes the table of a batch whose workers have made their calls and kept a log of them. Gives the closed table, the
/// logs, seat 0 first, and what the batch came to. The only error is want of memory. What is left can open the next
/// batch.
pub fn close_logged(
    alloc: Global,
    asked: &Asked,
    begun: OpenBatch<Vec<Outcome>>,
) -> Result<(ClosedTable, Vec<Vec<Outcome>>, Batch), AllocError>
    requires few { length asked.now.calls.now < CALL_LIMIT }
    requires worked { IsWorked IsLogOf room_in asked.now.service.now asked.now.first.now asked.now.calls.now
        begun.directory begun.workers.items }
    ensures closed { IfOk result (λ done. IsClosedBatch asked.now.service.now asked.now.first.now asked.now.calls.now
        done.0 (map (λ log. log.items) done.1.items)) }
    ensures told { IfOk result (λ done. HasOutcomes asked.now.service.now asked.now.first.now asked.now.calls.now
        (map (λ log. log.items) done.1.items) done.0 done.2) }
    ensures goes_on { IfOk result (λ done. CanGoOn asked.now.service.now asked.now.calls.now done.2) }
{
    let (closed, logs) = close_batch::<Vec<Outcome>>(alloc, asked, begun)?;
    let totals = totals_in(alloc, &logs)?;
    let batch = told(
        alloc,
        asked.service,
        asked.first,
        asked.calls,
        &closed,
        &totals,
    )?;
    Ok((closed, logs, batch))
}

/// Closes the table of a batch whose workers have made their calls and kept no more than what these came to, and tells
/// what the batch came to. The only error is want of memory. What is left can open the next batch.
pub fn close_counted(
    alloc: Global,
    asked: &Asked,
    workspace: &mut Workspace,
    begun: OpenBatch<Totals>,
) -> Result<Batch, AllocError>
    requires few { length asked.now.calls.now < CALL_LIMIT }
    requires worked { IsWorked IsTotalOf room_of asked.now.service.now asked.now.first.now asked.now.calls.now
        begun.directory begun.workers.items }
    ensures served { IfOk result (λ batch. (served : Served) × (served.first ≡ asked.now.first.now)
        × (served.calls ≡ asked.now.calls.now) × IsServed asked.now.service.now served
        × IsToldBy asked.now.service.now served batch) }
    ensures goes_on { IfOk result (CanGoOn asked.now.service.now asked.now.calls.now) }
{
    let (closed, totals) = close_batch::<Totals>(alloc, asked, begun)?;
    let batch = told(
        alloc,
        asked.service,
        asked.first,
        asked.calls,
        &closed,
        &totals,
    )?;
    workspace.blank.keep(closed);
    Ok(batch)
}

// Closes the table of a batch whose workers have made their calls; with what was kept of each
// seat's calls, in the order of the seats.
fn close_batch<K: Collector>(
    alloc: Global,
    asked: &Asked,
    begun: OpenBatch<K>,
) -> Result<(ClosedTable, Vec<K>), AllocError>
    requires worked { IsWorked K.holds K.room asked.now.service.now asked.now.first.now asked.now.calls.now
        begun.directory begun.workers.items }
    ensures { IfOk result (λ done. (logs : List (List AnOutcome)) × AllZip K.holds done.1.items logs
        × IsClosedBatch asked.now.service.now asked.now.first.now asked.now.calls.now done.0 logs) }
{
    let OpenBatch { directory, workers } = begun;
    let mut kept = Vec::with_capacity(alloc, workers.len())?;
    let mut seats = Vec::with_capacity(alloc, workers.len())?;
    take_apart(&directory, workers, &mut seats, &mut kept);
    let closed = directory.close_in_place(seats);
    order_laws();
    Ok((closed, kept))
}

// What a batch came to whose table is closed, of which the totals of each seat's calls are told: there are outcomes of
// it in packet order, and whatever these are, it is told of them.
fn told(
    alloc: Global,
    service: &Service,
    first: &[Pair],
    calls: &[(u32, Call)],
    closed: &ClosedTable,
    each: &[Totals],
) -> Result<Batch, AllocError>
    requires few { length calls.now < CALL_LIMIT }
    requires closed { (logs : List (List AnOutcome)) × AllZip IsTotalOf each.now logs
        × IsClosedBatch service.now first.now calls.now closed.now logs }
    ensures told { IfOk result (λ batch. (logs : List (List AnOutcome)) → AllZip IsTotalOf each.now logs →
        IsClosedBatch service.now first.now calls.now closed.now logs →
        HasOutcomes service.now first.now calls.now logs closed.now batch) }
{
    Ok(Batch {
        totals: Totals::sum(each),
        answered: counts_of(alloc, each)?,
        pairs: closed.pairs(alloc)?,
        leaves: closed.leaves(alloc)?.len() as u64,
        depth: closed.depth() as u32,
    })
}

// The table of a batch of these calls, of which it is told what they ask, and its seats in order.
fn opened(
    alloc: Global,
    service: &Service,
    workspace: &mut Workspace,
    first: &[Pair],
    calls: &[(u32, Call)],
    demand: &Demand,
) -> Result<(Directory, Vec<Seat>), AllocError>
    requires given { ForSome service.now.rows (AreBelow (2 ^ 32)) }
    requires few { length calls.now < CALL_LIMIT }
    requires opens { CanOpen (rules_of service.now) first.now }
    requires demand { IsDemandOf calls.now (shares_of service.now calls.now) demand.now }
    ensures table { IfOk result (λ made. IsTableFor service.now.settings service.now.hashing service.now.rows
        first.now calls.now (settings_of made.0.setup)) }
    ensures setup { IfOk result (λ made.
        made.0.setup ≡ setup_in service.now (settings_of made.0.setup) first.now calls.now) }
    ensures seats { IfOk result (λ made. made.1.items ≡ new_seats made.0 0 service.now.settings.seats) }
{
    let sizes = sizes_for(
        alloc,
        &service.settings,
        service.hashing,
        service.rows,
        first,
        demand,
    )?;
    match Directory::open_in(
        alloc,
        &mut workspace.blank,
        &sizes.settings,
        service.hashing,
        &sizes.rows,
        first,
    ) {
        Ok(made) => Ok(made),
        Err(OpenFault::Memory) => Err(AllocError),
        Err(OpenFault::NoRoom { .. }) => unreachable!(),
    }
}
