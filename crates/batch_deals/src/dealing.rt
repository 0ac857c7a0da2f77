//! The calls of a batch, before they are served.

ghost use Rattle.std.specs.Prelude.{◌<◌, IfOk, length};
ghost use Rattle.batch_rows.specs.declared.rows.TheConstants.{CALL_LIMIT};
ghost use Rattle.batch_deals.specs.Dealt.{IsDealt};

use crate::service::Service;
use batch_rows::{Demand, demand_of};
use plain_map::Call;
use std::alloc::{AllocError, Global};
use trace_share::deal;

/// The calls of a batch, dealt to the seats.
#[derive(Drop)]
pub struct Dealt {
    /// The calls of each seat, seat 0 first, each seat's in their order.
    pub shares: Vec<Vec<(u32, Call)>>,
    /// What they ask of the batch's table.
    pub demand: Demand,
}

/// Deals the calls of a batch to the seats, and tells what they ask of its table: so whoever serves them need not go
/// through them before. The only error is want of memory.
pub fn deal_batch(
    alloc: Global,
    service: &Service,
    calls: &[(u32, Call)],
) -> Result<Dealt, AllocError>
    requires few { length calls.now < CALL_LIMIT }
    ensures { IfOk result (IsDealt service.now calls.now) }
{
    let shares = deal(alloc, service.share, service.settings.seats, calls)?;
    let demand = demand_of(alloc, calls, &shares)?;
    Ok(Dealt { shares, demand })
}
