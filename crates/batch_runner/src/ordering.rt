//! The one order of the calls of a batch.

ghost use Rattle.std.specs.Prelude.{◌≡◌, [], IfOk, map};
ghost use Rattle.plain_map.specs.History.{ids_of};
ghost use Rattle.table_model.specs.Order.{order_of};
ghost use Rattle.table_model.specs.Closing.{IsOfARun, closing_with};
ghost use Rattle.trace_share.specs.Outcomes.{records_in};

use crate::outcomes::records_of;
use closed_words::Starts;
use history_order::{Tables, order};
use plain_map::CallId;
use shared_table::ClosedTable;
use std::alloc::{AllocError, Global};
use trace_share::Outcome;

/// The names of the answered calls of these logs in their one order. The only error is want of memory.
pub(crate) fn order_in(
    alloc: Global,
    tables: &mut Tables,
    closed: &ClosedTable,
    logs: &[Vec<Outcome>],
) -> Result<Vec<CallId>, AllocError>
    requires { IsOfARun closed.now.shape closed.now.words (map records_in (map (λ log. log.items) logs.now)) [] }
    ensures { IfOk result (λ order. order.items ≡ ids_of (order_of closed.now.shape
        (closing_with closed.now.words (map records_in (map (λ log. log.items) logs.now)) []))) }
{
    let records = records_of(alloc, logs)?;
    let starts = Starts::new(closed.layout());
    order(alloc, tables, &starts, closed, &records, &[])
}
