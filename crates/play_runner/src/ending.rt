//! What a play comes to where it has ended.

ghost use Rattle.std.specs.Prelude.{◌≡◌, IfOk, IsPermutation, List, map};
ghost use Rattle.std.specs.List.Sorted.{IsSortedByKey};
ghost use Rattle.std.specs.Ordering.{nat_cmp};
ghost use Rattle.plain_map.specs.History.{ids_of};
ghost use Rattle.trace_share.specs.Outcomes.{asked_in};
ghost use Rattle.word_rows.specs.LayoutView.{shape_of};
ghost use Rattle.table_model.specs.Order.{order_of};
ghost use Rattle.table_model.specs.Schedules.{Hand, unbegun_in};
ghost use Rattle.table_model.specs.Closing.{IsOfARun, closing_with, read_in, records_there};
ghost use Rattle.play_runner.specs.Played.{IsPlayed, packet_in};
ghost use Rattle.play_runner.specs.Told.{AreTold, play_with};

use crate::values::Played;
use closed_words::Starts;
use core_steps::{CoreEnd, CoreWorld};
use history_order::{Tables, order};
use plain_map::{CallId, Record};
use std::alloc::{AllocError, Global};
use trace_share::Outcome;

// The packet of a call that ended.
fn packet_of(outcome: &Outcome) -> u32
    ensures { result ≡ (asked_in outcome.now).0 }
{
    match outcome {
        Outcome::Answered(record) => record.packet,
        Outcome::Refused { packet, .. } => *packet,
    }
}

// These calls, in the order of their packets.
fn by_packet(outcomes: Vec<(u32, Outcome)>) -> Result<Vec<(u32, Outcome)>, AllocError>
    ensures same { IfOk result (λ sorted. IsPermutation outcomes.items sorted.items) }
    ensures in_order { IfOk result (λ sorted. IsSortedByKey packet_in nat_cmp sorted.items) }
{
    let mut sorted = outcomes;
    sorted.sort_by_key(|ended| packet_of(&ended.1))?;
    Ok(sorted)
}

// The records of a seat, where they stand.
fn records_of<'a>(alloc: Global, log: &'a [Record]) -> Result<Vec<&'a Record>, AllocError>
    ensures { IfOk result (λ records. records_there records.items ≡ log.now) }
{
    let mut records = Vec::with_capacity(alloc, log.len())?;
    for record in log {
        records.push(record)?;
    }
    Ok(records)
}

// The records of each seat, where they stand.
fn records_in<'a>(
    alloc: Global,
    logs: &'a [Vec<Record>],
) -> Result<Vec<Vec<&'a Record>>, AllocError>
    ensures { IfOk result (λ records. read_in records.items ≡ map (λ log. log.items) logs.now) }
{
    let mut records = Vec::with_capacity(alloc, logs.len())?;
    for log in logs {
        records.push(records_of(alloc, log)?)?;
    }
    Ok(records)
}

/// The names of the calls that the core left in their one order. The only error is want of memory.
pub(crate) fn order_left(alloc: Global, left: &CoreEnd) -> Result<Vec<CallId>, AllocError>
    requires { IsOfARun (shape_of left.now.rows.layout) left.now.rows.words.items
        (map (λ log. log.items) left.now.logs.items) left.now.begun.items }
    ensures { IfOk result (λ order. order.items ≡ ids_of (order_of (shape_of left.now.rows.layout)
        (closing_with left.now.rows.words.items (map (λ log. log.items) left.now.logs.items)
        left.now.begun.items))) }
{
    let records = records_in(alloc, &left.logs)?;
    let starts = Starts::new(&left.rows.layout);
    let mut tables = Tables::new(alloc);
    order(
        alloc,
        &mut tables,
        &starts,
        &left.rows,
        &records,
        &left.begun,
    )
}

/// What a play comes to whose calls ended so. The only error is want of memory.
pub(crate) fn ended(
    alloc: Global,
    core: CoreWorld,
    outcomes: Vec<(u32, Outcome)>,
    unbegun: u64,
) -> Result<Played, AllocError>
    requires { AreTold core outcomes.items }
    ensures { (hands : List Hand) → unbegun ≡ unbegun_in (play_with core hands) →
        IfOk result (IsPlayed core.setup (play_with core hands)) }
{
    core.moment();
    let left = match core.finish(alloc) {
        Ok(left) => left,
        Err((failed, _)) => return Err(failed),
    };
    let order = order_left(alloc, &left)?;
    let outcomes = by_packet(outcomes)?;
    let CoreEnd {
        begun,
        pairs,
        leaves,
        depth,
        ..
    } = left;
    Ok(Played {
        outcomes,
        pending: begun,
        order,
        pairs,
        leaves: leaves.len(),
        depth,
        unbegun,
    })
}
