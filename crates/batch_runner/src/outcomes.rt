//! What the calls of all seats came to, put together.

ghost use Rattle.std.specs.Prelude.{◌≡◌, ◌^◌, ◌<◌, ◌≤◌, All, IfOk, List, length, map};
ghost use Rattle.std.specs.List.{AllZip};
ghost use Rattle.table_model.specs.Closing.{read_in, records_there};
ghost use Rattle.trace_share.specs.declared.outcome.Outcome.{Outcome as AnOutcome};
ghost use Rattle.trace_share.specs.Deal.{dealt};
ghost use Rattle.trace_share.specs.Outcomes.{asked_in, records_in};
ghost use Rattle.batch_runner.specs.Served.{AreInPacketOrder};
ghost use Rattle.batch_runner.specs.Told.{read_there};
ghost use Rattle.batch_runner.specs.Totals.{IsTotalOf};

use crate::totals::Totals;
use plain_map::{Call, MOST_SEATS, Record};
use std::alloc::{AllocError, Global};
use trace_share::{Outcome, Share, seat_for};

/// All outcomes in the order of the calls, where they stand in the logs, each with its seat: that of a call is the next
/// one of the seat that it is dealt to.
pub(crate) fn outcomes_of<'a>(
    alloc: Global,
    share: Share,
    seats: u32,
    calls: &[(u32, Call)],
    logs: &'a [Vec<Outcome>],
) -> Result<Vec<(u32, &'a Outcome)>, AllocError>
    requires some { 1 ≤ seats }
    requires few { seats ≤ 8 }
    requires logs { map (map asked_in) (map (λ log. log.items) logs.now) ≡ dealt share seats calls.now }
    ensures { IfOk result (λ outcomes.
        AreInPacketOrder calls.now (map (λ log. log.items) logs.now) (read_there outcomes.items)) }
{
    let mut taken = [0usize; MOST_SEATS];
    let mut outcomes = Vec::with_capacity(alloc, calls.len())?;
    for (place, call) in calls.iter().enumerate() {
        let seat = seat_for(share, seats, calls.len(), place, call);
        let outcome = &logs[seat as usize][taken[seat as usize]];
        taken[seat as usize] += 1;
        outcomes.push((seat, outcome))?;
    }
    Ok(outcomes)
}

/// The records of those of each log that were answered, where they stand.
pub(crate) fn records_of<'a>(
    alloc: Global,
    logs: &'a [Vec<Outcome>],
) -> Result<Vec<Vec<&'a Record>>, AllocError>
    ensures { IfOk result (λ records. read_in records.items ≡ map records_in (map (λ log. log.items) logs.now)) }
{
    let mut records = Vec::with_capacity(alloc, logs.len())?;
    for log in logs {
        records.push(answered_in(alloc, log)?)?;
    }
    Ok(records)
}

// The records of those that were answered.
fn answered_in<'a>(alloc: Global, log: &'a [Outcome]) -> Result<Vec<&'a Record>, AllocError>
    ensures { IfOk result (λ records. records_there records.items ≡ records_in log.now) }
{
    let mut records = Vec::with_capacity(alloc, log.len())?;
    for outcome in log {
        if let Outcome::Answered(made) = outcome {
            records.push(made)?;
        }
    }
    Ok(records)
}

/// How many calls of each seat were answered.
pub(crate) fn counts_of(alloc: Global, each: &[Totals]) -> Result<Vec<u32>, AllocError>
    requires few { (logs : List (List AnOutcome)) × AllZip IsTotalOf each.now logs
        × All (λ log. length log < 2 ^ 32) logs }
    ensures { IfOk result (λ counts. (logs : List (List AnOutcome)) → AllZip IsTotalOf each.now logs →
        counts.items ≡ map (λ log. length (records_in log)) logs) }
{
    let mut counts = Vec::with_capacity(alloc, each.len())?;
    for totals in each {
        counts.push((totals.calls - totals.refused) as u32)?;
    }
    Ok(counts)
}
