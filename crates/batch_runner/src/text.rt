//! The lines of a batch.

ghost use Rattle.std.specs.Prelude.{◌≡◌, ℕ, ◌≤◌, [], ◌++◌, All, IfOk, List, OnErr, OnOk, flat_map, map};
ghost use Rattle.plain_map.specs.Calls.{key_in};
ghost use Rattle.plain_map.specs.History.{ids_of};
ghost use Rattle.key_texts.specs.FlowText.{HasText};
ghost use Rattle.table_model.specs.Order.{order_of};
ghost use Rattle.table_model.specs.Closing.{IsOfARun, closing_with};
ghost use Rattle.trace_share.specs.Outcomes.{records_in};
ghost use Rattle.report_text.specs.Report.{call_in, order_lines, outcome_line};
ghost use Rattle.batch_runner.specs.Printed.{AreLines, CanBeTold, outcome_on};

use crate::ordering::order_in;
use crate::outcomes::outcomes_of;
use crate::workspace::Workspace;
use batch_deals::Service;
use history_order::Tables;
use plain_map::{Call, CallId, MOST_SEATS};
use report_text::{Line, order_text, outcome_text};
use shared_table::ClosedTable;
use std::alloc::{AllocError, Global};
use std::thread::{Threads, join_mut};
use trace_share::Outcome;

/// A batch that is closed, of which no line is written yet.
#[derive(Clone, Copy)]
pub struct Untold<'a> {
    pub service: &'a Service,
    /// Its calls, each with the packet that it came from.
    pub calls: &'a [(u32, Call)],
    /// How many calls each seat had answered before.
    pub before: &'a [u32; MOST_SEATS],
    pub closed: &'a ClosedTable,
    /// What each seat's calls came to, seat 0 first.
    pub logs: &'a [Vec<Outcome>],
}

/// Appends the lines of the calls of a batch, and of their one order.
///
/// Where there are several seats, the lines of the calls are written in a thread of their own while the order is made;
/// where no thread can be made, the caller's does both. The only error is want of memory, after which the text is what
/// it was.
pub fn lines_text<R: Threads>(
    rt: &R,
    alloc: Global,
    workspace: &mut Workspace,
    untold: &Untold,
    out: &mut Vec<u8>,
) -> Result<(), AllocError>
    requires { CanBeTold untold.now.service.now untold.now.calls.now untold.now.closed.now
        (map (λ log. log.items) untold.now.logs.now) }
    ensures told { OnOk result ((lines : List ℕ) × AreLines untold.now.service.now untold.now.before.now
        untold.now.calls.now untold.now.closed.now (map (λ log. log.items) untold.now.logs.now) lines
        × (out.new.items ≡ out.old.items ++ lines)) }
    ensures kept { OnErr result (out.new.items ≡ out.old.items) }
{
    let Untold {
        service,
        calls,
        before,
        closed,
        logs,
    } = *untold;
    let seats = service.settings.seats;
    let outcomes = outcomes_of(alloc, service.share, seats, calls, logs)?;
    let start = out.len();
    let printed = Printed {
        closed,
        logs,
        seats,
        before,
        outcomes: &outcomes,
    };
    if let Err(failed) = put_lines(rt, alloc, &mut workspace.tables, &printed, out) {
        out.truncate(start);
        return Err(failed);
    }
    Ok(())
}

// What the lines of a batch are written from.
#[derive(Clone, Copy)]
struct Printed<'a> {
    pub closed: &'a ClosedTable,
    /// What each seat's calls came to, seat 0 first.
    pub logs: &'a [Vec<Outcome>],
    /// How many seats there are.
    pub seats: u32,
    /// How many calls each seat had answered before.
    pub before: &'a [u32; MOST_SEATS],
    /// In the order of the packets, each with its seat.
    pub outcomes: &'a [(u32, &'a Outcome)],
}

// Appends the lines of the calls, and of the order of the logs. After want of memory some may stand there.
//
// Where there are several seats, a thread of its own writes the lines of the calls while this one makes the order. It
// asks for memory only where the text has no room left. For one seat a second thread costs more than it saves.
fn put_lines<R: Threads>(
    rt: &R,
    alloc: Global,
    tables: &mut Tables,
    printed: &Printed,
    out: &mut Vec<u8>,
) -> Result<(), AllocError>
    requires run { IsOfARun printed.now.closed.now.shape printed.now.closed.now.words
        (map records_in (map (λ log. log.items) printed.now.logs.now)) [] }
    requires seats { printed.now.seats ≤ 8 }
    requires texts { All (λ o. HasText (key_in (call_in o.1.now))) printed.now.outcomes.now }
    ensures appended { OnOk result (out.new.items ≡ out.old.items
        ++ (flat_map (λ o. outcome_line printed.now.seats o.0 (outcome_on printed.now.before.now o.1.now))
        printed.now.outcomes.now
        ++ order_lines (ids_of (order_of printed.now.closed.now.shape
        (closing_with printed.now.closed.now.words
        (map records_in (map (λ log. log.items) printed.now.logs.now)) []))))) }
    ensures begun { OnErr result ((lines : List ℕ) × (out.new.items ≡ out.old.items ++ lines)) }
{
    let Printed {
        closed,
        logs,
        seats,
        before,
        outcomes,
    } = *printed;
    let (written, ordered) = if seats == 1 {
        (
            outcomes_text(out, seats, before, outcomes),
            order_in(alloc, tables, closed, logs),
        )
    } else {
        join_mut(
            rt,
            &mut || -> Result<(), AllocError>
                requires { (seats ≤ 8) × All (λ o. HasText (key_in (call_in o.1.now))) outcomes.now }
                ensures appended { OnOk result (out.exit.now.items ≡ out.entry.now.items
                    ++ flat_map (λ o. outcome_line seats o.0 (outcome_on before.entry.now o.1.now))
                    outcomes.entry.now) }
                ensures begun { OnErr result ((lines : List ℕ)
                    × (out.exit.now.items ≡ out.entry.now.items ++ lines)) }
            { outcomes_text(out, seats, before, outcomes) },
            &mut || -> Result<Vec<CallId>, AllocError>
                requires { IsOfARun closed.now.shape closed.now.words
                    (map records_in (map (λ log. log.items) logs.now)) [] }
                ensures { IfOk result (λ order. order.items ≡ ids_of (order_of closed.entry.now.shape
                    (closing_with closed.entry.now.words
                    (map records_in (map (λ log. log.items) logs.entry.now)) []))) }
            { order_in(alloc, tables, closed, logs) },
        )
    };
    written?;
    order_text(out, &mut Line::new(), &ordered?)
}

// Appends the lines of the calls. After want of memory some may stand there.
fn outcomes_text(
    out: &mut Vec<u8>,
    seats: u32,
    before: &[u32; MOST_SEATS],
    outcomes: &[(u32, &Outcome)],
) -> Result<(), AllocError>
    requires seats { seats ≤ 8 }
    requires texts { All (λ o. HasText (key_in (call_in o.1.now))) outcomes.now }
    ensures appended { OnOk result (out.new.items ≡ out.old.items
        ++ flat_map (λ o. outcome_line seats o.0 (outcome_on before.now o.1.now)) outcomes.now) }
    ensures begun { OnErr result ((lines : List ℕ) × (out.new.items ≡ out.old.items ++ lines)) }
{
    let mut line = Line::new();
    for (seat, outcome) in outcomes {
        outcome_text(out, &mut line, seats, before, *seat, outcome)?;
    }
    Ok(())
}
