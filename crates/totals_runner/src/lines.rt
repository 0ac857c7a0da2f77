//! The lines of a batch.

ghost use Rattle.std.specs.Prelude.{◌≡◌, ◌++◌, ◌≤◌, ℕ, List, All, IfOk, OnOk, flat_map, fold, length, map, max, slice_index_or};
ghost use Rattle.plain_map.specs.declared.records.CallId.{CallId as ACallId};
ghost use Rattle.sim_steps.specs.declared.adds.Added.{Added as AnAdded};
ghost use Rattle.totals_runner.specs.Adds.{add_line, added_on};
ghost use Rattle.totals_runner.specs.Batch.{AreInTurn, IsEntry, id_in};

use crate::adds::add_text;
use plain_map::{CallId, MOST_SEATS};
use report_text::Line;
use sim_totals::Added;
use std::alloc::{AllocError, Global};

/// Appends the lines of so many adds in packet order, before which the seats had made so many: the answer of a packet
/// is the next one of its seat, and the first packet is that of the seat `first` modulo the seats. Answers the most
/// steps of one of them, or `most` where this is more. The only error is want of memory.
pub(crate) fn put_adds(
    text: &mut Vec<u8>,
    before: &[u32; MOST_SEATS],
    first: u32,
    count: u32,
    logs: &[Vec<Added>],
    most: u64,
) -> Result<u64, AllocError>
    requires some { 1 ≤ length logs.now }
    requires few { length logs.now ≤ 8 }
    requires turns { (answers : List AnAdded) × (length answers ≡ count)
        × AreInTurn (length logs.now) first (map (λ log. log.items) logs.now) answers }
    ensures { IfOk result (λ steps. (answers : List AnAdded) → length answers ≡ count →
        AreInTurn (length logs.now) first (map (λ log. log.items) logs.now) answers →
        (text.new.items ≡ text.old.items
        ++ flat_map (λ a. add_line (length logs.now) (added_on before.now a)) answers)
        × (steps ≡ fold (λ so_far a. max so_far a.steps) most answers)) }
{
    let seats = logs.len();
    let mut line = Line::new();
    let mut steps = most;
    let mut taken = [0usize; MOST_SEATS];
    for place in 0..count {
        let seat = (first as usize + place as usize) % seats;
        let added = &logs[seat][taken[seat]];
        add_text(text, &mut line, seats as u32, before, added)?;
        steps = steps.max(added.steps);
        taken[seat] += 1;
    }
    Ok(steps)
}

/// The adds of an order by their seats, their numbers and their packets. The only error is want of memory.
pub(crate) fn ids_of(
    alloc: Global,
    logs: &[Vec<Added>],
    order: &[(u32, u32)],
) -> Result<Vec<CallId>, AllocError>
    requires { All (IsEntry (map (λ log. log.items) logs.now)) order.now }
    ensures { IfOk result (λ ids. ids.items ≡ map (id_in (map (λ log. log.items) logs.now)) order.now) }
{
    let mut ids = Vec::with_capacity(alloc, order.len())?;
    for entry in order {
        ids.push(id_of(logs, *entry))?;
    }
    Ok(ids)
}

// An add by its seat and its number, with its packet.
fn id_of(logs: &[Vec<Added>], entry: (u32, u32)) -> CallId
    requires { IsEntry (map (λ log. log.items) logs.now) entry }
    ensures { result ≡ id_in (map (λ log. log.items) logs.now) entry }
{
    let (seat, number) = entry;
    CallId {
        seat,
        number,
        packet: logs[seat as usize][number as usize - 1].add.packet,
    }
}
