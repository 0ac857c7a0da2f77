//! What stopped seats leave, and what is told of each call.

ghost use Rattle.std.specs.Prelude.{◌≡◌, ◌==◌, find, option_map};
ghost use Rattle.plain_map.specs.History.{id_of, pending};
ghost use Rattle.table_model.specs.Closing.{read_in};
ghost use Rattle.history_order.specs.Calls.{call_at, record_at, seen_in};

use closed_words::Starts;
use plain_map::{CallId, Pending, Record, Seen};

/// A table that no seat works on any more, and what its seats were told.
#[derive(Drop)]
pub(crate) struct Closed<'a, W> {
    pub starts: &'a Starts,
    pub words: &'a W,
    /// By seat, the answered calls by number.
    pub logs: &'a [Vec<&'a Record>],
    /// The calls that had begun.
    pub begun: &'a [Pending],
}

// The record at this place of the seat's log.
fn record_at(logs: &[Vec<&Record>], seat: usize, at: usize) -> Option<Record>
    ensures { result ≡ record_at (read_in logs.now) seat at }
{
    if seat >= logs.len() {
        return None;
    }
    if at >= logs[seat].len() {
        return None;
    }
    Some(*logs[seat][at])
}

// The call that the seat had begun.
fn begun_by(begun: &[Pending], seat: usize) -> Option<Pending>
    ensures { result ≡ find (λ p. p.seat == seat) begun.now }
{
    for pending in begun {
        if pending.seat as usize == seat {
            return Some(*pending);
        }
    }
    None
}

/// The row of the lookup at this place of the seat's log.
pub(crate) fn place_at(logs: &[Vec<&Record>], seat: usize, at: usize) -> Option<u64>
    ensures { result ≡ option_map (λ r. r.place) (record_at (read_in logs.now) seat at) }
{
    match record_at(logs, seat, at) {
        Some(record) => Some(record.place),
        None => None,
    }
}

// The name of the call that the seat had begun.
fn id_of_begun(begun: &[Pending], seat: usize) -> Option<CallId>
    ensures { result ≡ option_map id_of (option_map pending (find (λ p. p.seat == seat) begun.now)) }
{
    match begun_by(begun, seat) {
        Some(pending) => Some(CallId {
            seat: pending.seat,
            number: pending.number,
            packet: pending.packet,
        }),
        None => None,
    }
}

/// The name of the seat's call at this place.
pub(crate) fn id_at(
    logs: &[Vec<&Record>],
    begun: &[Pending],
    seat: usize,
    at: usize,
) -> Option<CallId>
    ensures { result ≡ option_map id_of (call_at (read_in logs.now) begun.now seat at) }
{
    match record_at(logs, seat, at) {
        Some(record) => Some(CallId {
            seat: record.seat,
            number: record.number,
            packet: record.packet,
        }),
        None => id_of_begun(begun, seat),
    }
}

// What the caller of the call that the seat had begun had seen.
fn seen_by_begun(begun: &[Pending], seat: usize) -> Option<Seen>
    ensures { result ≡ option_map seen_in (option_map pending (find (λ p. p.seat == seat) begun.now)) }
{
    match begun_by(begun, seat) {
        Some(pending) => Some(pending.seen),
        None => None,
    }
}

/// What the caller of the seat's call at this place had seen.
pub(crate) fn seen_at(
    logs: &[Vec<&Record>],
    begun: &[Pending],
    seat: usize,
    at: usize,
) -> Option<Seen>
    ensures { result ≡ option_map seen_in (call_at (read_in logs.now) begun.now seat at) }
{
    match record_at(logs, seat, at) {
        Some(record) => Some(record.seen),
        None => seen_by_begun(begun, seat),
    }
}
