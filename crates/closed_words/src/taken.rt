//! The pending updates that took effect.

ghost use Rattle.std.specs.Prelude.{◌≡◌, ◌&&◌, ◌==◌, IfOk, filter};
ghost use Rattle.std.specs.List.{list_any};
ghost use Rattle.word_rows.specs.LayoutView.{shape_of};
ghost use Rattle.plain_map.specs.Calls.{is_update};
ghost use Rattle.table_model.specs.Reading.{applied_at};
ghost use Rattle.table_model.specs.Order.{took_effect};

use crate::{Starts, Words, applied_at, bucket_rows};
use plain_map::{Call, Pending};
use std::alloc::{AllocError, Global};

/// Of the calls that had begun the updates that took effect: those whose number is the applied number of their seat in
/// a published row. The only error is want of memory.
pub fn effects<W: Words>(
    alloc: Global,
    starts: &Starts,
    words: &W,
    begun: &[Pending],
) -> Result<Vec<Pending>, AllocError>
    ensures { IfOk result (λ effects. effects.items ≡ filter
        (took_effect (shape_of starts.now.layout) (W.words words.now)) begun.now) }
{
    let rows = bucket_rows(alloc, starts, words)?;
    applied_in(alloc, starts, words, &rows, begun)
}

// Of these calls the updates whose number is the applied number of their seat in one of these rows.
fn applied_in<W: Words>(
    alloc: Global,
    starts: &Starts,
    words: &W,
    rows: &[u64],
    begun: &[Pending],
) -> Result<Vec<Pending>, AllocError>
    ensures { IfOk result (λ effects. effects.items
        ≡ filter (λ p. is_update p.call && list_any
        (λ row. applied_at (shape_of starts.now.layout) (W.words words.now) row p.seat == p.number) rows.now)
        begun.now) }
{
    let mut effects = Vec::new(alloc);
    for pending in begun {
        if is_update(&pending.call) && was_applied(starts, words, rows, pending) {
            effects.push(*pending)?;
        }
    }
    Ok(effects)
}

// Whether the call's number is the applied number of its seat in one of these rows.
fn was_applied<W: Words>(starts: &Starts, words: &W, rows: &[u64], pending: &Pending) -> bool
    ensures { result ≡ list_any
        (λ row. applied_at (shape_of starts.now.layout) (W.words words.now) row
        pending.now.seat == pending.now.number) rows.now }
{
    for row in rows {
        if applied_at(starts, words, *row, pending.seat) == u64::from(pending.number) {
            return true;
        }
    }
    false
}

// Whether the call is any but a lookup.
fn is_update(call: &Call) -> bool
    ensures { result ≡ is_update call.now }
{
    match call {
        Call::Insert(_, _)
        | Call::Remove(_)
        | Call::Tally(_, _)
        | Call::Count(_, _, _)
        | Call::Put(_, _) => true,
        Call::Lookup(_) => false,
    }
}
