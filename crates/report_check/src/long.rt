//! Updates with too many steps.

ghost use Rattle.std.specs.Prelude.{◌≡◌, ◌<◌, List, map, MatchOption, All, ◌++◌, ◌∷◌};
ghost use Rattle.plain_map.specs.declared.records.Record.{Record as ARecord};
ghost use Rattle.plain_map.specs.Calls.{is_update as is_update_call};
ghost use Rattle.report_told.specs.Points.{IsShortEnough};
ghost use Rattle.report_check.specs.Judged.{IsLongAt};

use plain_map::{Call, Record};

/// The packet of the first update with more steps than the bound.
pub(crate) fn first_long(calls: &[Record], bound: u64) -> Option<u32>
    ensures { MatchOption result (All (IsShortEnough bound) calls.now) (λ packet. IsLongAt bound calls.now packet) }
{
    for call in calls {
        if call.steps > bound && is_update(&call.call) {
            return Some(call.packet);
        }
    }
    None
}

// Whether a call may change what is held.
pub(crate) fn is_update(call: &Call) -> bool
    ensures { result ≡ is_update_call call.now }
{
    match call {
        Call::Insert(_, _)
        | Call::Remove(_)
        | Call::Tally(_, _)
        | Call::Count(_, _, _)
        | Call::Put(_, _) => true,
        Call::Lookup(_) => false,
    }
}
