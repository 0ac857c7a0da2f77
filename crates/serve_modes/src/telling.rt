//! The last lines of a report of calls that were served.

ghost use Rattle.std.specs.Prelude.{◌≡◌, ◌≤◌};
ghost use Rattle.serve_modes.specs.Served.{tail_with};

use crate::progress::Progress;
use batch_deals::Service;
use capture_faults::Ending;
use report_text::Tail;
use step_counts::bound;

/// What the last lines tell.
pub(crate) fn tail_with(
    service: &Service,
    progress: &Progress,
    packets: u32,
    ending: &Ending,
) -> Tail
    requires { progress.now.totals.calls ≤ packets }
    ensures { result ≡ tail_with service.now packets progress.now.totals progress.now.leaves progress.now.depth
        ending.now }
{
    let packets = u64::from(packets);
    let totals = &progress.totals;
    Tail {
        leaves: progress.leaves,
        depth: progress.depth,
        ending: *ending,
        packets,
        calls: totals.calls,
        passed: packets - totals.calls,
        full: totals.refused,
        pending: 0,
        unbegun: 0,
        update: totals.update,
        bound: bound(&service.settings),
        lookup: totals.lookup,
    }
}
