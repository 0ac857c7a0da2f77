//! Bytes of a source that are dropped as they come.

ghost use Rattle.std.specs.Prelude.{◌≡◌, ◌≤◌, length, IfOk, OnErr, OnOk};
ghost use Rattle.edge_traits.specs.Edge.{Rose, count_after};
ghost use Rattle.byte_window.specs.Window.{buffer_length};
ghost use Rattle.pcap_reader.specs.Reading.{Took};
ghost use Rattle.pcapng_reader.specs.Waiting.{DropsNone, DropsTo};

use byte_window::{MOST_HELD, Window};
use edge_traits::{Failed, Source};

/// Drops so many bytes behind the first `kept`, which are held, and answers how many there were.
pub fn drop_behind<S: Source>(
    window: &mut Window,
    kept: usize,
    count: usize,
    source: &mut S,
) -> Result<usize, Failed>
    requires few { kept ≤ MOST_HELD }
    requires held { kept ≤ length window.old.unread }
    ensures drops { IfOk result (λ dropped. Took (S.left source.old) (S.left source.new)
        (DropsTo kept count window.old.unread window.new.unread dropped (S.left source.old))) }
    ensures none { OnErr result (Took (S.left source.old) (S.left source.new)
        (DropsNone kept count window.old.unread window.new.unread)) }
    ensures room { length window.new.unread ≤ buffer_length }
    ensures failed { OnErr result (Rose (S.faults source.old) (S.faults source.new)) }
    ensures counted { S.faults source.old ≤ S.faults source.new }
    ensures one_failed { OnErr result (S.failed source.new ≡ count_after (S.failed source.old) 1) }
    ensures none_failed { OnOk result (S.failed source.new ≡ S.failed source.old) }
{
    let mut dropped = 0;
    'gap: loop {
        let held = window.unread().len() - kept;
        let some = held.min(count - dropped);
        window.remove(kept, some);
        dropped += some;
        if dropped == count {
            return Ok(dropped);
        }
        if window.fill(source)? == 0 {
            return Ok(dropped);
        }
    }
}
