//! What a report tells, as it is judged.

ghost use Rattle.std.specs.Prelude.{◌≡◌, ◌<◌, ◌-◌, ◌^◌, length, map};
ghost use Rattle.report_told.specs.Told.{Told};
ghost use Rattle.report_reading.specs.Entries.{Holds};
ghost use Rattle.report_reading.specs.Kept.{IsKept, next_number, with_number};

use crate::answers::Answers;
use crate::entries::Entries;
use crate::packets::Packets;
use plain_map::{MOST_SEATS, Pair, Pending, Record};
use report_text::Head;

/// What a report tells, as it is judged.
#[derive(Drop)]
pub struct Kept {
    pub head: Head,
    /// The most atomic steps that an update may take.
    pub bound: u64,
    /// The answered calls in packet order, each with its number among its seat's; their places are 0.
    pub calls: Vec<Record>,
    /// The pending calls as they stand, each numbered one above its seat's last.
    pub pending: Vec<Pending>,
    /// The packets of all order lines.
    pub order: Vec<u32>,
    /// The sessions, in the order of their keys.
    pub pairs: Vec<Pair>,
}

impl Entries {
    /// With the bound and the sessions, and pending calls numbered.
    pub(crate) fn kept(self, bound: u64, pairs: Vec<Pair>) -> Kept
        ensures { (told : Told) → Holds self told.head told.entries →
            length told.entries < 2 ^ 32 - 1 → bound ≡ told.tail.bound →
            pairs.items ≡ told.pairs → IsKept result told }
    {
        let Entries {
            head,
            need: _,
            packets,
            answers,
            mut pending,
            order,
        } = self;
        let Packets { ended, waiting } = packets;
        drop(ended);
        drop(waiting);
        let Answers { calls, counts } = answers;
        number(&mut pending, &counts);
        Kept {
            head,
            bound,
            calls,
            pending,
            order,
            pairs,
        }
    }
}

// Numbers each call one above its seat's count.
fn number(pending: &mut [Pending], counts: &[u32; MOST_SEATS])
    ensures { pending.new ≡ map (with_number counts.now) pending.old }
{
    for call in pending.iter_mut() {
        call.number = next(counts, call.seat);
    }
}

// One above the count of the seat.
fn next(counts: &[u32; MOST_SEATS], seat: u32) -> u32
    ensures { result ≡ next_number counts.now seat }
{
    match counts.get(seat as usize) {
        Some(count) => count.saturating_add(1),
        None => 0,
    }
}
