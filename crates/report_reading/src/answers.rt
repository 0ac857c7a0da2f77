//! The answered calls that were read, each with its number among its seat's.

ghost use Rattle.std.specs.Prelude.{◌≡◌, ◌+◌, ◌-◌, ◌^◌, ◌<◌, ◌++◌, ◌∷◌, [], List, IfOk, OnOk, length, slice_index, slice_set};
ghost use Rattle.plain_map.specs.declared.records.Record.{Record as ARecord};
ghost use Rattle.report_told.specs.Told.{Entry, call as call_entry};
ghost use Rattle.report_told.specs.declared.told.Ended.TheVariants.{Answered};
ghost use Rattle.report_reading.specs.Answers.{AreAnswers};

use plain_map::{MOST_SEATS, Record, Reply, Seen};
use report_told::CallLine;
use std::alloc::{AllocError, Global};

/// Answered calls in packet order, and how many there are of each seat.
#[derive(Drop)]
pub(crate) struct Answers {
    pub(crate) calls: Vec<Record>,
    pub(crate) counts: [u32; MOST_SEATS],
}

impl Answers {
    /// None yet.
    pub(crate) fn new(alloc: Global) -> Answers
        ensures { AreAnswers result [] }
    {
        Answers {
            calls: Vec::new(alloc),
            counts: [0; MOST_SEATS],
        }
    }

    /// Takes in the call of a line, which was answered so.
    pub(crate) fn answer(
        &mut self,
        line: &CallLine,
        reply: Reply,
        steps: u64,
        seen: Seen,
    ) -> Result<(), AllocError>
        ensures { (entries : List Entry) → AreAnswers self.old entries → line.now.seat < 8 →
            length entries < 2 ^ 32 - 1 → line.now.ended ≡ Answered reply steps seen →
            OnOk result (AreAnswers self.new (entries ++ call_entry line.now ∷ [])) }
    {
        let number = count(&mut self.counts, line.seat);
        self.calls.push(Record {
            seat: line.seat,
            number,
            packet: line.packet,
            call: line.call,
            reply,
            steps,
            seen,
            place: 0,
        })?;
        Ok(())
    }
}

// One more call of a seat, and its number.
fn count(counts: &mut [u32; MOST_SEATS], seat: u32) -> u32
    ensures number { seat < 8 → slice_index counts.old seat < 2 ^ 32 - 1 →
        result ≡ slice_index counts.old seat + 1 }
    ensures counts { seat < 8 → slice_index counts.old seat < 2 ^ 32 - 1 →
        counts.new ≡ slice_set counts.old seat (slice_index counts.old seat + 1) }
{
    let place = seat as usize;
    if place >= MOST_SEATS {
        return 0;
    }
    let number = counts[place].saturating_add(1);
    counts[place] = number;
    number
}
