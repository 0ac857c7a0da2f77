//! The order of records: by their flows' ends.

ghost use Rattle.std.specs.Prelude.{◌≡◌, ◌↔◌, IsPermutation, IsTrue};
ghost use Rattle.flow_times.specs.Ends.{IsBefore};
ghost use Rattle.flow_times.specs.Metered.{end_of};
ghost use Rattle.flow_meter.specs.Ends.{AreByEnds, end_at, end_cmp, end_kind, end_mark};
ghost use Rattle.flow_meter.specs.Models.{ended_of, times_of};

use crate::clock::Moment;
use crate::flow::EndedFlow;
use crate::packet::Timeouts;
use std::cmp::Ordering;

/// What a flow ended by. Of flows that ended at one moment those that ended by packets stand first.
#[derive(Clone, Copy, PartialEq, Eq)]
pub enum EndedBy {
    /// The packet with this number.
    Packet(u64),
    /// Its deadline, or its stretch.
    Time,
}

/// Where the record of a flow stands.
#[derive(Clone, Copy, PartialEq, Eq)]
pub struct FlowEnd {
    pub at: Moment,
    pub by: EndedBy,
    /// The number of its first packet.
    pub number: u64,
}

/// A flow that has ended, and where its record stands.
#[derive(Clone, Copy, PartialEq, Eq)]
pub struct EndRecord {
    pub end: FlowEnd,
    pub ended: EndedFlow,
}

/// Puts records into the order of ends. Takes no memory.
pub fn sort_by_ends(records: &mut [EndRecord])
    ensures same { IsPermutation records.old records.new }
    ensures sorted { AreByEnds records.new }
{
    records.sort_unstable_by(|one, other| one.end.compare(&other.end));
}

impl EndedFlow {
    /// Where its record stands. The clock of the flow's stretch has not gone further than `last` before it ended.
    pub fn end(&self, times: &Timeouts, last: u64) -> FlowEnd
        ensures { end_at result ≡ end_of (times_of times.now) (λ _. last) (ended_of self.now) }
    {
        let number = self.flow.number;
        let stretch = self.flow.stretch;
        match self.by {
            Some(cause) => FlowEnd {
                at: Moment {
                    stretch,
                    clock: cause.clock,
                },
                by: EndedBy::Packet(cause.number),
                number,
            },
            None => FlowEnd {
                at: Moment {
                    stretch,
                    clock: self.flow.deadline(times).min(u128::from(last)) as u64,
                },
                by: EndedBy::Time,
                number,
            },
        }
    }
}

impl FlowEnd {
    /// Its record stands before the other one.
    pub fn is_before(&self, other: &FlowEnd) -> bool
        ensures { IsTrue result ↔ IsBefore (end_at self.now) (end_at other.now) }
    {
        if self.at.stretch != other.at.stretch {
            return self.at.stretch < other.at.stretch;
        }
        if self.at.clock != other.at.clock {
            return self.at.clock < other.at.clock;
        }
        match (self.by, other.by) {
            (EndedBy::Packet(packet), EndedBy::Packet(others)) => packet < others,
            (EndedBy::Packet(_), EndedBy::Time) => true,
            (EndedBy::Time, EndedBy::Packet(_)) => false,
            (EndedBy::Time, EndedBy::Time) => self.number < other.number,
        }
    }

    /// Which of both records stands first.
    pub fn compare(&self, other: &FlowEnd) -> Ordering
        ensures { result ≡ end_cmp (end_at self.now) (end_at other.now) }
    {
        self.at
            .stretch
            .cmp(&other.at.stretch)
            .then(self.at.clock.cmp(&other.at.clock))
            .then(self.kind().cmp(&other.kind()))
            .then(self.mark().cmp(&other.mark()))
    }

    // At one moment those that ended by packets stand first.
    fn kind(&self) -> u8
        ensures { result ≡ end_kind (end_at self.now).by }
    {
        match self.by {
            EndedBy::Packet(_) => 0,
            EndedBy::Time => 1,
        }
    }

    // In the order of these packets, the others in that of their own first ones.
    fn mark(&self) -> u64
        ensures { result ≡ end_mark (end_at self.now).by self.now.number }
    {
        match self.by {
            EndedBy::Packet(number) => number,
            EndedBy::Time => self.number,
        }
    }
}
