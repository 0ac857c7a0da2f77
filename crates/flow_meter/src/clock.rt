//! The clock of a capture, which goes by the packets' times alone.

ghost use Rattle.std.specs.Prelude.{◌≡◌, ◌+◌, ◌<◌, ◌^◌, Some};
ghost use Rattle.flow_times.specs.Moments.{moment_after, moved as moved_by};
ghost use Rattle.flow_meter.specs.Models.{moment_of};
ghost use Rattle.flow_meter.specs.Clocks.{HasStretchesLeft, last_moment};

/// A stretch of packets whose times do not step back, from 0, and the greatest time of it so far, in nanoseconds.
#[derive(Clone, Copy, PartialEq, Eq)]
pub struct Moment {
    pub stretch: u64,
    pub clock: u64,
}

/// The clock of a capture.
#[derive(Clone, Copy, PartialEq, Eq)]
pub struct Clock {
    /// A packet may lie so much behind the clock, in nanoseconds. One that lies further behind begins a stretch.
    pub late: u64,
    /// Where the clock stands. `None` before the first packet.
    pub now: Option<Moment>,
}

impl Clock {
    /// The clock before the first packet.
    pub fn before_packets(late: u64) -> Clock
        ensures { result ≡ record { late = late; now = None } }
    {
        Clock { late, now: None }
    }

    /// Sets the clock by a packet that has this time, or none, and tells where it stands.
    pub fn tick(&mut self, time: Option<u64>) -> Moment
        requires { HasStretchesLeft self.now }
        ensures moment { moment_of result ≡ moment_after self.old.late (last_moment self.old) time }
        ensures kept { self.new ≡ record { late = self.old.late; now = Some result } }
    {
        let now = match self.now {
            None => Moment {
                stretch: 0,
                clock: time.unwrap_or(0),
            },
            Some(now) => match time {
                None => now,
                Some(time) => moved(self.late, now, time),
            },
        };
        self.now = Some(now);
        now
    }
}

// Where the clock stands behind a packet with this time.
fn moved(late: u64, now: Moment, time: u64) -> Moment
    requires { now.stretch + 1 < 2 ^ 64 }
    ensures { moment_of result ≡ moved_by late (moment_of now) time }
{
    if now.clock.saturating_sub(time) > late {
        return Moment {
            stretch: now.stretch + 1,
            clock: time,
        };
    }
    Moment {
        stretch: now.stretch,
        clock: now.clock.max(time),
    }
}
