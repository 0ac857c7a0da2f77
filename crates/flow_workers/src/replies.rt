//! How many calls had each reply.

ghost use Rattle.flow_workers.specs.Counts.{AreFew, added, counted_with, no_counts};
ghost use Rattle.std.specs.Prelude.{◌≡◌, ◌+◌, ◌≤◌};

use plain_map::Reply;

/// How many calls had each reply.
#[derive(Clone, Copy, PartialEq, Eq)]
pub struct ReplyCounts {
    pub new: u64,
    pub old: u64,
    pub noroom: u64,
    pub gone: u64,
    pub found: u64,
    pub absent: u64,
    pub sum: u64,
}

impl ReplyCounts {
    /// None yet.
    pub fn none() -> ReplyCounts
        ensures { result ≡ no_counts }
    {
        ReplyCounts {
            new: 0,
            old: 0,
            noroom: 0,
            gone: 0,
            found: 0,
            absent: 0,
            sum: 0,
        }
    }

    /// One call more had this reply.
    #[inline(always)]
    pub fn count(&mut self, reply: &Reply)
        requires { AreFew self.now }
        ensures { self.exit.now ≡ counted_with self.entry.now reply.now }
    {
        match reply {
            Reply::New => self.new += 1,
            Reply::Old(_) => self.old += 1,
            Reply::NoRoom => self.noroom += 1,
            Reply::Gone(_) => self.gone += 1,
            Reply::Found(_) => self.found += 1,
            Reply::Absent => self.absent += 1,
            Reply::Sum(_) => self.sum += 1,
        }
    }

    /// The calls that `other` counts are counted here too.
    pub fn add(&mut self, other: &ReplyCounts)
        requires few { AreFew self.now }
        requires others_few { AreFew other.now }
        ensures { self.exit.now ≡ added self.entry.now other.now }
    {
        self.new += other.new;
        self.old += other.old;
        self.noroom += other.noroom;
        self.gone += other.gone;
        self.found += other.found;
        self.absent += other.absent;
        self.sum += other.sum;
    }
}
