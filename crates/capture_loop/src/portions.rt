//! How an input is cut into batches, and how much of it is taken.

ghost use Rattle.std.specs.Prelude.{◌≡◌, ◌<◌, ◌≤◌, ℕ, true, false};
ghost use Rattle.std.specs.Option.{ForSome};
ghost use Rattle.capture_loop.specs.Batches.{IsCutAt, cut_of};
ghost use Rattle.capture_loop.specs.Input.{in_batches};

use crate::job::PACKET_LIMIT;

/// How an input is cut into batches, and how much of it is taken.
#[derive(Clone, Copy)]
pub struct Portions {
    /// How many packets a batch has at most, 1 to `MOST_BATCH`.
    pub batch: u32,
    /// A batch also ends behind each so many packets of the input, at least 1; `None`: nowhere else.
    pub every: Option<u64>,
    /// Whether a batch also ends where the reader holds no further whole packet. Otherwise only the last one may have
    /// fewer packets than are cut there.
    pub eager: bool,
    /// How many packets are taken at most, 1 to `MOST_PACKETS`.
    pub limit: u64,
}

impl Portions {
    /// Batches of so many packets, of no more than `PACKET_LIMIT` in all.
    pub fn of(batch: u32) -> Portions
        ensures { result ≡ in_batches batch }
    {
        Portions {
            batch,
            every: None,
            eager: false,
            limit: PACKET_LIMIT as u64,
        }
    }

    /// How many packets a batch has at most that begins behind so many.
    pub fn at(&self, before: u64) -> u32
        requires batch { 0 < self.now.batch }
        requires every { ForSome self.now.every (λ every. 0 < every) }
        ensures size { result ≡ cut_of self.now before }
        ensures some { (0 < result) × (result ≤ self.now.batch) }
    {
        match self.every {
            Some(every) => u64::from(self.batch).min(every - before % every) as u32,
            None => self.batch,
        }
    }

    /// Whether a batch that begins behind so many packets may end with so many, if more follow.
    pub fn may_end(&self, before: u64, packets: u32) -> bool
        requires batch { 0 < self.now.batch }
        requires every { ForSome self.now.every (λ every. 0 < every) }
        requires few { packets ≤ cut_of self.now before }
        ensures can { result ≡ true → IsCutAt self.now before packets }
        ensures cannot { result ≡ false → IsCutAt self.now before packets → ⊥ }
    {
        if self.eager {
            return 0 < packets;
        }
        packets == self.at(before)
    }
}
