//! What a lasting table is opened with, for C.

ghost use Rattle.flowdir_c.specs.LastingAsked.{AreAsked};

use step_counts::Settings;

/// What a lasting table is opened with.
#[repr(C)]
#[derive(Clone, Copy)]
pub struct LastingOptions {
    /// 1 to 8.
    pub seats: u32,
    /// Room of a class of keys, 1 to 16.
    pub items: u32,
    /// Hash bits that tell classes apart, 0 to 12.
    pub depth: u32,
    /// Of the hash.
    pub seed: u64,
}

impl LastingOptions {
    /// The settings of a table at its full depth, if they are in their ranges.
    pub(crate) fn settings(&self) -> Option<Settings>
        ensures { AreAsked self.now result }
    {
        Settings::new(self.seats, self.items, self.depth, self.depth).ok()
    }
}
