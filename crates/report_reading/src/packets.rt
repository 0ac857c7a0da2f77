//! The packets of the calls that were read.

ghost use Rattle.std.specs.Prelude.{◌≡◌, ◌++◌, ◌∷◌, [], List, ℕ, IfOk, MatchBool, length, slice_get, nat_le, ◌-◌};
ghost use Rattle.report_told.specs.Rules.{Rise, times};
ghost use Rattle.report_reading.specs.Packets.{ArePackets, CanEnd, CanWait, is_above};

use std::alloc::{AllocError, Global};
use std::collections::BTreeSet;

/// The packets of calls that ended, and of pending ones.
#[derive(Drop)]
pub(crate) struct Packets {
    // They rise.
    pub(crate) ended: Vec<u32>,
    pub(crate) waiting: BTreeSet<u32>,
}

impl Packets {
    /// None yet.
    pub(crate) fn new(alloc: Global) -> Packets
        ensures { ArePackets result [] [] }
    {
        Packets {
            ended: Vec::new(alloc),
            waiting: BTreeSet::new(alloc),
        }
    }

    /// Takes in the packet of a call that ended, where it may stand behind the others.
    pub(crate) fn end(&mut self, packet: u32) -> Result<bool, AllocError>
        ensures { (ended waits : List ℕ) → ArePackets self.old ended waits → IfOk result (λ good. MatchBool good
            (CanEnd ended waits packet × ArePackets self.new (ended ++ packet ∷ []) waits)
            (CanEnd ended waits packet → ⊥)) }
    {
        if !rises(&self.ended, packet) || self.waiting.contains(&packet) {
            return Ok(false);
        }
        self.ended.push(packet)?;
        Ok(true)
    }

    /// Takes in the packet of a pending call, where no other call has it.
    pub(crate) fn wait(&mut self, packet: u32) -> Result<bool, AllocError>
        ensures { (ended waits : List ℕ) → ArePackets self.old ended waits → IfOk result (λ good. MatchBool good
            (CanWait ended waits packet × ArePackets self.new ended (waits ++ packet ∷ []))
            (CanWait ended waits packet → ⊥)) }
    {
        if has(&self.ended, packet) {
            return Ok(false);
        }
        let added = self.waiting.insert(packet)?;
        Ok(added)
    }
}

// Whether the packet is above the last.
fn rises(ended: &[u32], packet: u32) -> bool
    ensures { result ≡ is_above (slice_get ended.now (length ended.now - 1)) packet }
{
    match ended.last() {
        Some(last) => *last < packet,
        None => true,
    }
}

// Whether the packet is one of these, which rise.
fn has(ended: &[u32], packet: u32) -> bool
    ensures { Rise ended.now → result ≡ nat_le 1 (times packet ended.now) }
{
    match ended.binary_search(&packet) {
        Ok(_) => true,
        Err(_) => false,
    }
}
