//! How much a section may have before that is a fault.

/// No section has more interfaces.
pub const MOST_INTERFACES: usize = 256;

/// No input has more blocks that give no packet.
pub const MOST_OTHERS: u32 = 4_000_000;
