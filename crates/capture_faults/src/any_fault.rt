//! Why an input cannot be read, or cannot be read on.

ghost use Rattle.std.specs.Prelude.{◌≡◌};
ghost use Rattle.capture_faults.specs.declared.fault.CaptureFault.TheVariants.{Memory};
ghost use Rattle.capture_faults.specs.declared.any_fault.AnyFault.TheVariants.{Capture};

use crate::fault::CaptureFault;
use std::alloc::AllocError;
use thiserror::Error;

/// Why an input cannot be read, or cannot be read on. An offset is the start of the block, in bytes from the input's
/// first.
#[derive(Clone, Copy, Debug, PartialEq, Eq, Error)]
pub enum AnyFault {
    /// A fault of a savefile, of the source or of memory.
    #[error("the capture is no savefile")]
    Capture(CaptureFault),
    /// The byte-order magic of a section is neither spelling.
    #[error("the section at {offset} has no byte order")]
    ByteOrder { offset: u64, bytes: [u8; 4] },
    /// A block's length is no multiple of 4, above 16,777,216 or below the least of its kind.
    #[error("the block at {offset} shows a length of {found}")]
    BlockLength { offset: u64, found: u32 },
    /// The second length of a block is another.
    #[error("the block at {offset} ends with a length of {found}")]
    Trailer { offset: u64, found: u32 },
    /// The major version of a section is not 1.
    #[error("the section at {offset} has version {major}.{minor}")]
    SectionVersion { offset: u64, major: u16, minor: u16 },
    /// A packet is of an interface that its section does not have.
    #[error("the packet at {offset} is of interface {found}")]
    Interface { offset: u64, found: u32 },
    /// A packet's captured length is above 262,144, or does not fit its block.
    #[error("the packet at {offset} shows a captured length of {found}")]
    CapturedLength { offset: u64, found: u32 },
    /// The block is the 257th interface of its section.
    #[error("the block at {offset} is an interface too many")]
    Interfaces { offset: u64 },
    /// The block is the 4,000,001st that gives no packet.
    #[error("the block at {offset} is one too many without a packet")]
    Blocks { offset: u64 },
}

impl From<CaptureFault> for AnyFault {
    ghost from_gives = { λ fault any. any ≡ Capture fault };

    fn from(fault: CaptureFault) -> AnyFault {
        AnyFault::Capture(fault)
    }
}

impl From<AllocError> for AnyFault {
    ghost from_gives = { λ _ any. any ≡ Capture Memory };

    fn from(_none: AllocError) -> AnyFault {
        AnyFault::Capture(CaptureFault::Memory)
    }
}
