//! Why a capture cannot be read, or cannot be read on.

ghost use Rattle.std.specs.Prelude.{◌≡◌};
ghost use Rattle.capture_faults.specs.declared.fault.CaptureFault.TheVariants.{Memory, ReadFault};

use edge_traits::Failed;
use std::alloc::AllocError;
use thiserror::Error;

/// Why a capture cannot be read, or cannot be read on.
#[derive(Clone, Copy, Debug, PartialEq, Eq, Error)]
pub enum CaptureFault {
    /// The source failed.
    #[error("the capture could not be read")]
    ReadFault,
    /// The input ends after `have` bytes, before the file head of 24 bytes does.
    #[error("{have} bytes are no file head")]
    ShortHeader { have: u32 },
    /// The first four bytes are none of the four magics.
    #[error("{bytes:?} is no magic of a savefile")]
    Magic { bytes: [u8; 4] },
    /// The version is not 2.4.
    #[error("version {major}.{minor} is not 2.4")]
    Version { major: u16, minor: u16 },
    /// The low 16 bits of the link field are not the link type that was asked for.
    #[error("link type {found} is not the one that was asked for")]
    LinkType { found: u16 },
    /// The record that starts at `offset`, in bytes from the file's first, shows a captured length
    /// above 262,144.
    #[error("the record at {offset} shows a captured length of {found}")]
    RecordLength { offset: u64, found: u32 },
    /// There is no memory for the packet buffer.
    #[error("there is no memory for the packet buffer")]
    Memory,
}

impl From<Failed> for CaptureFault {
    ghost from_gives = { λ _ fault. fault ≡ ReadFault };

    fn from(_failed: Failed) -> CaptureFault {
        CaptureFault::ReadFault
    }
}

impl From<AllocError> for CaptureFault {
    ghost from_gives = { λ _ fault. fault ≡ Memory };

    fn from(_none: AllocError) -> CaptureFault {
        CaptureFault::Memory
    }
}
