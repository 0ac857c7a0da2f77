//! What is kept of the packets of a batch.

ghost use Rattle.std.specs.Prelude.{◌≡◌, []};
ghost use Rattle.capture_loop.specs.declared.job.TheConstants.{PACKET_LIMIT};
ghost use Rattle.packet_heads.specs.Links.{way_of};
ghost use Rattle.totals_runner.specs.Frames.{HasFrames};

use capture_loop::Pile;
use packet_adders::Frame;
use packet_heads::Framing;
use std::alloc::{AllocError, Global};

/// The frames of the packets of a batch, in their order.
#[derive(Drop)]
pub struct Frames {
    /// How they are framed.
    pub framing: Framing,
    /// How many packets came before them.
    pub before: u32,
    pub frames: Vec<Frame>,
}

impl Frames {
    /// No frames yet, of packets that are framed so.
    pub fn new(alloc: Global, framing: Framing) -> Frames
        ensures none { HasFrames result 0 [] }
        ensures framing { result.framing ≡ framing }
    {
        Frames {
            framing,
            before: 0,
            frames: Vec::new(alloc),
        }
    }
}

impl Pile for Frames {
    ghost holds = { HasFrames };

    ghost way = { λ frames. way_of frames.framing };

    ghost most = { PACKET_LIMIT };

    fn take(&mut self, number: u64, packet: &[u8]) -> Result<(), AllocError> {
        self.frames
            .push(Frame::of(&self.framing, number as u32, packet))?;
        Ok(())
    }

    fn prepare(&mut self) -> Result<(), AllocError> {
        Ok(())
    }

    fn clear(&mut self, before: u64) {
        self.frames.clear();
        self.before = before as u32;
    }
}
