//! The calls of a batch's packets, until they are served.

ghost use Rattle.std.specs.Prelude.{◌≡◌, ◌≤◌, ◌+◌, ◌++◌, ◌∷◌, [], ℕ, List, length, IfOk, OnOk};
ghost use Rattle.std.specs.Option.{ForSome};
ghost use Rattle.capture_loop.specs.declared.job.TheConstants.{PACKET_LIMIT};
ghost use Rattle.mode_parts.specs.Callings.{calling_way};
ghost use Rattle.mode_parts.specs.Piles.{HoldsCalls};

use crate::calling::Calling;
use crate::steps::keep_call;
use batch_deals::{Dealt, Service, deal_batch};
use capture_loop::Pile;
use plain_map::Call;
use std::alloc::{AllocError, Global};

/// The calls of a batch's packets. Those of a whole batch can be dealt before it is served.
#[derive(Drop)]
pub struct CallPile {
    pub alloc: Global,
    /// How they are dealt.
    pub service: Service,
    /// How packets are framed, and which calls they make.
    pub calling: Calling,
    /// How many packets there are, those that make no call too.
    pub packets: u32,
    pub calls: Vec<(u32, Call)>,
    pub dealt: Option<Dealt>,
}

impl CallPile {
    /// An empty one of packets that are framed so and make calls so, with room for so many calls.
    pub fn with_room(
        alloc: Global,
        service: Service,
        calling: Calling,
        calls: usize,
    ) -> Result<CallPile, AllocError>
        ensures holds { IfOk result (λ pile. HoldsCalls pile 0 []) }
        ensures calling { IfOk result (λ pile. pile.calling ≡ calling) }
    {
        Ok(CallPile {
            alloc,
            service,
            calling,
            packets: 0,
            calls: Vec::with_capacity(alloc, calls)?,
            dealt: None,
        })
    }
}

impl Pile for CallPile {
    ghost holds = { HoldsCalls };

    ghost way = { λ pile. calling_way pile.calling };

    ghost most = { PACKET_LIMIT };

    fn take(&mut self, number: u64, packet: &[u8]) -> Result<(), AllocError> {
        // Most often there is none, and it costs to give one up.
        if self.dealt.is_some() {
            self.dealt = None;
        }
        keep_call(&self.calling, packet, number as u32, &mut self.calls)?;
        self.packets += 1;
        Ok(())
    }

    fn prepare(&mut self) -> Result<(), AllocError> {
        let dealt = deal_batch(self.alloc, &self.service, &self.calls)?;
        self.dealt = Some(dealt);
        Ok(())
    }

    fn clear(&mut self, _before: u64) {
        self.dealt = None;
        self.calls.clear();
        self.packets = 0;
    }
}
