//! The calls of a batch's packets, dealt to the callers of their classes.

ghost use Rattle.std.specs.Prelude.{◌≡◌, ◌∷◌, ◌++◌, ◌<◌, ◌≤◌, List, [], IfOk, OnOk, map, replicate, vec_len};
ghost use Rattle.plain_map.specs.declared.calls.Call.{Call};
ghost use Rattle.flows_runner.specs.Asked.{CanBeAsked, dealing_way, rules_of};
ghost use Rattle.flows_runner.specs.Piles.{HoldsShares, flow_way, shares_of};

use crate::asked::Asked;
use crate::classes::Classes;
use capture_loop::Pile;
use mode_parts::{Calling, call_in};
use plain_map::Call;
use std::alloc::{AllocError, Global};

/// How many packets are taken at most: as many as a reader of a capture gives.
pub const FLOW_LIMIT: u64 = 1_000_000_000_000;

/// The calls of a batch's packets, dealt to the callers of their classes.
#[derive(Drop)]
pub struct FlowPile {
    /// How packets are framed, and which calls they make.
    pub calling: Calling,
    /// Which caller makes the calls of a key.
    pub classes: Classes,
    /// How many packets there are, those that make no call too.
    pub packets: u32,
    /// The calls of each caller, caller 0 first, each caller's in packet order.
    pub shares: Vec<Vec<Call>>,
}

impl FlowPile {
    /// An empty one for the callers that are asked for, with room for so many calls of each. The only error is want of
    /// memory.
    pub fn with_room(alloc: Global, asked: &Asked, room: usize) -> Result<FlowPile, AllocError>
        requires { CanBeAsked asked.now }
        ensures holds { IfOk result (λ pile. HoldsShares pile 0 []) }
        ensures way { IfOk result (λ pile. flow_way pile
            ≡ dealing_way asked.now.seats (rules_of asked.now) asked.now.calling) }
    {
        Ok(FlowPile {
            calling: asked.calling,
            classes: Classes::of(asked),
            packets: 0,
            shares: empty_shares(alloc, asked.seats, room)?,
        })
    }
}

/// Puts a call behind those of the caller that makes it, where there are callers. The only error is want of memory.
fn deal(shares: &mut Vec<Vec<Call>>, classes: &Classes, call: Call) -> Result<(), AllocError>
    ensures dealt { OnOk result ((calls : List Call) →
        map (λ share. share.items) shares.old.items ≡ shares_of classes.now.rules (vec_len shares.old) calls →
        map (λ share. share.items) shares.new.items
        ≡ shares_of classes.now.rules (vec_len shares.new) (calls ++ call ∷ [])) }
    ensures same { vec_len shares.new ≡ vec_len shares.old }
{
    if !shares.is_empty() {
        let seat = classes.caller_of(shares.len(), call.key());
        shares[seat].push(call)?;
    }
    Ok(())
}

/// An empty list for each of so many callers, with room for so many calls. The only error is want of memory.
pub(crate) fn empty_shares(
    alloc: Global,
    seats: u32,
    room: usize,
) -> Result<Vec<Vec<Call>>, AllocError>
    ensures { IfOk result (λ shares. map (λ share. share.items) shares.items ≡ replicate seats []) }
{
    let mut shares = Vec::with_capacity(alloc, seats as usize)?;
    for _ in 0..seats {
        shares.push(Vec::with_capacity(alloc, room)?)?;
    }
    Ok(shares)
}

impl Pile for FlowPile {
    ghost use Rattle.flows_runner.specs.declared.pile.TheConstants.{FLOW_LIMIT};

    ghost holds = { HoldsShares };

    ghost way = { flow_way };

    ghost most = { FLOW_LIMIT };

    fn take(&mut self, number: u64, packet: &[u8]) -> Result<(), AllocError> {
        if let Some(call) = call_in(&self.calling, packet, number) {
            deal(&mut self.shares, &self.classes, call)?;
        }
        self.packets += 1;
        Ok(())
    }

    // All is done as packets are taken.
    fn prepare(&mut self) -> Result<(), AllocError> {
        Ok(())
    }

    fn clear(&mut self, _before: u64) {
        for share in self.shares.iter_mut() {
            share.clear();
        }
        self.packets = 0;
    }
}
