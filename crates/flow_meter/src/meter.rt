//! The records of one caller's flows, each at a place of its own, and what packets make of them.

ghost use Rattle.std.specs.Prelude.{◌≡◌, ◌+◌, ◌<◌, ◌≤◌, ◌^◌, ℕ, List, [], ◌∷◌, ◌++◌, Some, None, IfOk, IfNone, IfSome, OnOk, OnErr, IsTrue, ◌↔◌, length};
ghost use Rattle.std.specs.Bool.{OnTrue};
ghost use Rattle.flow_meter.specs.Held.{Begins, Holds, IsSame, IsWhole, KeyIsAt, Lets, Makes, Meets, Stays, as_flow, flow_at, places_of, slots_of};
ghost use Rattle.flow_meter.specs.Passes.{HasPassed, IsPassing, PassesAt, Tells, is_due};
ghost use Rattle.flow_meter.specs.Parts.{GivesBack, IsFree, IsPut, IsSoonest, IsWithFlows};

use crate::clock::Moment;
use crate::flow::{EndedFlow, FlowRecord, Met};
use crate::packet::{Packet, Timeouts};
use plain_map::Key;
use std::alloc::{AllocError, Global};

/// Flows by their places. A table has the place of each key.
#[derive(Drop)]
pub struct Meter {
    pub times: Timeouts,
    flows: Vec<Option<FlowRecord>>,
    // The first ones of these are the places that are free.
    free: Vec<usize>,
    left: usize,
}

impl Meter {
    /// A meter without flows that has so many places. All of its memory is taken here.
    pub fn open(alloc: Global, times: Timeouts, places: usize) -> Result<Meter, AllocError>
        ensures { IfOk result (λ meter.
            (meter.times ≡ times) × (places_of meter ≡ places) × Holds (slots_of meter) 0 []) }
    {
        let mut flows = Vec::with_capacity(alloc, places)?;
        let mut free = Vec::with_capacity(alloc, places)?;
        for place in 0..places {
            flows.push(None)?;
            free.push(place)?;
        }
        Ok(Meter {
            times,
            flows,
            free,
            left: places,
        })
    }

    /// A packet whose key was found at this place.
    pub fn meet(&mut self, place: usize, packet: &Packet) -> Met
        ensures stays { Stays self.old self.new }
        ensures made { Meets self.old self.new place packet.now result }
    {
        if !self.has_key(place, &packet.key) {
            return Met::Lost;
        }
        match &mut self.flows[place] {
            Some(flow) => flow.meet(&self.times, packet),
            None => Met::Lost,
        }
    }

    /// A packet whose key was not found, of a class that has room. It begins a flow at the place that is told, where
    /// the key is to be put. `None` comes only if all places are in use: then nothing has happened.
    pub fn begin(&mut self, packet: &Packet) -> Option<usize>
        ensures stays { Stays self.old self.new }
        ensures made { Begins self.old self.new packet.now result }
    {
        let Some(place) = self.free_place() else {
            return None;
        };
        self.put(place, Some(FlowRecord::begun(packet)));
        self.left -= 1;
        Some(place)
    }

    /// A packet whose key was not found, of a class that is full, and whose keys have these places. The flow with the
    /// earliest deadline ends, and the packet begins one at its place. Its key is to be removed, and the packet's to be
    /// put there. `None` comes only if no flow is at any of these places: then nothing has happened.
    pub fn make_way(&mut self, places: &[usize], packet: &Packet) -> Option<(usize, EndedFlow)>
        ensures stays { Stays self.old self.new }
        ensures made { Makes self.old self.new places.now packet.now result }
    {
        let Some((place, flow)) = self.soonest(places) else {
            return None;
        };
        let ended = flow.make_way(&self.times, true, packet);
        self.put(place, Some(FlowRecord::begun(packet)));
        Some((place, ended))
    }

    // Of the flows at these places the one with the earliest deadline, and its place.
    fn soonest(&self, places: &[usize]) -> Option<(usize, FlowRecord)>
        ensures { IsSoonest self.now places.now result }
    {
        let mut found = None;
        for place in places {
            found = self.sooner(found, *place);
        }
        found
    }

    // The flow at this place, if it has an earlier deadline than the one that was found.
    fn sooner(
        &self,
        found: Option<(usize, FlowRecord)>,
        place: usize,
    ) -> Option<(usize, FlowRecord)>
        ensures { (places : List ℕ) → IsSoonest self.now places found →
            IsSoonest self.now (places ++ place ∷ []) result }
    {
        let Some(flow) = self.flow_at(place) else {
            return found;
        };
        let Some((other_place, other)) = found else {
            return Some((place, flow));
        };
        if flow.is_sooner(&self.times, &other) {
            return Some((place, flow));
        }
        Some((other_place, other))
    }

    /// The flow at this place is taken out, and told. Its key is to be removed.
    pub fn let_go(&mut self, place: usize) -> Option<FlowRecord>
        ensures stays { Stays self.old self.new }
        ensures made { Lets self.old self.new place result }
    {
        let Some(flow) = self.flow_at(place) else {
            return None;
        };
        self.put(place, None);
        self.give_back(place);
        Some(flow)
    }

    // The last one of the places that are free.
    fn free_place(&self) -> Option<usize>
        ensures none { IfNone result (IsWhole self.now) }
        ensures found { IfSome result (λ place. IsFree self.now place) }
    {
        if self.left == 0 || self.left > self.free.len() {
            return None;
        }
        let place = self.free[self.left - 1];
        if place >= self.flows.len() {
            return None;
        }
        Some(place)
    }

    // A flow of this key is at the place.
    fn has_key(&self, place: usize, key: &Key) -> bool
        ensures within { OnTrue result (place < places_of self.now) }
        ensures there { IsTrue result ↔ KeyIsAt self.now place key.now }
    {
        match self.flows.get(place) {
            Some(Some(flow)) => flow.key == *key,
            _ => false,
        }
    }

    /// Takes out all flows whose deadline has passed at this moment, or whose stretch, and tells them. Their keys are
    /// to be removed. An `Err` comes only if memory ran out: then some of them were taken out, and these are told.
    pub fn pass(&mut self, now: Moment, ended: &mut Vec<EndedFlow>) -> Result<(), AllocError>
        ensures stays { Stays self.old self.new }
        ensures passed { OnOk result (Tells (HasPassed (is_due self.old.times (Some now)) self.old self.new)
            ended.old.items ended.new.items) }
        ensures passing { Tells (IsPassing (is_due self.old.times (Some now)) self.old self.new)
            ended.old.items ended.new.items }
    {
        self.take_out(Some(now), ended)
    }

    /// Takes out all flows, where the input has ended, and tells them. An `Err` comes only if memory ran out: then some
    /// of them were taken out, and these are told.
    pub fn finish(&mut self, ended: &mut Vec<EndedFlow>) -> Result<(), AllocError>
        ensures stays { Stays self.old self.new }
        ensures passed { OnOk result (Tells (HasPassed (is_due self.old.times None) self.old self.new)
            ended.old.items ended.new.items) }
        ensures passing { Tells (IsPassing (is_due self.old.times None) self.old self.new)
            ended.old.items ended.new.items }
    {
        self.take_out(None, ended)
    }

    // Takes out what is due, and tells it.
    fn take_out(
        &mut self,
        now: Option<Moment>,
        ended: &mut Vec<EndedFlow>,
    ) -> Result<(), AllocError>
        ensures stays { Stays self.old self.new }
        ensures passed { OnOk result (Tells (HasPassed (is_due self.old.times now) self.old self.new)
            ended.old.items ended.new.items) }
        ensures passing { Tells (IsPassing (is_due self.old.times now) self.old self.new)
            ended.old.items ended.new.items }
    {
        for place in 0..self.flows.len() {
            self.take_out_at(place, now, ended)?;
        }
        Ok(())
    }

    // Takes out the flow at a place if it is due, and tells it. An `Err` comes only if memory ran out: then nothing has
    // happened.
    fn take_out_at(
        &mut self,
        place: usize,
        now: Option<Moment>,
        ended: &mut Vec<EndedFlow>,
    ) -> Result<(), AllocError>
        ensures stays { Stays self.old self.new }
        ensures ok { OnOk result (Tells (PassesAt (is_due self.old.times now) self.old self.new place)
            ended.old.items ended.new.items) }
        ensures err { OnErr result (IsSame self.old self.new × (ended.new.items ≡ ended.old.items)) }
    {
        let Some(flow) = self.flow_at(place) else {
            return Ok(());
        };
        if !flow.is_due(&self.times, now) {
            return Ok(());
        }
        ended.push(EndedFlow { flow, by: None })?;
        self.let_go(place);
        Ok(())
    }

    // The flow at a place.
    fn flow_at(&self, place: usize) -> Option<FlowRecord>
        ensures within { IfSome result (λ _. place < places_of self.now) }
        ensures found { flow_at (slots_of self.now) place ≡ as_flow result }
    {
        match self.flows.get(place) {
            Some(slot) => *slot,
            None => None,
        }
    }

    // A flow is put to a place, or the place gets none.
    fn put(&mut self, place: usize, slot: Option<FlowRecord>)
        requires { place < places_of self.old }
        ensures { IsPut self.old self.new place slot }
    {
        self.flows[place] = slot;
    }

    // A place is free again.
    fn give_back(&mut self, place: usize)
        ensures stays { IsWithFlows self.old self.new }
        ensures free { GivesBack self.old self.new place }
    {
        if self.left < self.free.len() {
            self.free[self.left] = place;
            self.left += 1;
        }
    }
}
