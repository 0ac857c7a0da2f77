//! What the blocks before have set: the section's byte order and its interfaces, and how many blocks gave no packet.

ghost use Rattle.std.specs.Prelude.{◌≡◌, ◌<◌, ◌+◌, [], ◌∷◌, ◌++◌, length, get_or, IfOk};
ghost use Rattle.pcapng_reader.specs.Section.{State, no_interface, opening};

use crate::clock::Clock;
use capture_faults::MOST_INTERFACES;
use pcap_reader::Order;
use std::alloc::{AllocError, Global};
use std::marker::Model;

/// An interface of a section.
#[derive(Clone, Copy, PartialEq, Eq)]
pub struct Interface {
    /// Whether it has the link type that was asked for.
    pub is_asked: bool,
    /// The most bytes of a packet that are captured; 0 is no limit.
    pub snapshot: u32,
    /// How it counts times.
    pub clock: Clock,
}

/// What the blocks before have set.
#[derive(Drop)]
pub struct Section {
    link: u16,
    order: Order,
    interfaces: Vec<Interface>,
    others: u32,
}

impl Model for Section {
    ghost use Rattle.std.specs.Prelude.{◌≤◌, length, vec_capacity, vec_len};
    ghost use Rattle.pcapng_reader.specs.Section.{State};

    ghost Value = { State };

    ghost view = { λ s. record {
      link = s.link;
      order = s.order;
      interfaces = s.interfaces.items;
      others = s.others;
    } };

    ghost invariant = { λ s. (256 ≤ vec_capacity s.interfaces) × (vec_len s.interfaces ≤ 256) };
}

impl Section {
    /// What is set before the first block where this link type is asked for, with room for the interfaces of a section.
    pub fn new(alloc: Global, link: u16) -> Result<Section, AllocError>
        ensures { IfOk result (λ section. section ≡ opening link) }
    {
        Ok(Section {
            link,
            order: Order::Little,
            interfaces: Vec::with_capacity(alloc, MOST_INTERFACES)?,
            others: 0,
        })
    }

    /// The link type that was asked for.
    pub fn link(&self) -> u16
        ensures { result ≡ self.now.link }
    {
        self.link
    }

    /// The order of the bytes of a number.
    pub fn order(&self) -> Order
        ensures { result ≡ self.now.order }
    {
        self.order
    }

    /// How many interfaces the section has.
    pub fn interfaces(&self) -> usize
        ensures { result ≡ length self.now.interfaces }
    {
        self.interfaces.len()
    }

    /// An interface of the section, by its number.
    pub fn interface(&self, number: usize) -> Interface
        requires { number < length self.now.interfaces }
        ensures { result ≡ get_or self.now.interfaces number no_interface }
    {
        self.interfaces[number]
    }

    /// The clock of an interface, by its number. One that is not there has the usual clock.
    pub fn clock(&self, number: usize) -> Clock
        ensures { result ≡ (get_or self.now.interfaces number no_interface).clock }
    {
        if number < self.interfaces.len() {
            self.interfaces[number].clock
        } else {
            Clock::usual()
        }
    }

    /// How many blocks gave no packet.
    pub fn others(&self) -> u32
        ensures { result ≡ self.now.others }
    {
        self.others
    }

    /// Begins a section, by a block that gives no packet.
    pub fn begin(&mut self, order: Order)
        requires { self.old.others < 4000000 }
        ensures { self.new ≡ record self.old { order = order; interfaces = []; others = self.old.others + 1 } }
    {
        self.order = order;
        self.interfaces.clear();
        self.count();
    }

    /// Takes an interface more, by a block that gives no packet.
    pub fn add(&mut self, interface: Interface)
        requires few { length self.old.interfaces < 256 }
        requires others { self.old.others < 4000000 }
        ensures { self.new ≡ record self.old {
          interfaces = self.old.interfaces ++ interface ∷ [];
          others = self.old.others + 1;
        } }
    {
        let Ok(()) = self.interfaces.push(interface) else {
            unreachable!()
        };
        self.count();
    }

    /// Counts a block that gives no packet.
    pub fn count(&mut self)
        requires { self.old.others < 4000000 }
        ensures { self.new ≡ record self.old { others = self.old.others + 1 } }
    {
        self.others += 1;
    }
}
