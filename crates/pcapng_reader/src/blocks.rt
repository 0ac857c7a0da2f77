//! Gives out the packets of a pcapng input, one at a time and in place.

ghost use Rattle.std.specs.Prelude.{◌≡◌, ◌≤◌, ◌+◌, ◌⊎◌, None, ℕ, [], false, true, length, take, drop, Err};
ghost use Rattle.edge_traits.specs.Edge.{Rose, count_after};
ghost use Rattle.capture_faults.specs.declared.fault.CaptureFault.TheVariants.{ReadFault};
ghost use Rattle.capture_faults.specs.declared.any_fault.AnyFault.TheVariants.{Capture};
ghost use Rattle.pcap_reader.specs.declared.stamp.Fraction.TheVariants as Fraction;
ghost use Rattle.pcapng_reader.specs.Reading.{Answers, GivesPacket, HoldsPacket, OfBlocks, UnlessReadFault, stamp_at};

use crate::Section;
use crate::block::{Seen, look};
use crate::clock::Clock;
use crate::long::Awaited;
use crate::told::{Told, told_in};
use crate::waiting::await_packet;
use byte_window::Window;
use capture_faults::{AnyFault, CaptureFault};
use edge_traits::Source;
use pcap_reader::{Item, MOST_PACKETS, Stamp};
use std::marker::Model;

/// A reader of one pcapng input.
#[derive(Drop)]
pub struct BlockReader {
    section: Section,
    window: Window,
    told: Told,
    offset: u64,
    start: u64,
    given: u64,
    ended: bool,
}

impl Model for BlockReader {
    ghost use Rattle.std.specs.Prelude.{◌≤◌, ◌+◌, ◌*◌};
    ghost use Rattle.pcapng_reader.specs.Reading.{OfBlocks, Reading};
    ghost use Rattle.pcapng_reader.specs.Stamps.{stamp_told};
    ghost use Rattle.pcap_reader.specs.declared.stamp.Fraction.TheVariants as Fraction;

    ghost Value = { Reading };

    ghost view = { λ r. record {
      form = OfBlocks r.section;
      fraction = Fraction.Microseconds;
      pending = r.window.unread;
      packet = r.window.last;
      stamp = stamp_told r.told;
      offset = r.offset;
      start = r.start;
      given = r.given;
      ended = r.ended;
    } };

    ghost invariant = { λ r. (r.section.others ≤ 4000000) × (r.offset ≤ (r.given + r.section.others) * 16777216) };
}

impl BlockReader {
    /// A reader of the input whose first bytes the window holds, with what is set before the first block.
    pub fn over(window: Window, section: Section) -> BlockReader
        requires { section.others ≤ 4000000 }
        ensures { result ≡ record {
          form = OfBlocks section;
          fraction = Fraction.Microseconds;
          pending = window.unread;
          packet = [];
          stamp = record { time = None; wire = 0 };
          offset = 0;
          start = 0;
          given = 0;
          ended = false;
        } }
    {
        let mut window = window;
        window.forget();
        BlockReader {
            section,
            window,
            told: Told {
                ticks: None,
                clock: Clock::usual(),
                wire: 0,
            },
            offset: 0,
            start: 0,
            given: 0,
            ended: false,
        }
    }

    /// Reads on to the next packet, or to the ending of the input.
    pub fn next<S: Source>(&mut self, source: &mut S) -> Result<Item, AnyFault>
        requires going { self.old.ended ≡ false }
        requires few { self.old.given ≤ MOST_PACKETS }
        ensures answers { Answers self.old self.new (S.left source.old) (S.left source.new) result }
        ensures read_fault { result ≡ Err (Capture ReadFault) → Rose (S.faults source.old) (S.faults source.new) }
        ensures counted { S.faults source.old ≤ S.faults source.new }

        // The first read that failed ended it, and is told.
        ensures one_failed { result ≡ Err (Capture ReadFault) →
            S.failed source.new ≡ count_after (S.failed source.old) 1 }
        ensures none_failed { UnlessReadFault result (S.failed source.new ≡ S.failed source.old) }

        // The source is not read where the packet that comes next is whole in what is held.
        ensures unasked { HoldsPacket self.old.form self.old.offset self.old.pending → source.new ≡ source.old }
    {
        match await_packet(&mut self.window, &mut self.section, self.offset, source) {
            Ok(
                Awaited {
                    seen,
                    dropped,
                    offset,
                },
            ) => {
                self.offset = offset;
                match seen {
                    Seen::Packet { size, at, count } => {
                        self.give(at, count, size, size - dropped);
                        Ok(Item::Packet)
                    }
                    Seen::Fault(fault) => {
                        self.end();
                        Err(fault)
                    }
                    _ => {
                        let rest = dropped + self.window.unread().len();
                        self.end();
                        Ok(if rest == 0 {
                            Item::End
                        } else {
                            Item::Rest(rest as u32)
                        })
                    }
                }
            }
            Err(_failed) => {
                self.end();
                Err(AnyFault::Capture(CaptureFault::ReadFault))
            }
        }
    }

    /// Gives out the next packet where its block comes next and is whole in what is held. No source is needed.
    ///
    /// Takes no memory. Where it is not, nothing changes: `next` tells what comes.
    pub fn next_held(&mut self) -> bool
        requires going { self.old.ended ≡ false }
        requires few { self.old.given ≤ MOST_PACKETS }
        ensures packet { result ≡ true → GivesPacket self.old self.new [] }
        ensures none { result ≡ false → self.new ≡ self.old }
        // No packet is whole in what is held as the next part.
        ensures not_whole { result ≡ false → ¬ HoldsPacket self.old.form self.old.offset self.old.pending }
    {
        if let Seen::Packet { size, at, count } = look(
            &self.section,
            self.offset,
            self.window.unread(),
        ) {
            self.give(at, count, size, size);
            return true;
        }
        false
    }

    /// The bytes of the packet that was given last; none after an ending.
    pub fn packet(&self) -> &[u8]
        ensures { result.now ≡ self.now.packet }
    {
        self.window.last()
    }

    /// When the packet that was given last was captured, and how long it was.
    pub fn stamp(&self) -> Stamp
        ensures { result ≡ self.now.stamp }
    {
        self.told.stamp()
    }

    /// Where the block of the packet that was given last starts, in bytes from the input's first.
    pub fn start(&self) -> u64
        ensures { result ≡ self.now.start }
    {
        self.start
    }

    /// Whether an end, a rest or a fault was answered.
    pub fn ended(&self) -> bool
        ensures { result ≡ self.now.ended }
    {
        self.ended
    }

    /// Gives out the packet of the block that comes next, of that size, of which so many bytes are held.
    fn give(&mut self, at: usize, count: usize, size: usize, held: usize)
        requires held { held ≤ length self.old.pending }
        requires part { at + count ≤ held }
        requires place { (at ≡ 28) ⊎ (at ≡ 12) }
        requires block { size ≤ 16777216 }
        requires few { self.old.given ≤ MOST_PACKETS }
        ensures { self.new ≡ record self.old {
          pending = drop held self.old.pending;
          packet = take count (drop at self.old.pending);
          stamp = stamp_at self.old.form at self.old.pending;
          offset = self.old.offset + size;
          start = self.old.offset;
          given = self.old.given + 1;
        } }
    {
        self.told = told_in(&self.section, at, self.window.unread());
        self.window.take_part(at, count, held);
        self.start = self.offset;
        self.offset += size as u64;
        self.given += 1;
    }

    /// Gives out nothing more.
    fn end(&mut self)
        ensures { self.new ≡ record self.old { packet = []; ended = true } }
    {
        self.window.forget();
        self.ended = true;
    }
}
