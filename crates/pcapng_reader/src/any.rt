//! A reader of a savefile or of a pcapng input, by its first bytes.

ghost use Rattle.std.specs.Prelude.{◌≡◌, ◌≤◌, [], false, true, length, drop, Err, IfOk, IfErr, OnErr};
ghost use Rattle.edge_traits.specs.Edge.{Rose, count_after};
ghost use Rattle.capture_faults.specs.declared.fault.CaptureFault.TheVariants.{Memory, ReadFault};
ghost use Rattle.pcap_reader.specs.Reading.{Took};
ghost use Rattle.capture_faults.specs.declared.any_fault.AnyFault.TheVariants.{Capture};
ghost use Rattle.pcap_reader.specs.Capture.{ShowsFault};
ghost use Rattle.pcapng_reader.specs.Section.{opening};
ghost use Rattle.pcapng_reader.specs.Input.{IsPcapng};
ghost use Rattle.pcapng_reader.specs.Inner.{reading_of};
ghost use Rattle.pcapng_reader.specs.Reading.{Answers, GivesPacket, HoldsPacket, IsAtStart, IsCounted, IsOpened, IsOpenedOn, OnRefused, UnlessReadFault, head_length};

use crate::Section;
use crate::block::begins_section;
use crate::blocks::BlockReader;
use byte_window::Window;
use capture_faults::{AnyFault, CaptureFault};
use edge_traits::Source;
use pcap_reader::{FILE_HEAD, Item, MOST_PACKETS, Reader, Stamp};
use std::alloc::Global;
use std::marker::Model;

/// A reader of one input.
#[derive(Drop)]
pub struct AnyReader {
    inner: Inner,
}

/// The reader of its format.
#[derive(Drop)]
enum Inner {
    Savefile(Reader),
    Blocks(BlockReader),
}

impl Model for AnyReader {
    ghost use Rattle.pcapng_reader.specs.Reading.{Reading};

    ghost Value = { Reading };

    ghost use Rattle.pcapng_reader.specs.Inner.{reading_of};

    ghost view = { λ r. reading_of r.inner };
}

impl AnyReader {
    /// Makes the packet buffer and room for a section's interfaces, and reads the first 24 bytes of an input, which
    /// show its format.
    ///
    /// Where the first four are a section block's type, the input is pcapng, and otherwise a savefile, which must have
    /// this link type.
    /// Faults, each a `Capture`: `Memory`, before anything is read; `ReadFault`, only where the source's count rose;
    /// `ShortHeader`, exactly where the input ends within 24 bytes; `Magic`, `Version` and `LinkType`, exactly where
    /// the head of a savefile shows them, in this order.
    /// Source: draft-ietf-opsawg-pcapng, 4.1; pcap-savefile(5), per-file header.
    pub fn open<S: Source>(alloc: Global, link: u16, source: &mut S) -> Result<AnyReader, AnyFault>
        // What was taken shows the form, and what is not the head is held.
        ensures took { IfOk result (λ reader. Took (S.left source.old) (S.left source.new) (IsOpenedOn link reader)) }
        ensures start { IfOk result IsAtStart }

        // What was taken shows the fault, or the input is shorter than a head.
        ensures refused { IfErr result (λ fault. OnRefused link fault (S.left source.old) (S.left source.new)) }
        ensures memory { result ≡ Err (Capture Memory) → source.new ≡ source.old }
        ensures read_fault { result ≡ Err (Capture ReadFault) → Rose (S.faults source.old) (S.faults source.new) }
        ensures counted { S.faults source.old ≤ S.faults source.new }

        // The first read that failed ended it, and is told.
        ensures one_failed { result ≡ Err (Capture ReadFault) →
            S.failed source.new ≡ count_after (S.failed source.old) 1 }
        ensures none_failed { UnlessReadFault result (S.failed source.new ≡ S.failed source.old) }
    {
        let mut window = Window::new(alloc)?;
        let section = Section::new(alloc, link)?;
        match window.hold(FILE_HEAD, source) {
            Ok(true) => {
                let inner = inner_of(link, window, section)?;
                Ok(AnyReader { inner })
            }
            Ok(false) => Err(AnyFault::Capture(CaptureFault::ShortHeader {
                have: window.unread().len() as u32,
            })),
            Err(_failed) => Err(AnyFault::Capture(CaptureFault::ReadFault)),
        }
    }

    /// Reads on to the next packet, or to the ending of the input.
    ///
    /// Takes no memory. A packet of an interface of another link type is given as an empty list of bytes.
    /// Faults, each exactly where the block or record at the reader's offset shows it: of a savefile
    /// `Capture(RecordLength)`, and of pcapng all that are no `Capture`; and `Capture(ReadFault)`, only where the
    /// source's count rose. After an end, a rest or a fault the reader has ended.
    /// Source: draft-ietf-opsawg-pcapng, 3.1 and 4.1 to 4.4; pcap-savefile(5), per-packet header.
    pub fn next<S: Source>(&mut self, source: &mut S) -> Result<Item, AnyFault>
        requires going { self.old.ended ≡ false }
        requires few { self.old.given ≤ MOST_PACKETS }
        ensures answers { Answers self.old self.new (S.left source.old) (S.left source.new) result }
        ensures read_fault { result ≡ Err (Capture ReadFault) → Rose (S.faults source.old) (S.faults source.new) }
        ensures counted { S.faults source.old ≤ S.faults source.new }

        // The first read that failed ended it, and is told.
        ensures one_failed { result ≡ Err (Capture ReadFault) →
            S.failed source.new ≡ count_after (S.failed source.old) 1 }
        ensures none_failed { UnlessReadFault result (S.failed source.new ≡ S.failed source.old) }

        // The source is not read where the packet that comes next is whole in what is held.
        ensures unasked { HoldsPacket self.old.form self.old.offset self.old.pending → source.new ≡ source.old }
    {
        match &mut self.inner {
            Inner::Savefile(reader) => match reader.next(source) {
                Ok(item) => Ok(item),
                Err(fault) => Err(AnyFault::Capture(fault)),
            },
            Inner::Blocks(reader) => reader.next(source),
        }
    }

    /// Gives out the next packet where it comes next and is whole in what is held. No source is needed.
    ///
    /// Takes no memory. `false` comes exactly where no packet comes next and is whole there. Then nothing changes, and
    /// `next` tells what comes.
    pub fn next_held(&mut self) -> bool
        requires going { self.old.ended ≡ false }
        requires few { self.old.given ≤ MOST_PACKETS }
        ensures packet { result ≡ true → GivesPacket self.old self.new [] }
        ensures none { result ≡ false → self.new ≡ self.old }
        // No packet is whole in what is held as the next part.
        ensures not_whole { result ≡ false → ¬ HoldsPacket self.old.form self.old.offset self.old.pending }
    {
        match &mut self.inner {
            Inner::Savefile(reader) => reader.next_held(),
            Inner::Blocks(reader) => reader.next_held(),
        }
    }

    /// The bytes of the packet that was given last; none after an ending.
    pub fn packet(&self) -> &[u8]
        ensures { result.now ≡ self.now.packet }
    {
        match &self.inner {
            Inner::Savefile(reader) => reader.packet(),
            Inner::Blocks(reader) => reader.packet(),
        }
    }

    /// When the packet that was given last was captured, in nanoseconds since 1970, and how long it was. It means
    /// nothing before a packet was given, or after an ending.
    ///
    /// Source: pcap-savefile(5), per-packet header; draft-ietf-opsawg-pcapng, 4.2 (if_tsresol, if_tsoffset), 4.3, 4.4.
    pub fn stamp(&self) -> Stamp
        ensures { result ≡ self.now.stamp }
    {
        match &self.inner {
            Inner::Savefile(reader) => reader.stamp(),
            Inner::Blocks(reader) => reader.stamp(),
        }
    }

    /// Where the record or block of the packet that was given last starts, in bytes from the input's first. It means
    /// nothing before a packet was given, or after an ending.
    pub fn start(&self) -> u64
        ensures { result ≡ self.now.start }
    {
        match &self.inner {
            Inner::Savefile(reader) => reader.start(),
            Inner::Blocks(reader) => reader.start(),
        }
    }

    /// Whether an end, a rest or a fault was answered.
    pub fn ended(&self) -> bool
        ensures { result ≡ self.now.ended }
    {
        match &self.inner {
            Inner::Savefile(reader) => reader.ended(),
            Inner::Blocks(reader) => reader.ended(),
        }
    }
}

/// The reader of the format that the held bytes show, of which there are as many as a file head has.
fn inner_of(link: u16, window: Window, section: Section) -> Result<Inner, CaptureFault>
    requires whole { FILE_HEAD ≤ length window.unread }
    requires opening { section ≡ opening link }
    ensures form { IfOk result (λ inner. IsOpened link (reading_of inner).form window.unread) }
    ensures counted { IfOk result (λ inner.
        IsCounted (reading_of inner).form (reading_of inner).fraction window.unread) }
    ensures held { IfOk result (λ inner.
        (reading_of inner).pending ≡ drop (head_length (reading_of inner).form) window.unread) }
    ensures start { IfOk result (λ inner. IsAtStart (reading_of inner)) }
    ensures other { OnErr result (¬ IsPcapng window.unread) }
    ensures fault { IfErr result (λ fault. ShowsFault link window.unread fault) }
{
    if begins_section(window.unread()) {
        return Ok(Inner::Blocks(BlockReader::over(window, section)));
    }
    let reader = Reader::over(link, window)?;
    Ok(Inner::Savefile(reader))
}
