//! Gives out the records of a savefile, one at a time and in place.

ghost use Rattle.std.specs.Prelude.{◌≡◌, ◌≤◌, ◌+◌, ◌-◌, ◌⊎◌, ℕ, List, [], false, true, length, drop, Option, Some, IfSome, IfOk, IfErr, OnOk, OnErr};
ghost use Rattle.edge_traits.specs.Edge.{Rose, count_after};
ghost use Rattle.byte_window.specs.Window.{Gathers, IsDrained};
ghost use Rattle.pcap_reader.specs.Capture.{HasFileHead, IsCut, IsRemainder, ShowsFault};
ghost use Rattle.pcap_reader.specs.Reading.{GivesNone, GivesRecord, IfEnding, IsAtStart, IsOpenedOn, IsRefusedOn, IsWithinRecords, MatchPacket, OfInput, OnInputFault, OnMemory, OnReadFault, TakesFewer, Took, UnlessReadFault, buffer_length, to_come};
ghost use Rattle.pcap_reader.specs.Stamps.{IsCountedIn};
ghost use Rattle.pcap_reader.specs.Record.{BeginsRecord, IsShown, OnCut, ShowsNext, given_out};

use crate::head::file_head;
use crate::record::{Shown, look};
use crate::stamp::stamp_in;
use crate::{FILE_HEAD, Fraction, Order, RECORD_HEAD, Stamp};
use byte_window::Window;
use capture_faults::CaptureFault;
use edge_traits::{Failed, Source};
use std::alloc::Global;
use std::marker::Model;

/// What a reader answers.
#[derive(Clone, Copy, PartialEq, Eq)]
pub enum Item {
    /// A record was read, whose captured bytes `Reader::packet` gives.
    Packet,
    /// No byte is left.
    End,
    /// That many bytes are left, which are shorter than the record that they begin.
    Rest(u32),
}

/// How many packets a reader of a savefile or of a pcapng input has given at most where it is asked for one more. So
/// many and one more of the greatest length end before byte 2^64.
pub const MOST_PACKETS: u64 = 1_000_000_000_000;

/// A reader of one savefile.
#[derive(Drop)]
pub struct Reader {
    order: Order,
    fraction: Fraction,
    window: Window,
    stamp: Stamp,
    offset: u64,
    given: u64,
    ended: bool,
}

impl Model for Reader {
    ghost use Rattle.std.specs.Prelude.{◌≤◌, ◌+◌, ◌*◌};
    ghost use Rattle.pcap_reader.specs.Reading.{Reading};
    ghost use Rattle.pcap_reader.specs.declared.head.TheConstants.{FILE_HEAD};
    ghost use Rattle.pcap_reader.specs.declared.record.TheConstants.{WHOLE_RECORD};

    ghost Value = { Reading };

    ghost view = { λ r. record {
      order = r.order;
      fraction = r.fraction;
      pending = r.window.unread;
      packet = r.window.last;
      stamp = r.stamp;
      offset = r.offset;
      given = r.given;
      ended = r.ended;
    } };

    ghost invariant = { λ r. r.offset ≤ FILE_HEAD + r.given * WHOLE_RECORD };
}

impl Reader {
    /// Makes the packet buffer, and reads the head of a savefile of this link type, 24 bytes.
    ///
    /// Faults: `Memory`, before anything is read; `ReadFault`, only where the source's count rose;
    /// `ShortHeader`, `Magic`, `Version`, `LinkType`, exactly where the head shows them, in this order.
    /// Source: pcap-savefile(5), per-file header.
    pub fn open<S: Source>(alloc: Global, link: u16, source: &mut S) -> Result<Reader, CaptureFault>
        // The head keeps every rule, and the bytes after it are still to come.
        ensures head { IfOk result (λ reader. OfInput (S.left source.old) (HasFileHead link reader.order)) }
        ensures bytes { IfOk result (λ reader. IfSome (S.left source.old) (λ bytes.
            to_come reader (S.left source.new) ≡ Some (drop FILE_HEAD bytes))) }
        ensures start { IfOk result IsAtStart }
        ensures took { IfOk result (λ reader. Took (S.left source.old) (S.left source.new) (IsOpenedOn link reader)) }

        // The head shows the fault.
        ensures fault { IfErr result (λ fault. OnInputFault fault
            (OfInput (S.left source.old) (λ bytes. ShowsFault link bytes fault))) }
        ensures took_fault { IfErr result (λ fault. OnInputFault fault
            (Took (S.left source.old) (S.left source.new) (IsRefusedOn link fault))) }

        // A read failed, before the head was there.
        ensures read_fault { IfErr result (λ fault. OnReadFault fault
            (Rose (S.faults source.old) (S.faults source.new))) }
        ensures interrupted { IfErr result (λ fault. OnReadFault fault
            (TakesFewer FILE_HEAD (S.left source.old) (S.left source.new))) }

        // Nothing was read.
        ensures memory { IfErr result (λ fault. OnMemory fault (source.new ≡ source.old)) }
        ensures counted { S.faults source.old ≤ S.faults source.new }

        // The first read that failed ended it, and is told.
        ensures one_failed { IfErr result (λ fault. OnReadFault fault
            (S.failed source.new ≡ count_after (S.failed source.old) 1)) }
        ensures none_failed { UnlessReadFault result (S.failed source.new ≡ S.failed source.old) }
    {
        let mut window = Window::new(alloc)?;
        window.hold(FILE_HEAD, source)?;
        Reader::over(link, window)
    }

    /// Makes the packet buffer, and goes on behind these bytes, which were the head of a savefile of this link type.
    ///
    /// Faults: `Memory`; `Magic`, `Version`, `LinkType`, exactly where the head shows them, in this order.
    /// Source: pcap-savefile(5), per-file header.
    pub fn after_head(
        alloc: Global,
        link: u16,
        head: &[u8; FILE_HEAD],
    ) -> Result<Reader, CaptureFault>
        ensures head { IfOk result (λ reader. HasFileHead link reader.order head.now) }
        ensures fraction { IfOk result (λ reader. IsCountedIn reader.order reader.fraction head.now) }
        ensures held { IfOk result (λ reader. reader.pending ≡ []) }
        ensures start { IfOk result IsAtStart }
        ensures fault { IfErr result (λ fault. (fault ≡ CaptureFault.Memory) ⊎ ShowsFault link head.now fault) }
    {
        let window = Window::of(alloc, head)?;
        Reader::over(link, window)
    }

    /// Goes on over a window that holds a savefile of this link type from its first byte on: the head whole, or all
    /// that there is of it.
    ///
    /// Takes no memory. Faults: `ShortHeader`, `Magic`, `Version`, `LinkType`, exactly where the held bytes show them,
    /// in this order.
    /// Source: pcap-savefile(5), per-file header.
    pub fn over(link: u16, mut window: Window) -> Result<Reader, CaptureFault>
        ensures head { IfOk result (λ reader. HasFileHead link reader.order window.unread) }
        ensures fraction { IfOk result (λ reader. IsCountedIn reader.order reader.fraction window.unread) }
        ensures held { IfOk result (λ reader. reader.pending ≡ drop FILE_HEAD window.unread) }
        ensures start { IfOk result IsAtStart }
        ensures fault { IfErr result (ShowsFault link window.unread) }
    {
        let magic = file_head(link, window.unread())?;
        window.skip(FILE_HEAD);
        Ok(Reader {
            order: magic.order,
            fraction: magic.fraction,
            window,
            stamp: Stamp {
                time: None,
                wire: 0,
            },
            offset: FILE_HEAD as u64,
            given: 0,
            ended: false,
        })
    }

    /// Reads on to the next record, or to the ending of the capture.
    ///
    /// Takes no memory. The source is read only where the bytes that are held show neither a whole
    /// record nor an overlong one, and what is taken of it and not given out has room in the buffer.
    /// Faults: `ReadFault`, only where the source's count rose, and then every record that is whole in
    /// the bytes taken was given out before; `RecordLength`, exactly where the record at the reader's
    /// offset shows a captured length above the limit. After an end, a rest or a fault the reader has
    /// ended.
    /// Source: pcap-savefile(5), per-packet header.
    pub fn next<S: Source>(&mut self, source: &mut S) -> Result<Item, CaptureFault>
        requires going { self.old.ended ≡ false }
        requires few { self.old.given ≤ MOST_PACKETS }
        // One record, or none.
        ensures packet { MatchPacket result
            (GivesRecord self.old self.new (to_come self.old (S.left source.old))
            (to_come self.new (S.left source.new)))
            (GivesNone self.old self.new (to_come self.old (S.left source.old))
            (to_come self.new (S.left source.new))) }

        // So it is by what was taken of the source, as if it had told just that.
        ensures took { MatchPacket result
            (Took (S.left source.old) (S.left source.new) (λ taken.
            GivesRecord self.old self.new (to_come self.old (Some taken)) (to_come self.new (Some []))))
            (Took (S.left source.old) (S.left source.new) (λ taken.
            GivesNone self.old self.new (to_come self.old (Some taken)) (to_come self.new (Some [])))) }

        // The bytes still to come, where the source tells them, are a remainder with this ending, and
        // so are those that are held.
        ensures ending { IfEnding result (λ ending. IfSome (to_come self.old (S.left source.old)) (λ bytes.
            IsRemainder self.old.order self.old.offset bytes ending)) }
        ensures held { IfEnding result (IsRemainder self.old.order self.old.offset self.new.pending) }

        // A read failed, and no record is whole in what is held, nor an overlong one shown.
        ensures read_fault { IfErr result (λ fault. OnReadFault fault
            (Rose (S.faults source.old) (S.faults source.new))) }
        ensures interrupted { IfErr result (λ fault. OnReadFault fault (IsCut self.old.order self.new.pending)) }
        ensures counted { S.faults source.old ≤ S.faults source.new }

        // The first read that failed ended it, and is told.
        ensures one_failed { IfErr result (λ fault. OnReadFault fault
            (S.failed source.new ≡ count_after (S.failed source.old) 1)) }
        ensures none_failed { UnlessReadFault result (S.failed source.new ≡ S.failed source.old) }

        // The source is not read where the bytes that are held show what comes.
        ensures unasked { ShowsNext self.old.order self.old.pending → source.new ≡ source.old }

        ensures order { self.new.order ≡ self.old.order }
        ensures fraction { self.new.fraction ≡ self.old.fraction }
        ensures within { IsWithinRecords self.new }
    {
        match await_record(&mut self.window, self.order, source) {
            Ok(Shown::Whole { captured }) => {
                self.give(captured);
                Ok(Item::Packet)
            }
            Ok(Shown::Cut) => {
                let rest = self.window.unread().len();
                self.end();
                Ok(if rest == 0 {
                    Item::End
                } else {
                    Item::Rest(rest as u32)
                })
            }
            Ok(Shown::Overlong { found }) => {
                let offset = self.offset;
                self.end();
                Err(CaptureFault::RecordLength { offset, found })
            }
            Err(_failed) => {
                self.end();
                Err(CaptureFault::ReadFault)
            }
        }
    }

    /// Gives out the next record where it is whole in what is held, for which no source is needed.
    ///
    /// Takes no memory. `false` comes exactly where none is whole there. Then nothing changes, and `next` tells what
    /// comes.
    /// Source: pcap-savefile(5), per-packet header.
    pub fn next_held(&mut self) -> bool
        requires going { self.old.ended ≡ false }
        requires few { self.old.given ≤ MOST_PACKETS }
        // One record of the bytes to come, whatever a source has left of them.
        ensures packet { result ≡ true → (left : Option (List ℕ)) →
            GivesRecord self.old self.new (to_come self.old left) (to_come self.new left) }
        ensures none { result ≡ false → self.new ≡ self.old }
        ensures not_whole { result ≡ false → (captured : ℕ) → ¬ BeginsRecord self.old.order self.old.pending captured }

        ensures order { self.new.order ≡ self.old.order }
        ensures fraction { self.new.fraction ≡ self.old.fraction }
    {
        if let Shown::Whole { captured } = look(self.order, self.window.unread()) {
            self.give(captured);
            return true;
        }
        false
    }

    /// The captured bytes of the record that was given last; none after an ending.
    pub fn packet(&self) -> &[u8]
        ensures { result.now ≡ self.now.packet }
    {
        self.window.last()
    }

    /// When the packet that was given last was captured, and how long it was. It means nothing before a record was
    /// given, or after an ending.
    pub fn stamp(&self) -> Stamp
        ensures { result ≡ self.now.stamp }
    {
        self.stamp
    }

    /// Where the record that was given last starts, in bytes from the file's first. It means nothing before a record
    /// was given, or after an ending.
    pub fn start(&self) -> u64
        ensures { result ≡ self.now.offset - (16 + length self.now.packet) }
    {
        let size = RECORD_HEAD + self.window.last().len();
        self.offset.saturating_sub(size as u64)
    }

    /// Whether an end, a rest or a fault was answered.
    pub fn ended(&self) -> bool
        ensures { result ≡ self.now.ended }
    {
        self.ended
    }

    /// Gives out the record that the held bytes begin with.
    fn give(&mut self, captured: usize)
        requires begins { BeginsRecord self.old.order self.old.pending captured }
        requires few { self.old.given ≤ MOST_PACKETS }
        ensures { self.new ≡ given_out self.old captured }
    {
        self.stamp = stamp_in(self.order, self.fraction, self.window.unread());
        self.window.skip(RECORD_HEAD);
        self.window.take(captured);
        self.offset += (RECORD_HEAD + captured) as u64;
        self.given += 1;
    }

    /// Gives out nothing more.
    fn end(&mut self)
        ensures { self.new ≡ record self.old { packet = []; ended = true } }
    {
        self.window.forget();
        self.ended = true;
    }
}

/// Reads until the held bytes show a whole record or an overlong one, or the source is at its end.
#[tactic(auto, using(crate::proofs::ReaderFacts::awaiting))]
fn await_record<S: Source>(
    window: &mut Window,
    order: Order,
    source: &mut S,
) -> Result<Shown, Failed>
    ensures shown { IfOk result (IsShown order window.new.unread) }
    ensures end { IfOk result (λ seen. OnCut seen (IsDrained window.old.unread window.new.unread (S.left source.old))) }
    ensures bytes { Gathers window.old.unread window.new.unread (S.left source.old) (S.left source.new) }
    ensures cut { OnErr result (IsCut order window.new.unread) }
    ensures room { length window.new.unread ≤ buffer_length }
    ensures failed { OnErr result (Rose (S.faults source.old) (S.faults source.new)) }
    ensures counted { S.faults source.old ≤ S.faults source.new }
    ensures one_failed { OnErr result (S.failed source.new ≡ count_after (S.failed source.old) 1) }
    ensures none_failed { OnOk result (S.failed source.new ≡ S.failed source.old) }
    ensures unasked { ShowsNext order window.old.unread → source.new ≡ source.old }
{
    'records: loop {
        let seen = look(order, window.unread());
        if seen != Shown::Cut || window.fill(source)? == 0 {
            return Ok(seen);
        }
    }
}
