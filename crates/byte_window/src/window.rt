//! A buffer with the bytes that were read and not yet taken.
//!
//! It is made once. Bytes are taken in place, and those that are left move to the front only where
//! the room behind them is short of a piece.

ghost use Rattle.std.specs.Prelude.{◌≡◌, ◌≤◌, ◌<◌, ◌+◌, [], ◌++◌, false, true, length, take, drop, IfOk, OnErr, OnOk};
ghost use Rattle.std.specs.Io.KnownBytes.{IsAtEnd, Keeps};
ghost use Rattle.edge_traits.specs.Edge.{Rose, count_after};
ghost use Rattle.byte_window.specs.Window.{Fills, Gathers, Held, IsDrained, buffer_length};

use crate::room::{FIRST_LENGTH, make_room};
use edge_traits::{Failed, Source};
use std::alloc::{AllocError, Global};
use std::marker::Model;

/// The least piece that a source is asked for, in bytes.
pub const PIECE: usize = 65_536;
/// The size of the buffer in bytes. It holds many batches of packets, so that one can be taken while another is served.
/// The longest record of a savefile and a piece behind it have room.
pub const CAPACITY: usize = 4_194_304;
/// The most bytes behind which there is room for a piece.
pub const MOST_HELD: usize = CAPACITY - PIECE;

/// The bytes that were read and not yet taken, and those that were taken last.
///
/// Only its makers take memory.
#[derive(Drop)]
pub struct Window {
    buf: Vec<u8>,
    mark: usize,
    stop: usize,
    start: usize,
    end: usize,
}

impl Model for Window {
    ghost use Rattle.std.specs.Prelude.{slice_range};
    ghost use Rattle.byte_window.specs.Window.{Held};

    ghost Value = { Held };

    ghost use Rattle.byte_window.specs.Inside.{IsInPlace};

    ghost view = { λ w. record {
      last = slice_range w.buf.items w.mark w.stop;
      unread = slice_range w.buf.items w.start w.end;
    } };

    ghost invariant = { IsInPlace };
}

impl Window {
    /// An empty window.
    pub fn new(alloc: Global) -> Result<Window, AllocError>
        ensures { IfOk result (λ window. window ≡ record { last = []; unread = [] }) }
    {
        let mut buf = Vec::with_capacity(alloc, CAPACITY)?;
        buf.resize(FIRST_LENGTH, 0u8)?;
        Ok(Window {
            buf,
            mark: 0,
            stop: 0,
            start: 0,
            end: 0,
        })
    }

    /// A window that holds these bytes, which are no more than a piece.
    pub fn of(alloc: Global, bytes: &[u8]) -> Result<Window, AllocError>
        requires { length bytes.now ≤ PIECE }
        ensures { IfOk result (λ window. window ≡ record { last = []; unread = bytes.now }) }
    {
        let mut buf = Vec::with_capacity(alloc, CAPACITY)?;
        buf.extend_from_slice(bytes)?;
        buf.resize(FIRST_LENGTH, 0u8)?;
        Ok(Window {
            buf,
            mark: 0,
            stop: 0,
            start: 0,
            end: bytes.len(),
        })
    }

    /// The bytes not yet taken, which have room in the buffer.
    pub fn unread(&self) -> &[u8]
        ensures bytes { result.now ≡ self.now.unread }
        ensures room { length result.now ≤ buffer_length }
    {
        &self.buf[self.start..self.end]
    }

    /// The bytes that were taken last.
    pub fn last(&self) -> &[u8]
        ensures { result.now ≡ self.now.last }
    {
        &self.buf[self.mark..self.stop]
    }

    /// Forgets what was taken last.
    pub fn forget(&mut self)
        ensures { self.new ≡ record { last = []; unread = self.old.unread } }
    {
        self.stop = self.mark;
    }

    /// Takes that many bytes, of which nothing stays.
    pub fn skip(&mut self, count: usize)
        requires { count ≤ length self.old.unread }
        ensures { self.new ≡ record { last = []; unread = drop count self.old.unread } }
    {
        self.start += count;
        self.mark = self.start;
        self.stop = self.start;
    }

    /// Takes that many bytes, which can then be looked at.
    pub fn take(&mut self, count: usize)
        requires { count ≤ length self.old.unread }
        ensures { self.new ≡ record { last = take count self.old.unread; unread = drop count self.old.unread } }
    {
        self.mark = self.start;
        self.start += count;
        self.stop = self.start;
    }

    /// Takes `all` bytes, of which the `count` from place `at` on can then be looked at.
    pub fn take_part(&mut self, at: usize, count: usize, all: usize)
        requires inside { at + count ≤ all }
        requires held { all ≤ length self.old.unread }
        ensures { self.new ≡ record { last = take count (drop at self.old.unread); unread = drop all self.old.unread } }
    {
        self.mark = self.start + at;
        self.stop = self.mark + count;
        self.start += all;
    }

    /// Drops `count` bytes behind the first `kept`, and forgets what was taken last.
    pub fn remove(&mut self, kept: usize, count: usize)
        requires { kept + count ≤ length self.old.unread }
        ensures { self.new ≡ record {
          last = [];
          unread = take kept self.old.unread ++ drop (kept + count) self.old.unread;
        } }
    {
        if self.start + kept + count == self.end {
            self.end = self.start + kept;
            self.mark = self.start;
            self.stop = self.start;
        } else {
            self.buf
                .copy_within(self.start..self.start + kept, self.start + count);
            self.start += count;
            self.mark = self.start;
            self.stop = self.start;
        }
    }

    /// Reads once, and answers how many bytes came: none at the end of input alone.
    ///
    /// After `Failed` the bytes not yet taken are as before. What was taken last is forgotten.
    pub fn fill<S: Source>(&mut self, source: &mut S) -> Result<usize, Failed>
        requires { length self.old.unread ≤ MOST_HELD }
        ensures bytes { Gathers self.old.unread self.new.unread (S.left source.old) (S.left source.new) }
        ensures count { IfOk result (λ count. length self.old.unread + count ≡ length self.new.unread) }
        ensures end { IfOk result (λ count. count ≡ 0 → IsAtEnd (S.left source.old)) }
        ensures unread { OnErr result (self.new.unread ≡ self.old.unread) }
        ensures forgotten { self.new.last ≡ [] }
        ensures failed { OnErr result (Rose (S.faults source.old) (S.faults source.new)) }
        ensures counted { S.faults source.old ≤ S.faults source.new }
        ensures one_failed { OnErr result (S.failed source.new ≡ count_after (S.failed source.old) 1) }
        ensures none_failed { OnOk result (S.failed source.new ≡ S.failed source.old) }
    {
        let (start, end) = make_room(&mut self.buf, self.start, self.end);
        self.mark = start;
        self.stop = start;
        self.start = start;
        self.end = end;
        let count = read_behind(self.buf.as_mut_slice(), end, source)?;
        self.end = end + count;
        Ok(count)
    }

    /// Reads until `count` bytes are not yet taken, and answers whether they are: `false` where the source ends before.
    ///
    /// The source is not read where so many are held. The first read that fails ends it, and what was read stays.
    pub fn hold<S: Source>(&mut self, count: usize, source: &mut S) -> Result<bool, Failed>
        requires { count ≤ MOST_HELD }
        ensures bytes { Gathers self.old.unread self.new.unread (S.left source.old) (S.left source.new) }
        ensures room { length self.new.unread ≤ buffer_length }
        ensures enough { result ≡ Ok true → count ≤ length self.new.unread }
        ensures short { result ≡ Ok false → length self.new.unread < count }
        ensures end { result ≡ Ok false → IsDrained self.old.unread self.new.unread (S.left source.old) }
        ensures cut { OnErr result (length self.new.unread < count) }

        // Nothing is asked of the source where the bytes are there.
        ensures unasked { count ≤ length self.old.unread → source.new ≡ source.old }

        ensures failed { OnErr result (Rose (S.faults source.old) (S.faults source.new)) }
        ensures counted { S.faults source.old ≤ S.faults source.new }
        ensures one_failed { OnErr result (S.failed source.new ≡ count_after (S.failed source.old) 1) }
        ensures none_failed { OnOk result (S.failed source.new ≡ S.failed source.old) }
    {
        'held: while self.unread().len() < count {
            if self.fill(source)? == 0 {
                return Ok(false);
            }
        }
        Ok(true)
    }
}

/// Reads once, into the bytes from `end` on, and answers how many came.
fn read_behind<S: Source>(buf: &mut [u8], end: usize, source: &mut S) -> Result<usize, Failed>
    requires { end < length buf.old }
    ensures room { IfOk result (λ count. end + count ≤ length buf.old) }
    ensures fills { IfOk result (λ count. Fills (take end buf.old) (take (end + count) buf.new)
        (S.left source.old) (S.left source.new) count) }
    ensures front { OnErr result (take end buf.new ≡ take end buf.old) }
    ensures kept { OnErr result (Keeps (S.left source.old) (S.left source.new)) }
    ensures failed { OnErr result (Rose (S.faults source.old) (S.faults source.new)) }
    ensures counted { S.faults source.old ≤ S.faults source.new }
    ensures one_failed { OnErr result (S.failed source.new ≡ count_after (S.failed source.old) 1) }
    ensures none_failed { OnOk result (S.failed source.new ≡ S.failed source.old) }
{
    let count = source.read(&mut buf[end..])?;
    Ok(count)
}
