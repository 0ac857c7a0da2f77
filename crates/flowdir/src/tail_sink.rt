//! The last bytes of a report, as they pass.

use edge_traits::{Failed, Sink};
use std::str;

/// How many bytes are kept: more than the last lines of a report of flows have.
const KEPT: usize = 512;

/// The last bytes that passed. At first they are blanks.
#[derive(Clone, Copy)]
struct Tail {
    kept: [u8; KEPT],
}

impl Tail {
    /// Keeps the last of these bytes behind those that were kept.
    fn keep(&mut self, bytes: &[u8]) {
        let count = bytes.len().min(KEPT);
        self.kept.rotate_left(count);
        let (_, last) = bytes.split_at(bytes.len() - count);
        self.kept[KEPT - count..].copy_from_slice(last);
    }
}

/// A sink that hands on to another one, and keeps the last bytes that it took.
#[derive(Drop)]
pub struct TailSink<K> {
    sink: K,
    tail: Tail,
}

impl<K> TailSink<K> {
    /// One that hands on to this sink, and has kept nothing.
    pub fn new(sink: K) -> TailSink<K> {
        TailSink {
            sink,
            tail: Tail { kept: [b' '; KEPT] },
        }
    }

    /// How many calls were answered `noroom`, by the last line of counts of a report of flows.
    pub fn no_room(&self) -> Option<u64> {
        let text = str::from_utf8(&self.tail.kept).ok()?;
        let (_, behind) = text.rsplit_once(" noroom ")?;
        let (number, _) = behind.split_once(' ')?;
        number.parse().ok()
    }
}

impl<K: Sink> Sink for TailSink<K> {
    ghost put = { λ s. K.put s.sink };

    ghost faults = { λ s. K.faults s.sink };

    ghost failed = { λ s. K.failed s.sink };

    fn write(&mut self, bytes: &[u8]) -> Result<usize, Failed> {
        let count = self.sink.write(bytes)?;
        let (front, _) = bytes.split_at(count);
        self.tail.keep(front);
        Ok(count)
    }
}
