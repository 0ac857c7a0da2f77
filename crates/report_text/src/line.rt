//! A text that is being written in place, and takes no memory: one line, or a few.

ghost use Rattle.std.specs.Prelude.{◌≡◌, ◌+◌, ◌≤◌, [], ◌++◌, length, take};
ghost use Rattle.std.specs.Fmt.{decimal};
ghost use Rattle.report_text.specs.declared.line.TheConstants.{LINE_ROOM};

use itoa::write_digits;
use key_texts::{digit_count, write_key};
use plain_map::Key;

/// How long the text can become.
pub(crate) const LINE_ROOM: usize = 512;

/// A place to write lines in, one after another. It is made once and used for as many as there are: each begins it
/// again, so what it held before does not count.
#[derive(Drop)]
pub struct Line {
    // The text stands in the first `length` bytes, and behind it anything.
    bytes: [u8; 512],
    length: usize,
    ghost within: { length ≤ LINE_ROOM },
}

impl Line {
    ghost use Rattle.key_texts.specs.FlowText.{HasText, flow_text};
    ghost use Rattle.report_text.specs.Lines.{room, text_in};

    /// No text yet.
    #[inline(always)]
    #[tactic(auto, unfolding(crate::specs::Lines::room, crate::specs::Lines::text_in))]
    pub fn new() -> Line
        ensures empty { text_in result ≡ [] }
        ensures space { room result ≡ LINE_ROOM }
    {
        Line {
            bytes: [0; 512],
            length: 0,
        }
    }

    /// Begins again, with no text.
    #[inline(always)]
    #[tactic(auto, unfolding(crate::specs::Lines::room, crate::specs::Lines::text_in))]
    pub fn clear(&mut self)
        ensures empty { text_in self.new ≡ [] }
        ensures space { room self.new ≡ LINE_ROOM }
    {
        self.length = 0;
    }

    /// Appends the text.
    #[inline(always)]
    #[tactic(auto, unfolding(crate::specs::Lines::room, crate::specs::Lines::text_in))]
    pub(crate) fn put(&mut self, text: &[u8])
        requires { length text.now ≤ room self.old }
        ensures appended { text_in self.new ≡ text_in self.old ++ text.now }
        ensures taken { room self.old ≤ room self.new + length text.now }
    {
        let end = self.length + text.len();
        self.bytes[self.length..end].copy_from_slice(text);
        self.length = end;
    }

    /// Appends the digits of a number.
    #[inline(always)]
    #[tactic(auto, unfolding(crate::specs::Lines::room, crate::specs::Lines::text_in))]
    pub(crate) fn put_digits(&mut self, number: u64)
        requires { length (decimal number) ≤ room self.old }
        ensures appended { text_in self.new ≡ text_in self.old ++ decimal number }
        ensures taken { room self.old ≤ room self.new + length (decimal number) }
    {
        let end = self.length + digit_count(number);
        write_digits(number, &mut self.bytes, end);
        self.length = end;
    }

    /// Appends the text of a key.
    #[inline(always)]
    #[tactic(auto, unfolding(crate::specs::Lines::room, crate::specs::Lines::text_in))]
    pub(crate) fn put_key(&mut self, key: &Key)
        requires key { HasText key.now }
        requires space { 104 ≤ room self.old }
        ensures appended { text_in self.new ≡ text_in self.old ++ flow_text key.now }
        ensures taken { room self.old ≤ room self.new + 99 }
    {
        self.length = write_key(key, &mut self.bytes, self.length);
    }

    /// All of it.
    #[inline(always)]
    #[tactic(auto, unfolding(crate::specs::Lines::text_in))]
    pub(crate) fn as_bytes(&self) -> &[u8]
        ensures { result.now ≡ text_in self.now }
    {
        &self.bytes[..self.length]
    }
}
