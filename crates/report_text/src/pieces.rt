//! The pieces of a line. No piece takes memory.

ghost use Rattle.std.specs.Prelude.{◌≡◌, ◌+◌, ◌≤◌, [], ◌∷◌, ◌++◌, decimal, length, OnOk, OnErr};
ghost use Rattle.key_texts.specs.FlowText.{HasText, flow_text};
ghost use Rattle.report_text.specs.Lines.{room, text_in, Begins, Ends, Puts};

use crate::line::Line;
use itoa::Integer;
use plain_map::Key;
use std::alloc::AllocError;

/// A number whose text is what `decimal` says.
pub trait Number: Integer {
    /// The number in 64 bits.
    fn wide(self) -> u64
        ensures text { Self.text self ≡ decimal result }
        ensures short { length (Self.text self) ≤ Self.MAX_STR_LEN };
}

impl Number for u16 {
    #[inline(always)]
    fn wide(self) -> u64 {
        u64::from(self)
    }
}

impl Number for u32 {
    #[inline(always)]
    fn wide(self) -> u64 {
        u64::from(self)
    }
}

impl Number for u64 {
    #[inline(always)]
    fn wide(self) -> u64 {
        self
    }
}

/// Appends a text to another. The only error is want of memory, after which that is as it was.
pub fn append(out: &mut Vec<u8>, line: &Line) -> Result<(), AllocError>
    ensures appended { OnOk result (out.new.items ≡ out.old.items ++ text_in line.now) }
    ensures kept { OnErr result (out.new.items ≡ out.old.items) }
{
    out.extend_from_slice(line.as_bytes())
}

/// Begins a line with its first word.
#[inline(always)]
pub fn begin_line(out: &mut Line, first: &[u8])
    requires { length first.now ≤ room out.old }
    ensures begins { Begins (text_in out.old) first.now (text_in out.new) }
    ensures taken { room out.old ≤ room out.new + length first.now }
{
    put_text(out, first);
}

/// Ends a line.
#[inline(always)]
pub fn end_line(out: &mut Line)
    requires { 1 ≤ room out.old }
    ensures ends { Ends (text_in out.old) (text_in out.new) }
    ensures taken { room out.old ≤ room out.new + 1 }
{
    put_text(out, b"\n");
}

/// Appends a word.
#[inline(always)]
pub fn put_word(out: &mut Line, word: &[u8])
    requires { length word.now + 1 ≤ room out.old }
    ensures puts { Puts (text_in out.old) (word.now ∷ []) (text_in out.new) }
    ensures taken { room out.old ≤ room out.new + length word.now + 1 }
{
    put_text(out, b" ");
    put_text(out, word);
}

/// Appends the text of a key as a word.
#[inline(always)]
pub fn put_key(out: &mut Line, key: &Key)
    requires key { HasText key.now }
    requires space { 105 ≤ room out.old }
    ensures puts { Puts (text_in out.old) (flow_text key.now ∷ []) (text_in out.new) }
    ensures taken { room out.old ≤ room out.new + 100 }
{
    put_text(out, b" ");
    out.put_key(key);
}

/// Appends a number as a word.
#[inline(always)]
pub fn put_number<I: Number>(out: &mut Line, number: I)
    requires { I.MAX_STR_LEN + 1 ≤ room out.old }
    ensures puts { Puts (text_in out.old) (I.text number ∷ []) (text_in out.new) }
    ensures taken { room out.old ≤ room out.new + I.MAX_STR_LEN + 1 }
{
    put_text(out, b" ");
    put_digits(out, number);
}

/// Appends a name and a number.
#[inline(always)]
pub fn put_named<I: Number>(out: &mut Line, name: &[u8], number: I)
    requires { length name.now + I.MAX_STR_LEN + 2 ≤ room out.old }
    ensures puts { Puts (text_in out.old) (name.now ∷ I.text number ∷ []) (text_in out.new) }
    ensures taken { room out.old ≤ room out.new + length name.now + I.MAX_STR_LEN + 2 }
{
    put_word(out, name);
    put_number(out, number);
}

/// Appends the digits of a number.
#[inline(always)]
pub fn put_digits<I: Number>(out: &mut Line, number: I)
    requires { I.MAX_STR_LEN ≤ room out.old }
    ensures appended { text_in out.new ≡ text_in out.old ++ I.text number }
    ensures taken { room out.old ≤ room out.new + I.MAX_STR_LEN }
{
    out.put_digits(number.wide());
}

/// Appends the text.
#[inline(always)]
pub fn put_text(out: &mut Line, text: &[u8])
    requires { length text.now ≤ room out.old }
    ensures appended { text_in out.new ≡ text_in out.old ++ text.now }
    ensures taken { room out.old ≤ room out.new + length text.now }
{
    out.put(text);
}
