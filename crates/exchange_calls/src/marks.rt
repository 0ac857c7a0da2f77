//! The entries of a row, which tell of announced ops that they were applied.

ghost use Rattle.std.specs.Prelude.{◌≡◌, ◌+◌, ◌*◌, ◌<◌, ◌^◌};
ghost use Rattle.exchange_calls.specs.Marks.{mark_of};

/// How many seats an entry can tell.
pub const SEATS: u64 = 64;

/// An entry by its words: whose it is and its number, and its reply.
#[derive(Clone, Copy)]
pub struct Mark {
    pub word: u64,
    pub reply: u64,
}

/// The first word of the entry of an op.
#[inline(always)]
pub fn mark_word(seat: u32, number: u64) -> u64
    requires seat { seat < 64 }
    requires few { number < 2 ^ 43 }
    ensures value { result ≡ seat + number * 2 ^ 6 }
{
    seat as u64 + number * SEATS
}

/// The entry with this first word, if there is one.
#[inline(always)]
pub fn mark_in(marks: &[Mark], word: u64) -> Option<Mark>
    ensures { result ≡ mark_of word marks.now }
{
    for mark in marks {
        if mark.word == word {
            return Some(*mark);
        }
    }
    None
}
