//! What a seat asks of the words, and what may happen in a table.

use plain_map::Call;
use word_rows::Address;

/// What a seat does next to the words of a table.
#[derive(Clone, Copy, PartialEq, Eq)]
pub enum Ask {
    /// Nothing: no call is going on.
    Nothing,
    /// Load the word at this address.
    Load(Address),
    /// Store this word there.
    Store(Address, u64),
    /// Put the third there, where the word is the second.
    Exchange(Address, u64, u64),
}

/// The same, with words by their numbers. A word is given by its number.
#[derive(Clone, Copy, PartialEq, Eq)]
pub enum Action {
    /// Load this word.
    Load(u64),
    /// Store the second in the first.
    Store(u64, u64),
    /// Put the third in the first, where that holds the second.
    Exchange(u64, u64, u64),
    /// Nothing: no call is going on.
    Finished,
}

/// A word, and where it is stored.
#[derive(Clone, Copy, PartialEq, Eq)]
pub struct Put {
    pub address: Address,
    pub word: u64,
}

/// One seat takes one step.
#[derive(Clone, Copy, PartialEq, Eq)]
pub struct Event {
    /// Below the number of seats.
    pub seat: u32,
    /// For an idle seat, the packet and the call that it begins.
    pub begin: Option<(u32, Call)>,
}

impl Event {
    ghost use Rattle.std.specs.Prelude.{◌≡◌, is_some};

    /// Whether a call begins.
    pub fn begins(&self) -> bool
        ensures { result ≡ is_some self.now.begin }
    {
        self.begin.is_some()
    }
}
