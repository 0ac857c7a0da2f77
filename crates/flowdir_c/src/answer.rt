//! What C is told of a call.

ghost use Rattle.std.specs.Prelude.{◌≡◌};
ghost use Rattle.flowdir_c.specs.Told.{answer_of, kind_of, value_of};

use plain_map::{Key, Pair, Record, Reply};

/// A key, for C: five words.
#[repr(C)]
#[derive(Clone, Copy)]
pub struct FlowKey {
    pub k0: u64,
    pub k1: u64,
    pub k2: u64,
    pub k3: u64,
    pub k4: u64,
}

/// A key with its value and its bytes, for C.
#[repr(C)]
#[derive(Clone, Copy)]
pub struct FlowPair {
    pub key: FlowKey,
    pub value: u64,
    pub bytes: u64,
}

/// A reply, for C.
#[repr(C)]
#[derive(Clone, Copy)]
pub struct Answer {
    /// 0 new, 1 old, 2 no room, 3 gone, 4 found, 5 absent, 6 sum.
    pub kind: u64,
    /// Of an old, gone or found key its value, of a sum the bytes, and else 0.
    pub value: u64,
    /// How many atomic steps the call took. A peek counts none.
    pub steps: u64,
}

/// What became of a call.
#[derive(Clone, Copy)]
pub enum Told {
    /// It was answered.
    Answered(Answer),
    /// The rows of its seat are used up.
    Full,
    /// Its value or amount is too large, or the seat has made as many calls as it can count.
    Bad,
}

impl FlowKey {
    ghost use Rattle.flowdir_c.specs.Told.{key_of};

    /// The key as the table has it.
    pub(crate) fn to_key(&self) -> Key
        ensures { result ≡ key_of self.now }
    {
        Key {
            k0: self.k0,
            k1: self.k1,
            k2: self.k2,
            k3: self.k3,
            k4: self.k4,
        }
    }
}

impl FlowPair {
    ghost use Rattle.flowdir_c.specs.Told.{pair_of};

    /// The pair as the table has it.
    pub(crate) fn to_pair(&self) -> Pair
        ensures { result ≡ pair_of self.now }
    {
        Pair {
            key: self.key.to_key(),
            value: self.value,
            bytes: self.bytes,
        }
    }

    /// A pair as C has it.
    pub(crate) fn of_pair(pair: &Pair) -> FlowPair
        ensures { pair_of result ≡ pair.now }
    {
        FlowPair {
            key: FlowKey {
                k0: pair.key.k0,
                k1: pair.key.k1,
                k2: pair.key.k2,
                k3: pair.key.k3,
                k4: pair.key.k4,
            },
            value: pair.value,
            bytes: pair.bytes,
        }
    }
}

/// A reply as numbers, with so many steps.
pub(crate) fn answer_by(reply: &Reply, steps: u64) -> Answer
    ensures { result ≡ answer_of reply.now steps }
{
    let (kind, value) = match *reply {
        Reply::New => (0, 0),
        Reply::Old(value) => (1, value),
        Reply::NoRoom => (2, 0),
        Reply::Gone(value) => (3, value),
        Reply::Found(value) => (4, value),
        Reply::Absent => (5, 0),
        Reply::Sum(bytes) => (6, bytes),
    };
    Answer { kind, value, steps }
}

/// The reply of a record, and its steps.
pub(crate) fn told_by(made: &Record) -> Told
    ensures { result ≡ Told.Answered (answer_of made.now.reply made.now.steps) }
{
    Told::Answered(answer_by(&made.reply, made.steps))
}
