//! Adds to the totals of three classes, and what an adder answers.

/// The totals of three classes of packets.
#[derive(Clone, Copy, PartialEq, Eq)]
pub struct Totals {
    /// How many packets each class has.
    pub counts: [u64; 3],
    /// How many bytes each class has.
    pub bytes: [u64; 3],
}

/// One packet to be added to its class.
#[derive(Clone, Copy, PartialEq, Eq)]
pub struct Add {
    /// The packet's number, which no step reads.
    pub packet: u32,
    /// Its class, below 3.
    pub class: u32,
    /// Its length in bytes, at most 262,144.
    pub length: u32,
}

/// What an adder answers of an add that has ended.
#[derive(Clone, Copy, PartialEq, Eq)]
pub struct Added {
    pub seat: u32,
    /// The add's number among those of its seat, from 1.
    pub number: u32,
    pub add: Add,
    /// The count of the add's class just after it.
    pub count: u64,
    /// How many atomic steps the add took.
    pub steps: u64,
    /// Of each seat, how many of its adds had ended when the add began; 0 where there is no seat.
    pub seen: [u32; 8],
}

/// The three words of an op row, or zeros where a seat has announced nothing.
#[derive(Clone, Copy, PartialEq, Eq)]
pub struct Op {
    pub number: u64,
    pub class: u64,
    pub length: u64,
}
