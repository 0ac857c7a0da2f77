//! What a play is told: which seat goes when, and which seat is stopped.

ghost use Rattle.std.specs.Prelude.{◌≡◌, ℕ, List, Option};
ghost use Rattle.command_line.specs.declared.plays.Segment.{Segment};

use std::marker::Model;

/// So many slots of a seat, or all that it needs to the end of its calls.
#[derive(Clone, Copy, PartialEq, Eq)]
pub struct Segment {
    pub seat: u32,
    /// `None` to the end of the seat's calls.
    pub slots: Option<u32>,
}

/// The segments of a play, one after the other. Contracts see the list of them.
#[derive(Drop)]
pub struct Schedule {
    segments: Vec<Segment>,
}

impl Model for Schedule {
    ghost Value = { List Segment };

    ghost view = { λ s. s.segments.items };
}

impl Schedule {
    /// The segments in this order.
    pub fn new(segments: Vec<Segment>) -> Schedule
        ensures { result ≡ segments.items }
    {
        Schedule { segments }
    }

    /// The segments.
    pub fn as_slice(&self) -> &[Segment]
        ensures { result.now ≡ self.now }
    {
        self.segments.as_slice()
    }
}

/// How many steps each seat may take, in the order of the seats. Contracts see the list of them.
#[derive(Drop)]
pub struct Stops {
    steps: Vec<Option<u32>>,
}

impl Model for Stops {
    ghost Value = { List (Option ℕ) };

    ghost view = { λ s. s.steps.items };
}

impl Stops {
    /// A place for each seat, `None` where it is not stopped.
    pub fn new(steps: Vec<Option<u32>>) -> Stops
        ensures { result ≡ steps.items }
    {
        Stops { steps }
    }

    /// A place for each seat, `None` where it is not stopped.
    pub fn as_slice(&self) -> &[Option<u32>]
        ensures { result.now ≡ self.now }
    {
        self.steps.as_slice()
    }
}
