//! The options of the command, as two tables.
//!
//! A new option is a row here, a row of `specs/Command.antt`, and a field of the plan.

use step_counts::{MOST_DEPTH, MOST_ITEMS, MOST_SEATS};

/// An option `--name` with a number in a range.
#[derive(Clone, Copy)]
pub struct NumberOption<'a> {
    pub name: &'a str,
    pub least: u64,
    pub most: u64,
    /// The number where the words have none.
    pub default: u64,
}

pub const SEATS: NumberOption<'static> = NumberOption {
    name: "seats",
    least: 1,
    most: MOST_SEATS as u64,
    default: 2,
};

pub const ITEMS: NumberOption<'static> = NumberOption {
    name: "items",
    least: 1,
    most: MOST_ITEMS as u64,
    default: 8,
};

pub const DEPTH: NumberOption<'static> = NumberOption {
    name: "depth",
    least: 0,
    most: MOST_DEPTH as u64,
    default: 10,
};

pub const START: NumberOption<'static> = NumberOption {
    name: "start",
    least: 0,
    most: MOST_DEPTH as u64,
    default: 0,
};

pub const SEED: NumberOption<'static> = NumberOption {
    name: "seed",
    least: 0,
    most: u64::MAX,
    default: 0,
};

/// Of the made capture.
pub const NUMBER: NumberOption<'static> = NumberOption {
    name: "number",
    least: 0,
    most: u64::MAX,
    default: 0,
};

/// Of the made capture.
pub const PACKETS: NumberOption<'static> = NumberOption {
    name: "packets",
    least: 0,
    most: 4_000_000,
    default: 1_000,
};

/// How many tags may stand before a protocol. Its number is used only where it is given.
pub const TAGS: NumberOption<'static> = NumberOption {
    name: "tags",
    least: 0,
    most: 4,
    default: 0,
};

/// How many extension heads of IPv6 are looked through.
pub const EXTENSIONS: NumberOption<'static> = NumberOption {
    name: "extensions",
    least: 0,
    most: 8,
    default: 0,
};

/// How many packets a batch has.
pub const BATCH: NumberOption<'static> = NumberOption {
    name: "batch",
    least: 2_048,
    most: 65_536,
    default: 2_048,
};

/// After how many packets the sessions are printed again and again. Its number is used only where it is given.
pub const EVERY: NumberOption<'static> = NumberOption {
    name: "every",
    least: 1,
    most: 4_503_599_627_370_495,
    default: 1,
};

/// How many callers the mode `flows` has if no word says it.
pub const FLOWS_SEATS: u64 = 1;

/// The room of a bucket in the mode `flows`, whose one table has to last, if no word says it.
pub const FLOWS_ITEMS: u64 = MOST_ITEMS as u64;

/// The greatest depth in the mode `flows` if no word says it.
pub const FLOWS_DEPTH: u64 = MOST_DEPTH as u64;

/// How many packets `flows` takes at once at most, where the words have none: what the reader's buffer holds.
pub const FLOWS_BATCH: u64 = 65_536;

/// The options with a number.
pub static NUMBERS: [NumberOption<'static>; 11] = [
    SEATS, ITEMS, DEPTH, START, SEED, NUMBER, PACKETS, TAGS, EXTENSIONS, BATCH, EVERY,
];

/// The options with a text.
pub static TEXTS: [&str; 7] = ["hash", "share", "rows", "schedule", "stop", "link", "calls"];
