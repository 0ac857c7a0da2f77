//! What a command line asks for.

use crate::plays::{Schedule, Stops};
use hash_bits::Hashing;
use key_texts::CallRule;
use packet_heads::Framing;
use step_counts::SeatRows;
use trace_share::Share;

/// What the program does.
#[derive(Clone, Copy, PartialEq, Eq)]
pub enum Mode {
    /// Reads a capture, calls the table for each packet, and reports.
    Serve,
    /// Serves a capture by one given schedule, step by step.
    Play,
    /// Writes the made capture, and reads nothing.
    Make,
    /// Serves the made capture, with share `flow` and hash `mix`, and prints a summary; reads nothing.
    Trial,
    /// Counts the packets of a capture by class, by adders that share one table. It uses the number of seats, and how
    /// packets are framed.
    Totals,
    /// Reads a report and says whether it is right, or what is wrong with it first. It uses no option.
    Check,
    /// Goes through a capture of any length on one table, and prints the sessions that are left and the counts: at the
    /// end, and after each so many packets where that is asked for. The share is `Flow`, the hash `mix`.
    Flows,
}

/// The mode and its settings. A setting that the mode does not use has its default.
#[derive(Drop)]
pub struct Plan {
    pub mode: Mode,
    /// How many callers or adders the table has, 1 to 8.
    pub seats: u32,
    /// Room of a bucket, in items, 1 to 16.
    pub items: u32,
    /// The greatest number of hash bits that tell two buckets apart, 0 to 12.
    pub depth: u32,
    /// The depth of the table at its opening, 0 to `depth`.
    pub start: u32,
    pub hashing: Hashing,
    /// Which seat makes which call; in `Trial` and in `Flows` it is `Flow`.
    pub share: Share,
    /// The rows of each seat; `None` where they are automatic.
    pub rows: Option<SeatRows>,
    /// Which seat goes when; empty where no word says it.
    pub schedule: Schedule,
    /// Where each seat is stopped, if it is, in the order of the seats.
    pub stops: Stops,
    /// The number of the made capture.
    pub number: u64,
    /// How many packets the made capture has, 0 to 4,000,000.
    pub packets: u32,
    /// How many packets a batch has, 2,048 to 65,536; the last one may have fewer.
    pub batch: u32,
    /// The link type of the capture that is read, and what is looked through in its packets.
    pub framing: Framing,
    /// Which call a packet of the capture makes.
    pub calls: CallRule,
    /// After how many packets the sessions are printed again and again, 1 to 2^52 - 1; `None` where only at the end.
    pub every: Option<u64>,
}
