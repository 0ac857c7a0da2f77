//! What holds of all inputs.

ghost use Rattle.std.specs.Prelude.{ℕ, List};
ghost use Rattle.pcapng_reader.specs.Laws.{HasInput, HasOneInput, HasOneStamp, HoldsFront, ReadsInput, ReadsStamps};

use pcap_reader::{capture_front, every_capture, one_capture};

/// A list of bytes has at most one input.
pub fn one_input()
    ensures { (link : ℕ) (bytes : List ℕ) → HasOneInput link bytes }
{
    one_capture();
}

/// Each list of bytes has an input.
pub fn every_input()
    ensures { (link : ℕ) (bytes : List ℕ) → HasInput link bytes }
{
    every_capture();
}

/// The packets of the parts that a list of bytes begins with are the first of its input.
pub fn input_front()
    ensures { (link : ℕ) (bytes : List ℕ) → HoldsFront link bytes }
{
    capture_front();
    one_input();
}

/// What a reader gives from its opening to an ending are the packets and the ending of the input that was taken of its
/// source, however the reads were cut.
pub fn reads_input()
    ensures { ReadsInput }
{}

/// What a reader tells of a packet that it gives is that packet's stamp in the input.
pub fn reads_stamps()
    ensures { ReadsStamps }
{}

/// A packet of an input has at most one stamp.
pub fn one_stamp()
    ensures { (link : ℕ) (bytes : List ℕ) → HasOneStamp link bytes }
{}
