//! Packets that one read brought beside the one that was asked for.

ghost use Rattle.std.specs.Prelude.{◌≡◌, ◌≤◌, ◌<◌, ◌+◌, false};

use super::captures::{HEAD, Part, file_of};
use edge_traits::MemorySource;
use pcap_reader::Item;
use pcapng_reader::AnyReader;
use std::alloc::{AllocError, Global};
use std::test::Fail;

/// A section, an interface of Ethernet, two packets of three bytes, a block of statistics, and one more packet.
const BLOCKS: [u8; 172] = [
    0x0a, 0x0d, 0x0d, 0x0a, 28, 0, 0, 0, 0x4d, 0x3c, 0x2b, 0x1a, 1, 0, 0, 0, 0xff, 0xff, 0xff,
    0xff, 0xff, 0xff, 0xff, 0xff, 28, 0, 0, 0, // section
    1, 0, 0, 0, 20, 0, 0, 0, 1, 0, 0, 0, 0, 0, 0, 0, 20, 0, 0, 0, // interface
    6, 0, 0, 0, 36, 0, 0, 0, 0, 0, 0, 0, 0, 0, 0, 0, 0, 0, 0, 0, 3, 0, 0, 0, 3, 0, 0, 0, 97, 98,
    99, 0, 36, 0, 0, 0, // packet
    6, 0, 0, 0, 36, 0, 0, 0, 0, 0, 0, 0, 0, 0, 0, 0, 0, 0, 0, 0, 3, 0, 0, 0, 3, 0, 0, 0, 97, 98,
    99, 0, 36, 0, 0, 0, // packet
    5, 0, 0, 0, 16, 0, 0, 0, 1, 2, 3, 4, 16, 0, 0, 0, // statistics
    6, 0, 0, 0, 36, 0, 0, 0, 0, 0, 0, 0, 0, 0, 0, 0, 0, 0, 0, 0, 3, 0, 0, 0, 3, 0, 0, 0, 97, 98,
    99, 0, 36, 0, 0, 0, // packet
];

/// Takes the next packet that is held, where one comes next and is whole.
fn take_held(reader: &mut AnyReader) -> bool
    requires { (reader.old.ended ≡ false) × (reader.old.given < 9) }
    ensures { (reader.new.ended ≡ false) × (reader.new.given ≤ reader.old.given + 1) }
{
    reader.next_held()
}

/// Whether an input's first packet comes by one read, and a second and a third without another.
fn held_in(alloc: Global, input: &[u8]) -> Result<[bool; 3], AllocError> {
    let mut source = MemorySource::new(alloc, input, 100_000, &[2])?;
    let Ok(mut reader) = AnyReader::open(alloc, 1, &mut source) else {
        return Ok([false; 3]);
    };
    let first = reader.next(&mut source) == Ok(Item::Packet);
    if !first || reader.ended() {
        return Ok([first, false, false]);
    }
    let second = take_held(&mut reader);
    let third = take_held(&mut reader);
    Ok([first, second, third])
}

/// Three records of a savefile are held where they are whole, and the last is not where it is cut. Behind two packets
/// of pcapng a block comes next that has none.
#[test]
fn held_packets_need_no_source(rt: HostRuntime) -> Result<(), Fail> {
    let mut parts = [Part::Syn(1); 4];
    parts[0] = Part::Bytes(&HEAD);
    let mut saved = file_of(rt.alloc(), &parts)?;
    assert_eq!(rt; held_in(rt.alloc(), &saved)?, [true, true, true]);
    saved.pop();
    assert_eq!(rt; held_in(rt.alloc(), &saved)?, [true, true, false]);
    assert_eq!(rt; held_in(rt.alloc(), &BLOCKS)?, [true, true, false]);
    Ok(())
}
