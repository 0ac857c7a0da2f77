//! How the packets of a batch are dealt to the seats.

ghost use Rattle.std.specs.Prelude.{◌≡◌, ◌≤◌, [], IfOk, map, replicate};
ghost use Rattle.totals_runner.specs.Frames.{shares_in};

use packet_adders::Frame;
use std::alloc::{AllocError, Global};

/// The frames of each seat, seat 0 first, each seat's in their order: a packet is its seat's by its number over the
/// whole capture. Each list begins with room for an even part. The only error is want of memory.
pub(crate) fn deal(
    alloc: Global,
    seats: u32,
    frames: &[Frame],
) -> Result<Vec<Vec<Frame>>, AllocError>
    requires some { 1 ≤ seats }
    requires few { seats ≤ 8 }
    ensures { IfOk result (λ shares. map (λ share. share.items) shares.items ≡ shares_in seats frames.now) }
{
    let mut shares = empty_shares(alloc, seats, frames.len() / seats as usize + 1)?;
    for frame in frames {
        let seat = frame.packet.saturating_sub(1) % seats;
        shares[seat as usize].push(*frame)?;
    }
    Ok(shares)
}

// An empty list for each of so many seats, with room for so many frames.
fn empty_shares(alloc: Global, seats: u32, room: usize) -> Result<Vec<Vec<Frame>>, AllocError>
    ensures { IfOk result (λ shares. map (λ share. share.items) shares.items ≡ replicate seats []) }
{
    let mut shares = Vec::with_capacity(alloc, seats as usize)?;
    for _ in 0..seats {
        shares.push(Vec::with_capacity(alloc, room)?)?;
    }
    Ok(shares)
}
