//! What is known of a batch while its packets are added.

ghost use Rattle.std.specs.Prelude.{◌≡◌, ◌<◌, ◌^◌, All, IfOk, map, vec_len};

use packet_adders::Frame;
use std::alloc::{AllocError, Global};

/// What is kept of a batch while it is added.
#[derive(Drop)]
pub struct Dealt {
    /// How many packets came before it.
    pub before: u32,
    /// How many packets it has.
    pub many: u32,
    /// How many of them each seat adds.
    pub counts: Vec<u32>,
}

/// How many packets each seat is to add.
pub(crate) fn counts_of(alloc: Global, shares: &[Vec<Frame>]) -> Result<Vec<u32>, AllocError>
    requires { All (λ share. vec_len share < 2 ^ 32) shares.now }
    ensures { IfOk result (λ counts. counts.items ≡ map (λ share. vec_len share) shares.now) }
{
    let mut counts = Vec::with_capacity(alloc, shares.len())?;
    for share in shares {
        counts.push(share.len() as u32)?;
    }
    Ok(counts)
}
