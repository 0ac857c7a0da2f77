//! A text is read whole, where it is no longer than may be judged.

ghost use Rattle.std.specs.Prelude.{◌≡◌, ◌+◌, ◌<◌, ◌≤◌, length, take, IfOk, OnErr, OnOk};
ghost use Rattle.std.specs.Io.KnownBytes.{Consumes, Keeps};
ghost use Rattle.edge_traits.specs.Edge.{IsEndExactly, Rose, count_after};
ghost use Rattle.check_runner.specs.Checked.{IfFailed, IsRead, Takes};

use edge_traits::{Failed, Source};
use report_reading::TEXT_LIMIT;
use std::alloc::{AllocError, Global};

/// A source is asked for so many bytes at a time.
const PIECE: usize = 65_536;

/// What was read of a source.
#[derive(Drop)]
pub(crate) enum Reading {
    /// All its bytes.
    Whole(Vec<u8>),
    /// It has more than `TEXT_LIMIT`, of which one was read.
    TooLong,
    /// A read failed.
    Failed,
}

/// Reads all bytes of the source, where these are no more than `TEXT_LIMIT`. The first read that fails ends it.
pub(crate) fn read_text<S: Source>(alloc: Global, source: &mut S) -> Result<Reading, AllocError>
    ensures read { IfOk result (λ reading. IsRead reading (S.left source.old) (S.left source.new)) }
    ensures few { Takes (S.left source.old) (S.left source.new) (λ taken. length taken ≤ TEXT_LIMIT + 1) }
    ensures faults { IfOk result (λ reading. IfFailed reading (Rose (S.faults source.old) (S.faults source.new))
        (S.faults source.old ≤ S.faults source.new)) }
    ensures counted { S.faults source.old ≤ S.faults source.new }
    ensures failed { IfOk result (λ reading.
        IfFailed reading (S.failed source.new ≡ count_after (S.failed source.old) 1)
        (S.failed source.new ≡ S.failed source.old)) }
    ensures none_failed { OnErr result (S.failed source.new ≡ S.failed source.old) }
{
    let mut text = Vec::new(alloc);
    let mut piece = Vec::with_capacity(alloc, PIECE)?;
    piece.resize(PIECE, 0u8)?;
    while text.len() <= TEXT_LIMIT {
        let most = PIECE.min(TEXT_LIMIT + 1 - text.len());
        match read_front(piece.as_mut_slice(), most, source) {
            Ok(count) => {
                if count == 0 {
                    return Ok(Reading::Whole(text));
                }
                text.extend_from_slice(&piece[..count])?;
            }
            Err(_failed) => return Ok(Reading::Failed),
        }
    }
    Ok(Reading::TooLong)
}

/// Reads once, into the front of the bytes, and answers how many came.
fn read_front<S: Source>(buf: &mut [u8], most: usize, source: &mut S) -> Result<usize, Failed>
    requires { (0 < most) × (most ≤ length buf.old) }
    ensures within { IfOk result (λ count. count ≤ most) }
    ensures bytes { IfOk result (λ count. Consumes (S.left source.old) (S.left source.new) (take count buf.new)) }
    ensures end { IfOk result (λ count. IsEndExactly count (S.left source.old)) }
    ensures unread { OnErr result (Keeps (S.left source.old) (S.left source.new)) }
    ensures failed { OnErr result (Rose (S.faults source.old) (S.faults source.new)) }
    ensures counted { S.faults source.old ≤ S.faults source.new }
    ensures one_failed { OnErr result (S.failed source.new ≡ count_after (S.failed source.old) 1) }
    ensures none_failed { OnOk result (S.failed source.new ≡ S.failed source.old) }
{
    let count = source.read(&mut buf[..most])?;
    Ok(count)
}
