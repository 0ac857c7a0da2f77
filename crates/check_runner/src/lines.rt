//! The line of a verdict.

ghost use Rattle.std.specs.Prelude.{◌≡◌, ◌++◌, codes, decimal, IfOk};
ghost use Rattle.check_runner.specs.Checked.{line_of};

use crate::checking::Checked;
use itoa::Buffer;
use report_told::Verdict;
use std::alloc::{AllocError, Global};

/// The line that tells what was found.
pub(crate) fn line_of(alloc: Global, checked: &Checked) -> Result<Vec<u8>, AllocError>
    ensures { IfOk result (λ line. line.items ≡ line_of checked.now) }
{
    match checked {
        Checked::TooLong => Vec::from_slice(alloc, b"check limit 4294967295\n"),
        Checked::Judged(Verdict::Yes) => Vec::from_slice(alloc, b"check yes\n"),
        Checked::Judged(Verdict::BadLine { line }) => numbered(alloc, b"check bad line ", *line),
        Checked::Judged(Verdict::Whole { packet }) => numbered(alloc, b"check no whole ", *packet),
        Checked::Judged(Verdict::After { packet }) => numbered(alloc, b"check no after ", *packet),
        Checked::Judged(Verdict::Legal { packet }) => numbered(alloc, b"check no legal ", *packet),
        Checked::Judged(Verdict::Sessions) => Vec::from_slice(alloc, b"check no sessions\n"),
        Checked::Judged(Verdict::Steps { packet }) => numbered(alloc, b"check no steps ", *packet),
    }
}

/// A line of this text and a number.
fn numbered(alloc: Global, text: &[u8], number: u32) -> Result<Vec<u8>, AllocError>
    ensures { IfOk result (λ line. line.items ≡ text.now ++ decimal number ++ codes "\n") }
{
    let mut digits = Buffer::new();
    let mut line = Vec::from_slice(alloc, text)?;
    line.extend_from_slice(digits.format(number).as_bytes())?;
    line.extend_from_slice(b"\n")?;
    Ok(line)
}
