//! Mode `check`: a report is read, judged by itself, and the verdict put.

ghost use Rattle.std.specs.Prelude.{◌≡◌, ◌+◌, ◌≤◌, length, Err, IfOk, IfSome, IfNone, MatchOption, OnErr};
ghost use Rattle.edge_traits.specs.Edge.{Rose, count_after};
ghost use Rattle.check_runner.specs.Checked.{HasFound, LeavesChecked, OnNotPut, OnReadFault, Takes, line_of};

use crate::lines::line_of;
use crate::reading::{Reading, read_text};
use edge_traits::{Sink, Source, write_all};
use report_check::check;
use report_reading::TEXT_LIMIT;
use report_told::Verdict;
use std::alloc::{AllocError, Global};

/// What was found of a text.
#[derive(Clone, Copy, PartialEq, Eq)]
pub enum Checked {
    /// Its verdict.
    Judged(Verdict),
    /// It has more bytes than are judged.
    TooLong,
}

/// What ended a check before its line was put whole.
#[derive(Clone, Copy, PartialEq, Eq)]
pub enum Stop {
    /// A read failed.
    ReadFault,
    /// A write failed.
    NotPut,
    /// Memory ran out.
    Memory,
}

/// What was found, and the line that tells it.
#[derive(Drop)]
struct Found {
    checked: Checked,
    line: Vec<u8>,
}

/// Reads the report in the source, and puts one line that tells its verdict, or that it is too long.
///
/// Nothing is put before the verdict is known. The first read or write that fails ends it.
pub fn check_input<S: Source, K: Sink>(
    alloc: Global,
    source: &mut S,
    sink: &mut K,
) -> Result<Checked, Stop>
    ensures leaves { LeavesChecked (S.left source.old) (S.left source.new) (K.put sink.old) (K.put sink.new) result }
    ensures read_fault { result ≡ Err Stop.ReadFault → Rose (S.faults source.old) (S.faults source.new) }
    ensures write_fault { result ≡ Err Stop.NotPut → Rose (K.faults sink.old) (K.faults sink.new) }
    ensures counted { (S.faults source.old ≤ S.faults source.new) × (K.faults sink.old ≤ K.faults sink.new) }

    // Each read and each write that failed ended it, and is answered.
    ensures reads { OnReadFault result (S.failed source.new ≡ count_after (S.failed source.old) 1)
        (S.failed source.new ≡ S.failed source.old) }
    ensures writes { OnNotPut result (K.failed sink.new ≡ count_after (K.failed sink.old) 1)
        (K.failed sink.new ≡ K.failed sink.old) }
{
    match judged(alloc, source) {
        Ok(Some(found)) => match write_all(sink, &found.line) {
            Ok(()) => Ok(found.checked),
            Err(_failed) => Err(Stop::NotPut),
        },
        Ok(None) => Err(Stop::ReadFault),
        Err(AllocError) => Err(Stop::Memory),
    }
}

/// Reads the report in the source and judges it; `None` where a read failed.
fn judged<S: Source>(alloc: Global, source: &mut S) -> Result<Option<Found>, AllocError>
    ensures found { IfOk result (λ found. IfSome found (λ f.
        HasFound f.checked (S.left source.old) (S.left source.new) × (f.line.items ≡ line_of f.checked))) }
    ensures few { Takes (S.left source.old) (S.left source.new) (λ taken. length taken ≤ TEXT_LIMIT + 1) }
    ensures faults { IfOk result (λ found. IfNone found (Rose (S.faults source.old) (S.faults source.new))) }
    ensures counted { S.faults source.old ≤ S.faults source.new }
    ensures failed { IfOk result (λ found. MatchOption found (S.failed source.new ≡ count_after (S.failed source.old) 1)
        (λ _. S.failed source.new ≡ S.failed source.old)) }
    ensures none_failed { OnErr result (S.failed source.new ≡ S.failed source.old) }
{
    let checked = match read_text(alloc, source)? {
        Reading::Whole(text) => Checked::Judged(check(alloc, &text)?),
        Reading::TooLong => Checked::TooLong,
        Reading::Failed => return Ok(None),
    };
    let line = line_of(alloc, &checked)?;
    Ok(Some(Found { checked, line }))
}
