//! The sessions of a report.

ghost use Rattle.std.specs.Prelude.{◌≡◌, ◌++◌, flat_map, All, OnOk};
ghost use Rattle.key_texts.specs.FlowText.{HasText};
ghost use Rattle.report_text.specs.Report.{session_line};

use plain_map::Pair;
use report_text::{Line, session_text};
use std::alloc::AllocError;

/// A line for each session that is left.
pub fn put_sessions(text: &mut Vec<u8>, pairs: &[Pair]) -> Result<(), AllocError>
    requires { All (λ pair. HasText pair.key) pairs.now }
    ensures { OnOk result (text.new.items ≡ text.old.items ++ flat_map session_line pairs.now) }
{
    let mut line = Line::new();
    for pair in pairs {
        session_text(text, &mut line, pair)?;
    }
    Ok(())
}
