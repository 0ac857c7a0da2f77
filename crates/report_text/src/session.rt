//! The line of a session.

ghost use Rattle.std.specs.Prelude.{◌≡◌, ◌≤◌, ◌++◌, OnOk, OnErr};
ghost use Rattle.key_texts.specs.FlowText.{HasText};
ghost use Rattle.report_text.specs.Report.{session_line};
ghost use Rattle.report_text.specs.Lines.{room, text_in};

use crate::line::Line;
use crate::pieces::{append, begin_line, end_line, put_key, put_named, put_number};
use plain_map::Pair;
use std::alloc::AllocError;

/// Appends the line of a session. It is written in `line` first.
pub fn session_text(out: &mut Vec<u8>, line: &mut Line, pair: &Pair) -> Result<(), AllocError>
    requires { HasText pair.now.key }
    ensures appended { OnOk result (out.new.items ≡ out.old.items ++ session_line pair.now) }
    ensures kept { OnErr result (out.new.items ≡ out.old.items) }
{
    line.clear();
    put_session(line, pair);
    append(out, line)
}

// Appends the line of a session.
fn put_session(out: &mut Line, pair: &Pair)
    requires key { HasText pair.now.key }
    requires space { 160 ≤ room out.old }
    ensures { text_in out.new ≡ text_in out.old ++ session_line pair.now }
{
    begin_line(out, b"session");
    put_key(out, &pair.key);
    put_number(out, pair.value);
    put_named(out, b"bytes", pair.bytes);
    end_line(out);
}
