//! The one order of the calls of a closed table.

ghost use Rattle.std.specs.Prelude.{◌≡◌, IfOk};
ghost use Rattle.word_rows.specs.LayoutView.{shape_of};
ghost use Rattle.plain_map.specs.History.{ids_of};
ghost use Rattle.table_model.specs.Order.{order_of};
ghost use Rattle.table_model.specs.Closing.{IsOfARun, closing_with, read_in};

use crate::calls::Closed;
use crate::finding::fill;
use crate::tables::Tables;
use crate::turns::turns;
use closed_words::{Starts, Words};
use plain_map::{CallId, Pending, Record};
use std::alloc::{AllocError, Global};
use std::mem;

/// The names of the calls of a closed table in their one order, from its words, the records of each seat and the calls
/// that had begun, whatever the tables hold before. The only error is want of memory.
pub fn order<W: Words>(
    alloc: Global,
    tables: &mut Tables,
    starts: &Starts,
    words: &W,
    logs: &[Vec<&Record>],
    begun: &[Pending],
) -> Result<Vec<CallId>, AllocError>
    requires { IsOfARun (shape_of starts.now.layout) (W.words words.now) (read_in logs.now) begun.now }
    ensures { IfOk result (λ order. order.items ≡ ids_of (order_of (shape_of starts.now.layout)
        (closing_with (W.words words.now) (read_in logs.now) begun.now))) }
{
    let kept = mem::replace(tables, Tables::new(alloc));
    let Tables {
        found,
        mut progress,
    } = fill(alloc, kept, starts, words, logs)?;
    let closed = Closed {
        starts,
        words,
        logs,
        begun,
    };
    let mut out = Vec::new(alloc);
    turns(&closed, &found, &mut progress, &mut out)?;
    *tables = Tables { found, progress };
    Ok(out)
}
