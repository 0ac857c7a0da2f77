//! An update announces itself.
//!
//! **Words**: an op row of the seat's own, which nobody reads before it is announced; then the seat's announcement.
//! **Keeps**: an announced op row is whole and never changes, so that whoever finds the announcement may load the row
//! word by word.
//! **Steps**: `OP_WORDS + 1`, all of them stores.

ghost use Rattle.std.specs.Prelude.{◌≡◌, ◌+◌, ◌<◌, ◌^◌};
ghost use Rattle.plain_map.specs.declared.full.FullKind.TheVariants.{OpRows};
ghost use Rattle.word_rows.specs.Places.{place};
ghost use Rattle.word_rows.specs.declared.addresses.Address.TheVariants.{OpWord};
ghost use Rattle.word_rows.specs.OpWords.{words_of_op};
ghost use Rattle.table_model.specs.Setup.{next_number};
ghost use Rattle.table_model.specs.Phases.{Announce, FindRoot, StoreOp};
ghost use Rattle.table_model.specs.declared.rounds.Aim.TheVariants.{ForFirstRound};
ghost use Rattle.table_model.specs.Asks.{op_row_of};
ghost use Rattle.seat_calls.specs.Going.{later, went};
ghost use Rattle.seat_calls.specs.Desks.{IsOf};

use crate::desk::Desk;
use crate::runs::store_run;
use crate::steps::Steps;
use step_counts::{OP_WORDS, SeatRows};

/// Stores the words of the seat's own op.
#[inline(always)]
pub fn store_op<S: Steps>(steps: &mut S, start: u64, op: &[u64; OP_WORDS])
    requires phase { (S.now steps.old).phase ≡ StoreOp 0 }
    requires start { start ≡
        place (S.now steps.old).setup.shape
        (OpWord (next_number (S.now steps.old).setup (S.now steps.old).seat OpRows
        (S.now steps.old).account.used) 0) }
    requires few { start < 2 ^ 63 }
    requires op { op.now ≡ words_of_op (op_row_of (S.now steps.old).flight) }
    ensures { S.now steps.new ≡ later (S.now steps.old) OP_WORDS Announce }
{
    store_run(steps, start, op);
}

/// Stores the seat's own op, and its announcement.
#[tactic(auto, unfolding(table_model::specs::Setup::next_number))]
#[inline(always)]
pub fn announce<S: Steps>(steps: &mut S, desk: &Desk, used: &mut SeatRows, op: &[u64; OP_WORDS])
    requires phase { (S.now steps.old).phase ≡ StoreOp 0 }
    requires desk { IsOf (S.now steps.old) desk.now }
    requires used { used.old ≡ (S.now steps.old).account.used }
    requires op { op.now ≡ words_of_op (op_row_of (S.now steps.old).flight) }
    ensures used { used.new ≡ record used.old { op_rows = used.old.op_rows + 1 } }
    ensures goes { S.now steps.new ≡ went (S.now steps.old) used.new (OP_WORDS + 1) (FindRoot ForFirstRound) }
{
    steps.stands();
    let row = desk.first.op_rows + used.op_rows;
    store_op(steps, desk.layout.op_word(row, 0), op);
    steps.stands();
    // One store shows the whole row. From here on any seat may carry the call out.
    steps.store(desk.layout.announcement(desk.seat), row + 1);
    used.op_rows += 1;
}
