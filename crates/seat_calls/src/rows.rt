//! The legs of a try at whole rows.

ghost use Rattle.std.specs.Prelude.{◌≡◌, ◌+◌, ◌<◌, ◌≤◌, ◌^◌, List, Option, Some, length};
ghost use Rattle.step_counts.specs.StepCounts.{bucket_row_words};
ghost use Rattle.plain_map.specs.declared.full.FullKind.TheVariants.{BucketRows};
ghost use Rattle.word_rows.specs.BucketWords.{SpellSomeBucket};
ghost use Rattle.table_model.specs.Setup.{next_number, settings_of};
ghost use Rattle.table_model.specs.Phases.{BucketTry, TryExchange, TryStore};
ghost use Rattle.bucket_states.specs.declared.ops.Op.{Op};
ghost use Rattle.table_model.specs.declared.rounds.Round.{Round};
ghost use Rattle.table_model.specs.Fits.{Makes};
ghost use Rattle.seat_calls.specs.Going.{later};
ghost use Rattle.seat_calls.specs.Desks.{IsOf};
ghost use Rattle.seat_calls.specs.Rows.{IsReading, row_then};
ghost use Rattle.seat_calls.specs.Tries.{IsStoring};

use crate::desk::Desk;
use crate::runs::{load_run, store_run};
use crate::steps::Steps;

/// Loads a bucket row: that of a bucket try, of a bucket of an op, or of the last look.
#[inline(always)]
pub fn load_row<S: Steps>(steps: &mut S, desk: &Desk, row: u64, words: &mut [u64])
    requires reading { IsReading (S.now steps.old).phase row }
    requires desk { IsOf (S.now steps.old) desk.now }
    requires words { length words.old ≡ bucket_row_words (settings_of (S.now steps.old).setup) }
    ensures goes { S.now steps.new ≡ later (S.now steps.old) (bucket_row_words (settings_of (S.now steps.old).setup))
        (row_then (S.now steps.old).setup (S.now steps.old).seat (S.now steps.old).flight
        (S.now steps.old).phase words.new) }
    ensures spelled { SpellSomeBucket (settings_of (S.now steps.old).setup) words.new }
    ensures makes { Makes (S.now steps.old).setup
        (row_then (S.now steps.old).setup (S.now steps.old).seat (S.now steps.old).flight
        (S.now steps.old).phase words.new) }
    ensures len { length words.new ≡ length words.old }
{
    steps.stands();
    let start = desk.bucket_row(row);
    load_run(steps, start, words);
}

/// Stores the row of a bucket try, whose number is given.
#[tactic(auto, unfolding(table_model::specs::Setup::next_number))]
#[inline(always)]
pub fn store_row<S: Steps>(steps: &mut S, desk: &Desk, row: u64, words: &[u64])
    requires storing { IsStoring (S.now steps.old) words.now }
    requires desk { IsOf (S.now steps.old) desk.now }
    requires row { row ≡
        next_number (S.now steps.old).setup (S.now steps.old).seat BucketRows (S.now steps.old).account.used }
    requires words { length words.now ≡ bucket_row_words (settings_of (S.now steps.old).setup) }
    ensures { (round : Round) (attempt : BucketTry) (found : List (Option Op)) → (S.now steps.old).phase ≡
        TryStore round attempt found 0 →
        S.now steps.new ≡
        later (S.now steps.old) (bucket_row_words (settings_of (S.now steps.old).setup))
        (TryExchange round attempt found) }
{
    steps.stands();
    let start = desk.bucket_row(row);
    store_run(steps, start, words);
}
