//! A row of the table, loaded and stored as far as its words mean something.
//!
//! At hand its words stand as those of a row of `shared_table`, so that one change serves both tables. Prefix, depth,
//! base and mark are known here, and stand in no row of this table.

ghost use Rattle.std.specs.Prelude.{◌≡◌, ◌+◌, ◌*◌, ◌≤◌, [], length, slice_index};
ghost use Rattle.step_counts.specs.StepCounts.{bucket_row_words};
ghost use Rattle.lasting_model.specs.Steps.{Exchange, Goes, LoadRow};
ghost use Rattle.lasting_calls.specs.Going.{on};
ghost use Rattle.lasting_calls.specs.Desks.{IsOf};
ghost use Rattle.lasting_calls.specs.Updates.{HasLoaded, IsFilled, IsOwn, IsStoring, update_of};

use crate::desk::{Desk, ROW_LIMIT};
use crate::looks::cut;
use crate::own::Own;
use crate::runs::{load_run, store_run};
use crate::steps::Steps;
use step_counts::{BUCKET_HEAD_WORDS, COUNT_PLACE, ITEM_WORDS};

// What is known of the row, and zeros behind its items.
#[inline(always)]
fn fill(desk: &Desk, bucket: u64, most: u64, end: usize, words: &mut [u64])
    requires words { length words.old ≡ bucket_row_words desk.now.settings }
    requires low { BUCKET_HEAD_WORDS ≤ end }
    requires end { end ≤ BUCKET_HEAD_WORDS + ITEM_WORDS * desk.now.settings.items }
    ensures filled { IsFilled desk.now bucket most end words.old words.new }
{
    let seats = BUCKET_HEAD_WORDS + ITEM_WORDS * desk.settings.items as usize;
    words[end..seats].fill(0);
    words[0] = bucket;
    words[1] = desk.settings.depth as u64;
    words[2] = 0;
    words[3] = 0;
    words[COUNT_PLACE] = most;
}

/// Loads the words of a row that say something. Its generation comes after them.
#[inline(always)]
pub fn load_row<S: Steps>(
    steps: &mut S,
    desk: &Desk,
    own: &Own,
    turn: u64,
    word: u64,
    words: &mut [u64],
)
    requires phase { (S.now steps.old).now.stand ≡ Goes (update_of own.now) (LoadRow turn word []) }
    requires desk { IsOf (S.now steps.old) desk.now }
    requires words { length words.old ≡ bucket_row_words desk.now.settings }
    ensures loaded { HasLoaded (S.now steps.old) (S.now steps.new) desk.now own.now turn word words.new }
    ensures len { length words.new ≡ length words.old }
{
    let first = desk.row(word % ROW_LIMIT);
    let offset = desk.count();
    let seats = BUCKET_HEAD_WORDS + ITEM_WORDS * desk.settings.items as usize;
    load_run(steps, first + 1, &mut words[seats..]);
    let most = steps.load(first + offset);
    let count = cut(desk, most);
    let end = BUCKET_HEAD_WORDS + ITEM_WORDS * count as usize;
    load_run(
        steps,
        first + offset + 1,
        &mut words[BUCKET_HEAD_WORDS..end],
    );
    fill(desk, own.bucket, most, end, words);
}

/// Stores the words of the seat's own row that say something, its generation first.
#[inline(always)]
pub fn store_row<S: Steps>(steps: &mut S, desk: &Desk, own: &Own, words: &[u64])
    requires storing { IsStoring (S.now steps.old) desk.now own.now words.now }
    requires desk { IsOf (S.now steps.old) desk.now }
    requires own { IsOwn (S.now steps.old) own.now }
    requires words { length words.now ≡ bucket_row_words desk.now.settings }
    requires count { slice_index words.now COUNT_PLACE ≤ desk.now.settings.items }
    ensures { (s : IsStoring (S.now steps.old) desk.now own.now words.now) → S.now steps.new ≡
        on (S.now steps.old) (Goes (update_of own.now) (Exchange s.attempt s.found)) }
{
    let first = desk.row(own.row);
    let offset = desk.count();
    // Whoever still reads what the row said before finds another generation after it.
    steps.store(first, own.generation);
    let seats = BUCKET_HEAD_WORDS + ITEM_WORDS * desk.settings.items as usize;
    store_run(steps, first + 1, &words[seats..]);
    steps.store(first + offset, words[COUNT_PLACE]);
    let end = BUCKET_HEAD_WORDS + ITEM_WORDS * words[COUNT_PLACE] as usize;
    store_run(steps, first + offset + 1, &words[BUCKET_HEAD_WORDS..end]);
}
