//! A bucket row, read and changed where its words stand.

ghost use Rattle.std.specs.Prelude.{◌≡◌, ◌<◌, ◌≤◌, Some, None, length, slice_index, slice_index_or};
ghost use Rattle.step_counts.specs.StepCounts.{bucket_row_words as row_words};
ghost use Rattle.word_rows.specs.BucketWords.{IsBucket, SpellSomeBucket, words_of_bucket};
ghost use Rattle.bucket_states.specs.States.{row_of_state};
ghost use Rattle.bucket_states.specs.Change.{change};
ghost use Rattle.bucket_states.specs.Values.{AreUpdates};
ghost use Rattle.bucket_machine.specs.HashedKeys.{IsHashed};
ghost use Rattle.seat_calls.specs.Desks.{rules_at, settings_at, state_at};

use crate::desk::Desk;
use bucket_machine::{Hashed, change_row};
use bucket_states::Op;
use plain_map::Reply;
use step_counts::{BUCKET_HEAD_WORDS, ITEM_WORDS, SEAT_WORDS};
use word_rows::{reply_of, row_laws};

/// The number of the seat's last update in the row.
#[inline(always)]
pub fn applied_in(desk: &Desk, words: &[u64]) -> u64
    requires words { length words.now ≡ row_words (settings_at desk.now) }
    ensures { result ≡ slice_index (state_at desk.now words.now).applied desk.now.seat }
{
    words[BUCKET_HEAD_WORDS
        + ITEM_WORDS * desk.layout.settings().items as usize
        + SEAT_WORDS * desk.seat as usize]
}

/// The reply to that update.
#[inline(always)]
pub fn reply_in(desk: &Desk, words: &[u64]) -> Option<Reply>
    requires words { length words.now ≡ row_words (settings_at desk.now) }
    ensures { result ≡ slice_index_or (state_at desk.now words.now).replies desk.now.seat None }
{
    let place = BUCKET_HEAD_WORDS
        + ITEM_WORDS * desk.layout.settings().items as usize
        + SEAT_WORDS * desk.seat as usize
        + 1;
    reply_of(words[place])
}

/// The row of the bucket after all ops, written over the row that it is made from.
#[inline(always)]
pub fn change(desk: &Desk, own: &Hashed, row: u64, ops: &[Option<Op>], words: &mut [u64])
    requires spelled { SpellSomeBucket (settings_at desk.now) words.old }
    requires words { length words.old ≡ row_words (settings_at desk.now) }
    requires own { IsHashed desk.now.rules.hashing own.now }
    requires few { length ops.now ≤ (settings_at desk.now).seats }
    requires updates { AreUpdates ops.now }
    requires makes { IsBucket (settings_at desk.now)
        (row_of_state (Some row) (change (rules_at desk.now) ops.now (state_at desk.now words.old))) }
    ensures words { words.new ≡ words_of_bucket (settings_at desk.now)
        (row_of_state (Some row) (change (rules_at desk.now) ops.now (state_at desk.now words.old))) }
    ensures state { state_at desk.now words.new ≡ change (rules_at desk.now) ops.now (state_at desk.now words.old) }
    ensures len { length words.new ≡ length words.old }
{
    row_laws();
    change_row(desk.layout.settings(), &desk.rules, own, row, ops, words);
}
