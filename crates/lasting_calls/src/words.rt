//! A seat's own words in a row at hand.

ghost use Rattle.std.specs.Prelude.{◌≡◌, None, length, slice_index, slice_index_or};
ghost use Rattle.step_counts.specs.StepCounts.{bucket_row_words};
ghost use Rattle.lasting_calls.specs.Updates.{state_at};

use crate::desk::Desk;
use plain_map::Reply;
use step_counts::{BUCKET_HEAD_WORDS, ITEM_WORDS, SEAT_WORDS};
use word_rows::reply_of;

/// The number of the seat's last update in the row.
#[inline(always)]
pub fn applied_in(desk: &Desk, words: &[u64]) -> u64
    requires words { length words.now ≡ bucket_row_words desk.now.settings }
    ensures { result ≡ slice_index (state_at desk.now.settings words.now).applied desk.now.seat }
{
    words[BUCKET_HEAD_WORDS
        + ITEM_WORDS * desk.settings.items as usize
        + SEAT_WORDS * desk.seat as usize]
}

/// The reply to that update.
#[inline(always)]
pub fn reply_in(desk: &Desk, words: &[u64]) -> Option<Reply>
    requires words { length words.now ≡ bucket_row_words desk.now.settings }
    ensures { result ≡ slice_index_or (state_at desk.now.settings words.now).replies desk.now.seat None }
{
    let place = BUCKET_HEAD_WORDS
        + ITEM_WORDS * desk.settings.items as usize
        + SEAT_WORDS * desk.seat as usize
        + 1;
    reply_of(words[place])
}
