//! Bucket rows as words.

ghost use Rattle.std.specs.Prelude.{◌≡◌, ◌↔◌, IsTrue, length};
ghost use Rattle.std.specs.Bool.{OnTrue};
ghost use Rattle.step_counts.specs.StepCounts.{bucket_row_words};
ghost use Rattle.plain_map.specs.Rows.{bucket_content, HasBucketRoom};
ghost use Rattle.word_rows.specs.BucketWords.{IsBucket, SpellsBucket, SpellSomeBucket, words_of_bucket};

use crate::Layout;
use crate::bases::base_word;
use crate::bucket_parts::{read_head, read_items, read_seats, write_items, write_seats};
use plain_map::BucketRow;
use step_counts::{BUCKET_HEAD_WORDS, COUNT_PLACE, ITEM_WORDS, Settings};

impl Layout {
    ghost use Rattle.word_rows.specs.LayoutView.{shape_of};

    /// Writes the words of a bucket row.
    pub fn write_bucket(&self, row: &BucketRow, out: &mut [u64])
        requires spelled { IsBucket (shape_of self.now).settings (bucket_content row.now) }
        requires whole { length out.old ≡ bucket_row_words (shape_of self.now).settings }
        ensures { out.new ≡ words_of_bucket (shape_of self.now).settings (bucket_content row.now) }
    {
        let room = self.settings().items as usize;
        let seats = self.settings().seats as usize;
        let items_end = BUCKET_HEAD_WORDS + ITEM_WORDS * room;
        write_seats(&row.applied, &row.replies, seats, &mut out[items_end..]);
        write_items(&row.items, room, &mut out[BUCKET_HEAD_WORDS..items_end]);
        out[COUNT_PLACE] = row.items.len() as u64;
        out[3] = row.frozen as u64;
        out[2] = base_word(row.base);
        out[1] = row.depth as u64;
        out[0] = row.prefix;
    }

    /// Reads a bucket row, and answers whether the words spell one. If not, `into` holds some row.
    ///
    /// They spell none where the prefix does not fit the depth, the depth is above the greatest, the mark is above 1,
    /// the count is above the room, a value is `VALUE_LIMIT` or more, a word after the last item is not 0, an applied
    /// number does not fit, a reply word spells no reply, or one of a number and its reply is there without the other.
    pub fn read_bucket(&self, words: &[u64], into: &mut BucketRow) -> bool
        requires whole { length words.now ≡ bucket_row_words (shape_of self.now).settings }
        requires room { HasBucketRoom (shape_of self.now).settings.seats (shape_of self.now).settings.items into.old }
        ensures spelled { IsTrue result ↔ SpellSomeBucket (shape_of self.now).settings words.now }
        ensures read { OnTrue result (SpellsBucket (shape_of self.now).settings (bucket_content into.new) words.now) }
        ensures room { HasBucketRoom (shape_of self.now).settings.seats (shape_of self.now).settings.items into.new }
    {
        read_parts(self.settings(), words, into)
    }
}

// Reads the head, the items, and what is known of the seats.
fn read_parts(settings: &Settings, words: &[u64], into: &mut BucketRow) -> bool
    requires whole { length words.now ≡ bucket_row_words settings.now }
    requires room { HasBucketRoom settings.now.seats settings.now.items into.old }
    ensures spelled { IsTrue result ↔ SpellSomeBucket settings.now words.now }
    ensures read { OnTrue result (SpellsBucket settings.now (bucket_content into.new) words.now) }
    ensures room { HasBucketRoom settings.now.seats settings.now.items into.new }
{
    let items_end = BUCKET_HEAD_WORDS + ITEM_WORDS * settings.items as usize;
    if !read_head(settings, words, into) {
        return false;
    }
    if !read_items(
        &words[BUCKET_HEAD_WORDS..items_end],
        words[COUNT_PLACE] as usize,
        &mut into.items,
    ) {
        return false;
    }
    read_seats(
        &words[items_end..],
        settings.seats as usize,
        &mut into.applied,
        &mut into.replies,
    )
}
