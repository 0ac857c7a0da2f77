//! The changes of a bucket row, one thing at a time.
//!
//! A row's head is its prefix, its depth, one more than the row that it was made from, whether it is frozen, and how
//! many items there are. Items follow, and for each seat the number of its last update in here with the reply.

ghost use Rattle.std.specs.Prelude.{◌≡◌, ◌+◌, ◌*◌, ◌^◌, ◌<◌, ◌≤◌, Some, None, length, slice_index, slice_index_or, IfSome, MatchOption};
ghost use Rattle.step_counts.specs.StepCounts.{bucket_row_words};
ghost use Rattle.plain_map.specs.Rows.{BucketContent};
ghost use Rattle.plain_map.specs.declared.keys.Pair.{Pair};
ghost use Rattle.word_rows.specs.BucketWords.{IsBucket};
ghost use Rattle.plain_map.specs.Updates.{IsUpdateReply};
ghost use Rattle.bucket_states.specs.Items.{same_key, value_at};
ghost use Rattle.bucket_states.specs.Places.{IsPlaceOf};
ghost use Rattle.bucket_machine.specs.Rows.{Spell, Turns, with_answer, with_base, with_bytes, with_frozen, with_pair, with_value, without_place};

use plain_map::{KEY_WORDS, Key, Pair, Reply};
use step_counts::{BUCKET_HEAD_WORDS, COUNT_PLACE, ITEM_WORDS, SEAT_WORDS, Settings};
use word_rows::{read_pair, reply_word, write_pair};

/// Freezes the bucket.
#[inline(always)]
pub(crate) fn freeze(settings: &Settings, row: &mut [u64])
    requires long { length row.old ≡ bucket_row_words settings.now }
    ensures spelled { Turns settings.now with_frozen row.old row.new }
    ensures long { length row.new ≡ length row.old }
{
    row[3] = 1;
}

/// Says which row it is made from.
#[inline(always)]
pub(crate) fn set_base(settings: &Settings, row: &mut [u64], base: u64)
    requires long { length row.old ≡ bucket_row_words settings.now }
    requires base { base + 1 < 2 ^ 64 }
    ensures spelled { Turns settings.now (with_base base) row.old row.new }
    ensures long { length row.new ≡ length row.old }
{
    row[2] = base + 1;
}

/// Says which update of a seat is the last in here, and its reply.
#[inline(always)]
pub(crate) fn set_seat(settings: &Settings, row: &mut [u64], seat: usize, number: u64, reply: Reply)
    requires long { length row.old ≡ bucket_row_words settings.now }
    requires seat { seat < settings.now.seats }
    requires reply { IsUpdateReply (Some reply) }
    ensures spelled { Turns settings.now (with_answer seat number reply) row.old row.new }
    ensures long { length row.new ≡ length row.old }
{
    let at = BUCKET_HEAD_WORDS + ITEM_WORDS * settings.items as usize + SEAT_WORDS * seat;
    row[at] = number;
    row[at + 1] = reply_word(Some(reply));
}

/// A new item comes last.
#[inline(always)]
pub(crate) fn push_item(settings: &Settings, row: &mut [u64], pair: &Pair)
    requires long { length row.old ≡ bucket_row_words settings.now }
    requires few { slice_index row.old COUNT_PLACE < settings.now.items }
    ensures spelled { Turns settings.now (with_pair pair.now) row.old row.new }
    ensures long { length row.new ≡ length row.old }
{
    let _items = settings.items;
    let at = BUCKET_HEAD_WORDS + ITEM_WORDS * row[COUNT_PLACE] as usize;
    write_pair(pair, &mut row[at..at + ITEM_WORDS]);
    row[COUNT_PLACE] += 1;
}

/// Takes an item out; those behind it move up.
#[inline(always)]
pub(crate) fn remove_item(settings: &Settings, row: &mut [u64], at: usize)
    requires long { length row.old ≡ bucket_row_words settings.now }
    requires few { slice_index row.old COUNT_PLACE ≤ settings.now.items }
    requires place { at < slice_index row.old COUNT_PLACE }
    ensures spelled { Turns settings.now (without_place at) row.old row.new }
    ensures long { length row.new ≡ length row.old }
{
    let _items = settings.items;
    let start = BUCKET_HEAD_WORDS + ITEM_WORDS * at;
    let end = BUCKET_HEAD_WORDS + ITEM_WORDS * row[COUNT_PLACE] as usize;
    row.copy_within(start + ITEM_WORDS..end, start);
    row[end - ITEM_WORDS..end].fill(0);
    row[COUNT_PLACE] -= 1;
}

/// The place of a key's item.
#[inline(always)]
pub(crate) fn find_item(settings: &Settings, row: &[u64], key: &Key) -> Option<usize>
    requires long { length row.now ≡ bucket_row_words settings.now }
    requires few { slice_index row.now COUNT_PLACE ≤ settings.now.items }
    ensures inside { IfSome result (λ i. i < slice_index row.now COUNT_PLACE) }
    ensures found { (b : BucketContent) → Spell settings.now b row.now →
        MatchOption result (value_at key.now b.items ≡ None) (IsPlaceOf key.now b.items) }
{
    let _items = settings.items;
    let count = row[COUNT_PLACE] as usize;
    for i in 0..count {
        if has_key(settings, row, i, key) {
            return Some(i);
        }
    }
    None
}

// Whether an item has the key.
#[inline(always)]
fn has_key(settings: &Settings, row: &[u64], i: usize, key: &Key) -> bool
    requires long { length row.now ≡ bucket_row_words settings.now }
    requires few { i < settings.now.items }
    ensures same { (b : BucketContent) → Spell settings.now b row.now → i < length b.items → (d : Pair) → result ≡
        same_key (slice_index_or b.items i d).key key.now }
{
    pair_in(settings, row, i).key == *key
}

/// An item.
#[inline(always)]
pub(crate) fn pair_in(settings: &Settings, row: &[u64], i: usize) -> Pair
    requires long { length row.now ≡ bucket_row_words settings.now }
    requires few { i < settings.now.items }
    ensures same { (b : BucketContent) → Spell settings.now b row.now → i < length b.items → (d : Pair) → result ≡
        slice_index_or b.items i d }
{
    let _items = settings.items;
    let at = BUCKET_HEAD_WORDS + ITEM_WORDS * i;
    read_pair(&row[at..at + ITEM_WORDS])
}

/// Says which value an item has.
#[inline(always)]
pub(crate) fn set_value(settings: &Settings, row: &mut [u64], i: usize, value: u64)
    requires long { length row.old ≡ bucket_row_words settings.now }
    requires few { slice_index row.old COUNT_PLACE ≤ settings.now.items }
    requires place { i < slice_index row.old COUNT_PLACE }
    ensures spelled { Turns settings.now (with_value i value) row.old row.new }
    ensures long { length row.new ≡ length row.old }
{
    let _items = settings.items;
    row[BUCKET_HEAD_WORDS + ITEM_WORDS * i + KEY_WORDS] = value;
}

/// Says how many bytes an item has.
#[inline(always)]
pub(crate) fn set_bytes(settings: &Settings, row: &mut [u64], i: usize, bytes: u64)
    requires long { length row.old ≡ bucket_row_words settings.now }
    requires few { slice_index row.old COUNT_PLACE ≤ settings.now.items }
    requires place { i < slice_index row.old COUNT_PLACE }
    ensures spelled { Turns settings.now (with_bytes i bytes) row.old row.new }
    ensures long { length row.new ≡ length row.old }
{
    let _items = settings.items;
    row[BUCKET_HEAD_WORDS + ITEM_WORDS * i + (KEY_WORDS + 1)] = bytes;
}
