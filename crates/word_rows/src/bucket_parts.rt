//! The parts of a bucket row as words: its head, its items, and what it knows of the seats.

ghost use Rattle.std.specs.Prelude.{◌≡◌, ℕ, ◌*◌, ◌<◌, ◌≤◌, ◌↔◌, IsTrue, IsSome, IfSome, ◌==◌, length, vec_capacity, slice_index};
ghost use Rattle.std.specs.Bool.{OnTrue};
ghost use Rattle.std.specs.List.{All};
ghost use Rattle.plain_map.specs.Rows.{bucket_content};
ghost use Rattle.plain_map.specs.Updates.{IsSmallPair};
ghost use Rattle.word_rows.specs.ReplyWords.{reply_of_word};
ghost use Rattle.word_rows.specs.BaseWords.{base_of_word};
ghost use Rattle.word_rows.specs.BucketWords.{
  AreAnswered,
  applied_of_words,
  item_words,
  items_of_words,
  replies_of_words,
  seat_words,
};
ghost use Rattle.word_rows.specs.BucketPlaces.{HeadStands, ItemsStand, SeatStands, SeatsStand};

use crate::bases::base_of;
use crate::keys::{read_pair, write_pair};
use crate::replies::{reply_of, reply_word};
use plain_map::{BucketRow, KEY_WORDS, NUMBER_LIMIT, Pair, Reply, VALUE_LIMIT};
use step_counts::{BUCKET_HEAD_WORDS, COUNT_PLACE, ITEM_WORDS, SEAT_WORDS, Settings};

/// Writes the items, and zeros where there is room for more.
pub(crate) fn write_items(items: &[Pair], room: usize, out: &mut [u64])
    requires fit { length items.now ≤ room }
    requires long { length out.old ≡ room * ITEM_WORDS }
    ensures { out.new ≡ item_words room items.now }
{
    for (i, item) in items.iter().enumerate() {
        write_pair(item, &mut out[i * ITEM_WORDS..(i + 1) * ITEM_WORDS]);
    }
    out[items.len() * ITEM_WORDS..].fill(0);
}

/// Writes each seat's applied number and reply.
pub(crate) fn write_seats(applied: &[u64], replies: &[Option<Reply>], seats: usize, out: &mut [u64])
    requires answered { AreAnswered seats applied.now replies.now }
    requires long { length out.old ≡ seats * SEAT_WORDS }
    ensures { out.new ≡ seat_words seats applied.now replies.now }
{
    for seat in 0..seats {
        out[seat * SEAT_WORDS] = applied[seat];
        out[seat * SEAT_WORDS + 1] = reply_word(replies[seat]);
    }
}

/// Reads all of a bucket row but its items and what it knows of the seats.
pub(crate) fn read_head(settings: &Settings, words: &[u64], into: &mut BucketRow) -> bool
    requires { BUCKET_HEAD_WORDS ≤ length words.now }
    ensures stands { IsTrue result ↔ HeadStands settings.now words.now }
    ensures read { OnTrue result (into.new ≡ record into.old {
      prefix = slice_index words.now 0;
      depth = slice_index words.now 1;
      base = base_of_word (slice_index words.now 2);
      frozen = slice_index words.now 3 == 1;
    }) }
    ensures items { into.new.items ≡ into.old.items }
    ensures applied { into.new.applied ≡ into.old.applied }
    ensures replies { into.new.replies ≡ into.old.replies }
{
    if words[1] > settings.depth as u64
        || words[3] > 1
        || words[COUNT_PLACE] > settings.items as u64
    {
        return false;
    }
    if words[0] >= 1 << words[1] {
        return false;
    }
    into.prefix = words[0];
    into.depth = words[1] as u32;
    into.base = base_of(words[2]);
    into.frozen = words[3] == 1;
    true
}

/// Reads the items, so many as are said to be there.
pub(crate) fn read_items(words: &[u64], count: usize, items: &mut Vec<Pair>) -> bool
    requires within { count * ITEM_WORDS ≤ length words.now }
    requires room { count ≤ vec_capacity items.old }
    ensures stands { IsTrue result ↔ ItemsStand count words.now }
    ensures read { OnTrue result (items.new.items ≡ items_of_words count words.now) }
    ensures room { vec_capacity items.new ≡ vec_capacity items.old }
{
    items.clear();
    for i in 0..count {
        let pair = read_pair(&words[i * ITEM_WORDS..(i + 1) * ITEM_WORDS]);
        if !is_small(&pair) {
            return false;
        }
        items.push_reserved(pair);
    }
    are_zeros(&words[count * ITEM_WORDS..])
}

// Whether an item's numbers can be kept.
fn is_small(pair: &Pair) -> bool
    ensures { IsTrue result ↔ IsSmallPair pair.now }
{
    pair.value < VALUE_LIMIT && pair.bytes < VALUE_LIMIT
}

// Whether every word is 0.
fn are_zeros(words: &[u64]) -> bool
    ensures { IsTrue result ↔ All (λ word. word ≡ 0) words.now }
{
    words.iter().all(|word| *word == 0)
}

/// Reads each seat's applied number and reply.
pub(crate) fn read_seats(
    words: &[u64],
    seats: usize,
    applied: &mut Vec<u64>,
    replies: &mut Vec<Option<Reply>>,
) -> bool
    requires long { length words.now ≡ seats * SEAT_WORDS }
    requires room_of_numbers { seats ≤ vec_capacity applied.old }
    requires room_of_replies { seats ≤ vec_capacity replies.old }
    ensures stands { IsTrue result ↔ SeatsStand seats words.now }
    ensures numbers { OnTrue result (applied.new.items ≡ applied_of_words seats words.now) }
    ensures replies { OnTrue result (replies.new.items ≡ replies_of_words seats words.now) }
    ensures numbers_room { vec_capacity applied.new ≡ vec_capacity applied.old }
    ensures replies_room { vec_capacity replies.new ≡ vec_capacity replies.old }
{
    applied.clear();
    replies.clear();
    for seat in 0..seats {
        let Some((number, reply)) = read_seat(
            words[seat * SEAT_WORDS],
            words[seat * SEAT_WORDS + 1],
        ) else {
            return false;
        };
        applied.push_reserved(number);
        replies.push_reserved(reply);
    }
    true
}

/// Reads one seat's applied number and reply.
fn read_seat(number: u64, word: u64) -> Option<(u64, Option<Reply>)>
    ensures stands { IsSome result ↔ SeatStands number word }
    ensures read { IfSome result (λ seat. (seat.0 ≡ number) × (seat.1 ≡ reply_of_word word)) }
{
    let reply = reply_of(word);
    if number >= NUMBER_LIMIT || reply_word(reply) != word || (number == 0) != reply.is_none() {
        return None;
    }
    Some((number, reply))
}
