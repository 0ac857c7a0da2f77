//! A row of the table, loaded and stored as far as its words mean something.

ghost use Rattle.std.specs.Prelude.{◌≡◌, ◌+◌, ◌<◌, ◌≤◌, ◌^◌, ◌∷◌, [], length, replicate};
ghost use Rattle.word_rows.specs.KeyWords.{words_of_pair};
ghost use Rattle.exchange_model.specs.Codes.{row_in};
ghost use Rattle.exchange_model.specs.Steps.{Exchange, Goes, LoadRow};
ghost use Rattle.exchange_calls.specs.Going.{Reads, goes_by, on};
ghost use Rattle.exchange_calls.specs.Desks.{IsOf};
ghost use Rattle.exchange_calls.specs.Marks.{mark_words};
ghost use Rattle.exchange_calls.specs.Hands.{HasLoaded, IsStoring};
ghost use Rattle.exchange_calls.specs.Writes.{Writes};

use crate::desk::{COUNTS, Desk, ENTRY_WORDS};
use crate::hand::Hand;
use crate::marks::Mark;
use crate::own::Own;
use crate::runs::{load_run, store_run};
use crate::steps::Steps;
use plain_map::Pair;
use step_counts::ITEM_WORDS;
use word_rows::{read_pair, write_pair};

// Loads an item.
#[inline(always)]
fn load_pair<S: Steps>(steps: &mut S, at: u64) -> Pair
    requires reads { Reads (S.now steps.old) at 7 }
    requires few { at < 2 ^ 63 }
    ensures { S.now steps.new ≡ goes_by (S.now steps.old) (words_of_pair result) }
{
    let mut words = [0; ITEM_WORDS];
    load_run(steps, at, &mut words);
    read_pair(&words)
}

// Loads an entry.
#[inline(always)]
fn load_mark<S: Steps>(steps: &mut S, at: u64) -> Mark
    requires reads { Reads (S.now steps.old) at 2 }
    requires few { at < 2 ^ 63 }
    ensures { S.now steps.new ≡ goes_by (S.now steps.old) (mark_words (result ∷ [])) }
{
    let mut words = [0; ENTRY_WORDS];
    load_run(steps, at, &mut words);
    Mark {
        word: words[0],
        reply: words[1],
    }
}

/// Loads the words of a row that say something.
#[inline(always)]
pub fn load_row<S: Steps>(
    steps: &mut S,
    desk: &Desk,
    own: &Own,
    turn: u64,
    word: u64,
    row: u64,
    hand: &mut Hand,
)
    requires phase { (S.now steps.old).now.stand ≡ Goes own.now.call (LoadRow turn word []) }
    requires desk { IsOf (S.now steps.old) desk.now }
    requires row { row ≡ row_in (S.now steps.old).plan word }
    requires few { row < 2 ^ 32 }
    ensures { HasLoaded (S.now steps.old) (S.now steps.new) own.now.call turn word hand.new }
{
    let _own = own.number;
    let _turn = turn;
    let _word = word;
    let first = desk.row(row);
    let head = steps.load(first);
    let count = desk.count_in(head);
    let entries = desk.entries_in(head);
    hand.items.clear();
    for i in 0..count {
        let pair = load_pair(steps, first + 1 + ITEM_WORDS as u64 * i);
        hand.items.push_reserved(pair);
    }
    let behind = first + 1 + ITEM_WORDS as u64 * count;
    hand.marks.clear();
    for j in 0..entries {
        let mark = load_mark(steps, behind + ENTRY_WORDS as u64 * j);
        hand.marks.push_reserved(mark);
    }
}

// Stores an item.
#[inline(always)]
fn store_pair<S: Steps>(steps: &mut S, at: u64, pair: &Pair)
    requires writes { Writes (S.now steps.old) at (words_of_pair pair.now) }
    requires few { at < 2 ^ 63 }
    ensures { S.now steps.new ≡ goes_by (S.now steps.old) (replicate 7 0) }
{
    let mut words = [0; ITEM_WORDS];
    write_pair(pair, &mut words);
    store_run(steps, at, &words);
}

// Stores an entry.
#[inline(always)]
fn store_mark<S: Steps>(steps: &mut S, at: u64, mark: &Mark)
    requires writes { Writes (S.now steps.old) at (mark_words (mark.now ∷ [])) }
    requires few { at < 2 ^ 63 }
    ensures { S.now steps.new ≡ goes_by (S.now steps.old) (replicate 2 0) }
{
    let words = [mark.word, mark.reply];
    store_run(steps, at, &words);
}

/// Stores the words of a row of the seat's own that say something.
#[inline(always)]
pub fn store_row<S: Steps>(steps: &mut S, desk: &Desk, own: &Own, row: u64, hand: &Hand)
    requires storing { IsStoring (S.now steps.old) own.now.call row hand.now }
    requires desk { IsOf (S.now steps.old) desk.now }
    requires few { row < 2 ^ 32 }
    requires items { length hand.now.items.items ≤ 16 }
    requires entries { length hand.now.next.items ≤ 64 }
    ensures { (s : IsStoring (S.now steps.old) own.now.call row hand.now) → S.now steps.new ≡
        on (S.now steps.old) (Goes own.now.call (Exchange s.attempt s.found)) }
{
    let _own = own.number;
    let first = desk.row(row);
    let count = hand.items.len() as u64;
    let entries = hand.next.len() as u64;
    steps.store(first, count + entries * COUNTS);
    for i in 0..hand.items.len() {
        store_pair(
            steps,
            first + 1 + ITEM_WORDS as u64 * i as u64,
            &hand.items[i],
        );
    }
    let behind = first + 1 + ITEM_WORDS as u64 * count;
    for j in 0..hand.next.len() {
        store_mark(steps, behind + ENTRY_WORDS as u64 * j as u64, &hand.next[j]);
    }
}
