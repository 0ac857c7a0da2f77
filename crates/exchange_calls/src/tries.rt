//! A try of an update.
//!
//! **Words**: loads the bucket word, its row and the bucket word again; what is pending, and where that is not the seat
//! alone the announcements and the ops that are due; stores a free row of the seat; exchanges the bucket word.
//! **Keeps**: the row that is put is the row that was loaded, with every op that was found, and the seat's own in its
//! turn.
//! **Why it ends**: whoever changes the bucket word has loaded it. Once two announced tries are lost, a row was put by
//! a seat that had loaded that word after this seat announced its update. So from then on each row of the bucket has
//! it.

ghost use Rattle.std.specs.Prelude.{◌≡◌, ◌+◌, ◌-◌, ◌/◌, ◌<◌, ◌≤◌, ◌^◌, IfSome, None, length};
ghost use Rattle.exchange_model.specs.Steps.{Goes, LoadWord, bucket_of_call};
ghost use Rattle.exchange_model.specs.Goes.{lost};
ghost use Rattle.exchange_calls.specs.Desks.{IsOf};
ghost use Rattle.exchange_calls.specs.Hands.{HasLooked, making};
ghost use Rattle.exchange_calls.specs.Tries.{AreRowsOf, HasPut, IsPutting};

use crate::desk::Desk;
use crate::hand::Hand;
use crate::own::Own;
use crate::own_rows::OwnRows;
use crate::rows::{load_row, store_row};
use crate::steps::Steps;
use plain_map::Reply;

/// Looks at the bucket: the word that was loaded, where it is the same after its row.
#[inline(always)]
pub fn look<S: Steps>(
    steps: &mut S,
    desk: &Desk,
    own: &Own,
    turn: u64,
    hand: &mut Hand,
) -> Option<u64>
    requires phase { (S.now steps.old).now.stand ≡ Goes own.now.call (LoadWord turn) }
    requires desk { IsOf (S.now steps.old) desk.now }
    requires bucket { own.now.bucket ≡ bucket_of_call (S.now steps.old).plan own.now.call }
    requires few { own.now.bucket < 2 ^ 20 }
    ensures seen { IfSome result (λ word.
        HasLooked (S.now steps.old) (S.now steps.new) own.now.call turn word hand.new) }
    ensures lost { result ≡ None → S.now steps.new ≡ making (S.now steps.old) own.now.call (lost turn) }
{
    let place = desk.bucket(own.bucket);
    let word = steps.load(place);
    let row = desk.row_in(word);
    load_row(steps, desk, own, turn, word, row, hand);
    // Whoever writes to the row has put another one in its place before. So the same word tells that nobody wrote.
    let again = steps.load(place);
    if again == word {
        return Some(word);
    }
    None
}

/// Stores the new row in the first free one, and puts it in the bucket's word. `None` tells that the word has changed
/// since it was loaded; the row is free still.
#[inline(always)]
pub fn put_row<S: Steps>(
    steps: &mut S,
    desk: &Desk,
    own: &Own,
    word: u64,
    reply: Option<Reply>,
    hand: &Hand,
    rows: &mut OwnRows,
) -> Option<Reply>
    requires putting { IsPutting (S.now steps.old) own.now.call word hand.now reply }
    requires desk { IsOf (S.now steps.old) desk.now }
    requires bucket { own.now.bucket ≡ bucket_of_call (S.now steps.old).plan own.now.call }
    requires few { own.now.bucket < 2 ^ 20 }
    requires rows { AreRowsOf (S.now steps.old) rows.old }
    requires some { 1 ≤ length (S.now steps.old).now.free }
    requires last { word / 2 ^ desk.now.sizes.row_bits + 1 < 2 ^ (64 - desk.now.sizes.row_bits) }
    ensures { (p : IsPutting (S.now steps.old) own.now.call word hand.now reply) →
        HasPut (S.now steps.old) (S.now steps.new) own.now.call word p.attempt.turn rows.new result }
{
    let Some(row) = rows.first() else {
        unreachable!()
    };
    steps.stands();
    // No word names this row, and no hold does. After a lost exchange it is free still.
    store_row(steps, desk, own, row, hand);
    let place = desk.bucket(own.bucket);
    let new = desk.next_word(word, row);
    // Generations rise. So if the word is still there, nothing was put since it was loaded.
    let found = steps.exchange(place, word, new);
    if found != word {
        return None;
    }
    let Some(reply) = reply else { unreachable!() };
    let old = desk.row_in(word);
    rows.give(old);
    Some(reply)
}
