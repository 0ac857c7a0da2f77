//! The scan with which an update begins where no row of its seat is free.
//!
//! **Words**: the hold word of each other who can hold is loaded; where it asks, also its want word and the word of
//! that bucket, and the hold word is exchanged.
//! **Keeps**: no bucket word has named a row that is looked for since before the scan began. Whoever may still read it
//! asked before that. So its hold word names the row, or asks still and is given another one.
//! **Steps**: one for each other who can hold, and three more for each that asks.

ghost use Rattle.std.specs.Prelude.{◌≡◌, ◌≢◌, ◌+◌, ◌<◌, ◌%◌};
ghost use Rattle.exchange_model.specs.Goes.{Scanned, by_giving};
ghost use Rattle.exchange_calls.specs.Desks.{IsOf};
ghost use Rattle.exchange_calls.specs.OwnRowsView.{free_of, kept_of};
ghost use Rattle.exchange_calls.specs.Scans.{AtHolder, IsAsked, IsAtHold, IsAtHolder, IsScanning, scan_to};

use crate::desk::Desk;
use crate::own_rows::OwnRows;
use crate::steps::Steps;

// Gives a row of the bucket that it wants to one who asks, and tells what its hold word was.
#[inline(always)]
fn give<S: Steps>(steps: &mut S, desk: &Desk, holder: u32, asking: u64) -> u64
    requires asks { IsAsked (S.now steps.old) holder asking }
    requires odd { asking % 2 ≡ 1 }
    requires desk { IsOf (S.now steps.old) desk.now }
    ensures { (a : IsAsked (S.now steps.old) holder asking) → S.now steps.new ≡
        scan_to a.base a.call (by_giving a.base.plan a.base.seat holder a.left a.held result) }
{
    let wanted = desk.want(holder);
    // The class was stored before the asking. So it is the wanted one as long as that asking stands.
    let class = steps.load(wanted);
    steps.stands();
    let place = desk.bucket(class);
    let word = steps.load(place);
    let row = desk.row_in(word);
    let hold = desk.hold(holder);
    // It happens only under the asking that was seen. Then the row was its bucket's after that asking.
    steps.exchange(hold, asking, 2 * (row + 1))
}

// The hold word of one who can hold: it has a row, or has nothing more to do with the rows that are looked for.
#[inline(always)]
fn settle<S: Steps>(steps: &mut S, desk: &Desk, holder: u32) -> u64
    requires at { IsAtHold (S.now steps.old) holder }
    requires desk { IsOf (S.now steps.old) desk.now }
    ensures { (a : IsAtHold (S.now steps.old) holder) → S.now steps.new ≡
        scan_to a.base a.call (by_giving a.base.plan a.base.seat holder a.left a.held result) }
{
    let place = desk.hold(holder);
    // All hold words are loaded after the exchanges by which these rows came to the seat.
    let word = steps.load(place);
    if word % 2 == 1 {
        give(steps, desk, holder, word)
    } else {
        word
    }
}

// Looks at another one who can hold. A row that it holds is kept.
#[inline(always)]
fn look_at_holder<S: Steps>(steps: &mut S, desk: &Desk, rows: &mut OwnRows, holder: u32)
    requires at { IsAtHolder (S.now steps.old) holder rows.old }
    requires desk { IsOf (S.now steps.old) desk.now }
    requires holder { holder < desk.now.sizes.seats + desk.now.sizes.readers }
    requires other { holder ≢ desk.now.holder }
    ensures { (a : IsAtHolder (S.now steps.old) holder rows.old) →
        AtHolder a.base (S.now steps.new) a.call (holder + 1) rows.new }
{
    let word = settle(steps, desk, holder);
    if word % 2 == 1 {
        return;
    }
    if word == 0 {
        return;
    }
    rows.keep(word / 2 - 1);
}

/// Looks at all others who can hold: rows of the seat that none of them holds are free.
#[inline(always)]
pub fn scan<S: Steps>(steps: &mut S, desk: &Desk, rows: &mut OwnRows)
    requires scanning { IsScanning (S.now steps.old) rows.old }
    requires desk { IsOf (S.now steps.old) desk.now }
    ensures { (s : IsScanning (S.now steps.old) rows.old) →
        S.now steps.new ≡ scan_to s.base s.call (Scanned (free_of rows.new) (kept_of rows.new)) }
{
    rows.begin_scan();
    for holder in 0..desk.holders() {
        if holder == desk.holder {
            continue;
        }
        look_at_holder(steps, desk, rows, holder);
    }
}
