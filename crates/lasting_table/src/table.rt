//! The words that threads share: opened once, and given back when the table is dropped.

ghost use Rattle.std.specs.Prelude.{◌≡◌, ◌+◌, ◌*◌, ◌<◌, ◌≤◌, ◌^◌, IfOk, OnOk, [], replicate, vec_capacity};
ghost use Rattle.lasting_model.specs.Plans.{IsPlan, buckets_of, least_rows};
ghost use Rattle.lasting_model.specs.Words.{word_count};
ghost use Rattle.lasting_table.specs.Rule.{alone, fresh, plain, whole};
ghost use Rattle.lasting_model.specs.Worlds.{opening_seat};
ghost use Rattle.lasting_calls.specs.Going.{Going};
ghost use Rattle.lasting_calls.specs.Desks.{IsOf};
ghost use Rattle.lasting_calls.specs.Seats.{IsSeatOf};
ghost use Rattle.lasting_table.specs.Tables.{IsOpened, new_seats, plan_at};
ghost use Rattle.lasting_table.specs.Meetings.{AreSeatsOf};

use crate::rule::{Deal, OneRun, Opening};
use crate::running::{Token, Words};
use crate::seat::Seat;
use crate::view::View;
use atomic_table::Table;
use hash_bits::Hashing;
use lasting_calls::{Desk, SeatState};
use std::alloc::{AllocError, Global};
use std::marker::Model;
use step_counts::{ITEM_WORDS, OP_WORDS, SEAT_WORDS, Settings};

// The words of each seat: those of its op, whose number is in its announcement, and its want and its hold word.
const OWN_WORDS: usize = OP_WORDS + 2;

pub(crate) type Board = Table<(), View, Opening, OneRun, Global>;

/// A lasting table in atomic words.
#[derive(Drop)]
pub struct LastingTable {
    pub(crate) board: Board,
    pub(crate) opening: Opening,
}

impl Model for LastingTable {
    ghost use Rattle.lasting_table.specs.Values.{TableValue};

    ghost Value = { TableValue };

    ghost use Rattle.lasting_table.specs.Tables.{TableStands, table_value};

    ghost view = { table_value };

    ghost invariant = { TableStands };
}

/// The least number of rows that each seat of a table of these settings must have.
pub fn rows_for(settings: &Settings) -> u32
    ensures { result ≡ least_rows settings.now }
{
    2 * ((1u32 << settings.depth) + settings.seats) + 1
}

// How many buckets there are.
fn buckets_in(settings: &Settings) -> usize
    ensures value { result ≡ buckets_of settings.now }
    ensures few { result ≤ 2 ^ 16 }
{
    1usize << settings.depth
}

// How many words a row has.
fn row_words(settings: &Settings) -> usize
    ensures value { result ≡ 2 + 2 * settings.now.seats + 7 * settings.now.items }
    ensures few { result ≤ 2 ^ 12 }
{
    2 + SEAT_WORDS * settings.seats as usize + ITEM_WORDS * settings.items as usize
}

/// How many words of 8 bytes such a table has.
pub fn words_for(opening: &Opening) -> usize
    requires { opening.now.rows ≤ 2 ^ 14 }
    ensures { result ≡ word_count (plain opening.now) }
{
    let seats = opening.settings.seats as usize;
    OWN_WORDS * seats
        + buckets_in(&opening.settings)
        + seats * opening.rows as usize * row_words(&opening.settings)
}

// So many words, which are all 0.
fn zeros(alloc: Global, count: usize) -> Result<Vec<u64>, AllocError>
    ensures { IfOk result (λ words. words.items ≡ replicate count 0) }
{
    let mut words = Vec::new(alloc);
    words.resize(count, 0)?;
    Ok(words)
}

// Names the first row of each bucket in its word.
fn name_rows(words: &mut [u64], opening: &Opening)
    requires few { opening.now.rows ≤ 2 ^ 14 }
    requires blank { words.old ≡ replicate (word_count (plain opening.now)) 0 }
    ensures { IsOpened (plain opening.now) words.new }
{
    let seats = opening.settings.seats as usize;
    let first = OWN_WORDS * seats;
    for bucket in 0..buckets_in(&opening.settings) {
        let row = bucket % seats * opening.rows as usize + bucket / seats;
        words[first + bucket] = row as u64;
    }
}

// The words of the opening: all are 0 but those of the buckets.
fn opening_words(alloc: Global, opening: &Opening) -> Result<Vec<u64>, AllocError>
    requires few { opening.now.rows ≤ 2 ^ 14 }
    ensures { IfOk result (λ words. IsOpened (plain opening.now) words.items) }
{
    let mut words = zeros(alloc, words_for(opening))?;
    name_rows(&mut words, opening);
    Ok(words)
}

// A seat that has made no call.
fn seated(token: Token, desk: Desk, state: SeatState) -> Seat
    requires plan { IsPlan (plan_at desk) }
    requires token { token.me ≡ alone (fresh (plan_at desk) desk.seat) }
    requires state { (g : Going) → IsOf g desk → g.now ≡ opening_seat g.plan g.seat → IsSeatOf g state }
    ensures table { result.table_id ≡ token.table_id }
    ensures holding { result.holding ≡ fresh (plan_at desk) desk.seat }
{
    Seat {
        badge: token.into_badge(),
        desk,
        state,
    }
}

// Cuts each seat off the token that has them all. The only error is want of memory.
fn deal(
    alloc: Global,
    words: &Words,
    mut rest: Token,
    opening: &Opening,
    out: &mut Vec<Seat>,
) -> Result<(), AllocError>
    requires plan { IsPlan (plain opening.now) }
    requires key { words.now.key ≡ opening.now }
    requires table { (rest.table_id ≡ words.now.table_id) × (0 < words.now.table_id.words) }
    requires whole { rest.me ≡ (whole (plain opening.now), []) }
    requires out { (out.old.items ≡ []) × (vec_capacity out.old ≡ opening.now.settings.seats) }
    ensures { OnOk result (out.new.items ≡ new_seats (record {
      table_id = words.now.table_id;
      plan = plain opening.now;
    }) 0 opening.now.settings.seats) }
{
    for number in 0..opening.settings.seats {
        let desk = Desk::new(opening.settings, opening.hashing, opening.rows, number);
        let state = SeatState::new(alloc, &desk)?;
        let token = words.split_seat::<Deal>(&mut rest);
        out.push_reserved(seated(token, desk, state));
    }
    Ok(())
}

impl LastingTable {
    /// Opens a table of these settings without pairs, with so many rows for each seat, and gives its seats in order.
    /// The only error is want of memory, and then nothing is kept.
    pub fn open(
        alloc: Global,
        settings: &Settings,
        hashing: Hashing,
        rows: u32,
    ) -> Result<(LastingTable, Vec<Seat>), AllocError>
        requires deep { settings.now.start ≡ settings.now.depth }
        requires rows { least_rows settings.now ≤ rows }
        requires few { rows ≤ 2 ^ 14 }
        ensures plan { IfOk result (λ r. r.0.plan
            ≡ record { settings = settings.now; hashing = hashing; first = []; rows = rows }) }
        ensures seats { IfOk result (λ r. r.1.items ≡ new_seats r.0 0 settings.now.seats) }
        ensures all { IfOk result (λ r. AreSeatsOf r.0 r.1.items) }
    {
        let opening = Opening {
            settings: *settings,
            hashing,
            rows,
        };
        let words = opening_words(alloc, &opening)?;
        let mut seats = Vec::with_capacity(alloc, settings.seats as usize)?;
        let (board, token) = Board::of_words(alloc, &words, &opening)?;
        deal(alloc, &board.shared, token, &opening, &mut seats)?;
        Ok((LastingTable { board, opening }, seats))
    }
}
