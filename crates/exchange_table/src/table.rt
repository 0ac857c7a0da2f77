//! The words that threads share: opened once, and given back when the table is dropped.

ghost use Rattle.std.specs.Prelude.{◌≡◌, ◌+◌, ◌<◌, IfOk, OnOk, [], vec_capacity};
ghost use Rattle.exchange_model.specs.Plans.{IsPlan, holders_of};
ghost use Rattle.exchange_model.specs.Worlds.{opening_seat};
ghost use Rattle.exchange_calls.specs.Going.{Going};
ghost use Rattle.exchange_calls.specs.Desks.{IsOf};
ghost use Rattle.exchange_calls.specs.Seats.{IsSeatOf};
ghost use Rattle.exchange_opening.specs.Openings.{plan_of};
ghost use Rattle.exchange_table.specs.Rule.{alone, fresh, fresh_from, plain, whole};
ghost use Rattle.exchange_table.specs.Tables.{new_seats, plan_at};
ghost use Rattle.exchange_table.specs.Meetings.{AreSeatsOf};

use crate::holder::HoldingReader;
use crate::rule::{Deal, OneRun, Opening};
use crate::running::{Token, Words};
use crate::seat::Seat;
use crate::view::View;
use atomic_table::Table;
use exchange_calls::{Desk, SeatState, TableSizes};
use exchange_opening::opening_words;
use hash_bits::Hashing;
use std::alloc::{AllocError, Global};
use std::marker::Model;

pub(crate) type Board = Table<(), View, Opening, OneRun, Global>;

/// A lasting table in atomic words.
#[derive(Drop)]
pub struct LastingTable {
    pub(crate) board: Board,
    pub(crate) opening: Opening,
}

impl Model for LastingTable {
    ghost use Rattle.exchange_table.specs.Values.{TableValue};

    ghost Value = { TableValue };

    ghost use Rattle.exchange_table.specs.Tables.{TableStands, table_value};

    ghost view = { table_value };

    ghost invariant = { TableStands };
}

/// A table that was opened, with all who can hold a row of it.
#[derive(Drop)]
pub struct Opened {
    pub table: LastingTable,
    /// Its seats, in order.
    pub seats: Vec<Seat>,
    /// Its readers that can hold, in order.
    pub readers: Vec<HoldingReader>,
}

// A seat that has made no call.
fn seated(token: Token, desk: Desk, state: SeatState) -> Seat
    requires plan { IsPlan (plan_at desk) }
    requires token { token.me ≡ alone (fresh (plan_at desk) desk.holder) }
    requires seat { desk.holder < desk.sizes.seats }
    requires state { (g : Going) → IsOf g desk → g.now ≡ opening_seat g.plan g.seat → IsSeatOf g state }
    ensures table { result.table_id ≡ token.table_id }
    ensures holding { result.holding ≡ fresh (plan_at desk) desk.holder }
{
    Seat {
        badge: token.into_badge(),
        desk,
        state,
    }
}

// A reader that can hold and has made no call.
fn holding(token: Token, desk: Desk) -> HoldingReader
    requires plan { IsPlan (plan_at desk) }
    requires token { token.me ≡ alone (fresh (plan_at desk) desk.holder) }
    ensures table { result.table_id ≡ token.table_id }
    ensures holding { result.holding ≡ fresh (plan_at desk) desk.holder }
{
    HoldingReader {
        badge: token.into_badge(),
        desk,
        asked: 0,
    }
}

// Cuts each seat off the token that has all who can hold. The only error is want of memory.
fn deal_seats(
    alloc: Global,
    words: &Words,
    rest: &mut Token,
    opening: &Opening,
    out: &mut Vec<Seat>,
) -> Result<(), AllocError>
    requires plan { IsPlan (plain opening.now) }
    requires key { words.now.key ≡ opening.now }
    requires table { rest.old.table_id ≡ words.now.table_id }
    requires some { 0 < words.now.table_id.words }
    requires whole { rest.old.me ≡ (whole (plain opening.now), []) }
    requires out { out.old.items ≡ [] }
    requires room { vec_capacity out.old ≡ opening.now.sizes.seats }
    ensures table { rest.new.table_id ≡ words.now.table_id }
    ensures rest { OnOk result (rest.new.me ≡ (
      record {
        bundle = fresh_from (plain opening.now) opening.now.sizes.seats opening.now.sizes.readers;
      },
      [],
    )) }
    ensures out { OnOk result (out.new.items ≡ new_seats (record {
      table_id = words.now.table_id;
      plan = plain opening.now;
    }) 0 opening.now.sizes.seats) }
{
    for number in 0..opening.sizes.seats {
        let desk = Desk::new(opening.sizes, opening.hashing, number);
        let state = SeatState::new(alloc, &desk)?;
        let token = words.split_seat::<Deal>(rest);
        out.push_reserved(seated(token, desk, state));
    }
    Ok(())
}

// Cuts each reader that can hold off the token that has them all.
fn deal_readers(words: &Words, rest: &mut Token, opening: &Opening, out: &mut Vec<HoldingReader>)
    requires plan { IsPlan (plain opening.now) }
    requires key { words.now.key ≡ opening.now }
    requires table { rest.old.table_id ≡ words.now.table_id }
    requires some { 0 < words.now.table_id.words }
    requires all { rest.old.me ≡ (
      record {
        bundle = fresh_from (plain opening.now) opening.now.sizes.seats opening.now.sizes.readers;
      },
      [],
    ) }
    requires out { out.old.items ≡ [] }
    requires room { vec_capacity out.old ≡ opening.now.sizes.readers }
    ensures { out.new.items ≡ new_seats (record {
      table_id = words.now.table_id;
      plan = plain opening.now;
    }) opening.now.sizes.seats opening.now.sizes.readers }
{
    for number in 0..opening.sizes.readers {
        let desk = Desk::new(opening.sizes, opening.hashing, opening.sizes.seats + number);
        let token = words.split_seat::<Deal>(rest);
        out.push_reserved(holding(token, desk));
    }
}

impl LastingTable {
    /// Opens a table of these sizes without pairs, and gives its seats and its readers that can hold, in order.
    ///
    /// The only error is want of memory, and then nothing is kept.
    pub fn open(alloc: Global, sizes: TableSizes, hashing: Hashing) -> Result<Opened, AllocError>
        requires { IsPlan (plan_of sizes hashing) }
        ensures plan { IfOk result (λ r. r.table.plan ≡ plan_of sizes hashing) }
        ensures seats { IfOk result (λ r. r.seats.items ≡ new_seats r.table 0 sizes.seats) }
        ensures readers { IfOk result (λ r. r.readers.items ≡ new_seats r.table sizes.seats sizes.readers) }
        ensures all { IfOk result (λ r. AreSeatsOf r.table r.seats.items) }
    {
        let opening = Opening { sizes, hashing };
        let words = opening_words(alloc, sizes)?;
        let mut seats = Vec::with_capacity(alloc, sizes.seats as usize)?;
        let mut readers = Vec::with_capacity(alloc, sizes.readers as usize)?;
        let (board, mut token) = Board::of_words(alloc, &words, &opening)?;
        deal_seats(alloc, &board.shared, &mut token, &opening, &mut seats)?;
        deal_readers(&board.shared, &mut token, &opening, &mut readers);
        Ok(Opened {
            table: LastingTable { board, opening },
            seats,
            readers,
        })
    }
}
