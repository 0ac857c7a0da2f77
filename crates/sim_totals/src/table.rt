//! The table of words that the adders of one run share.

ghost use Rattle.std.specs.Prelude.{◌≡◌, ◌+◌, ◌-◌, ◌*◌, ◌^◌, ◌<◌, ◌≤◌, ◌++◌, ◌∷◌, [], All, length, replicate, sum, slice_index, IfOk, IfErr, OnOk, vec_len, vec_capacity};
ghost use Rattle.sim_steps.specs.Layout.{AreSettings, desk_of, row_words, seats_of, words_of};
ghost use Rattle.sim_steps.specs.Machine.{IsDesk};
ghost use Rattle.sim_steps.specs.World.{opening_words, opening_row};
ghost use Rattle.sim_totals.specs.Rule.{view, idles, plain};
ghost use Rattle.sim_totals.specs.Values.{IsNew, IsOf, Ran, fresh_from};
ghost use Rattle.sim_totals.specs.Insides.{HasAll, Left};
ghost use Rattle.std.specs.Mem.Slots.{slots_items, slots_len, IsFull};

use crate::adder::{Adder, seated, unseated};
use crate::rule::{Deal, Gather, OneRun, Plan};
use crate::steps::{Token, Words};
use crate::view::View;
use atomic_table::{Closed, Table};
use sim_steps::{AddMachine, Desk, Totals, laws, read_order_into, read_totals};
use std::alloc::{AllocError, Global};
use std::marker::Model;

pub(crate) type Board = Table<(), View, Plan, OneRun, Global>;

/// Totals in atomic words, which up to eight adders share.
#[derive(Drop)]
pub struct TotalsTable {
    pub(crate) table: Board,
    pub(crate) desk: Desk,
}

impl Model for TotalsTable {
    ghost use Rattle.sim_totals.specs.Values.{TableValue};

    ghost Value = { TableValue };

    ghost use Rattle.sim_totals.specs.Insides.{table_value, HasWords};

    ghost view = { table_value };

    ghost invariant = { HasWords };
}

fn total(adds: &[u32]) -> u32
    requires { sum adds.now < 2 ^ 32 }
    ensures { result ≡ sum adds.now }
{
    adds.iter().sum()
}

fn copied(alloc: Global, adds: &[u32]) -> Result<Vec<u32>, AllocError>
    ensures { IfOk result (λ v. v.items ≡ adds.now) }
{
    adds.to_vec(alloc)
}

// So many zeros more.
fn push_zeros(words: &mut Vec<u64>, count: usize)
    requires { vec_len words.old + count ≤ vec_capacity words.old }
    ensures items { words.new.items ≡ words.old.items ++ replicate count 0 }
    ensures capacity { vec_capacity words.new ≡ vec_capacity words.old }
{
    for _ in 0..count {
        words.push_reserved(0);
    }
}

// State row 0.
fn push_opening_row(words: &mut Vec<u64>, seats: usize, first: &Totals)
    requires seats { seats ≤ 8 }
    requires room { vec_len words.old + row_words seats ≤ vec_capacity words.old }
    ensures items { words.new.items ≡ words.old.items
        ++ (0 ∷ slice_index first.now.counts 0 ∷ slice_index first.now.counts 1 ∷ slice_index first.now.counts
        2 ∷ slice_index first.now.bytes 0 ∷ slice_index first.now.bytes 1 ∷ slice_index first.now.bytes 2 ∷ replicate
        (2 * seats) 0) }
    ensures capacity { vec_capacity words.new ≡ vec_capacity words.old }
{
    words.push_reserved(0);
    words.push_reserved(first.counts[0]);
    words.push_reserved(first.counts[1]);
    words.push_reserved(first.counts[2]);
    words.push_reserved(first.bytes[0]);
    words.push_reserved(first.bytes[1]);
    words.push_reserved(first.bytes[2]);
    push_zeros(words, 2 * seats);
}

// The words at the opening.
fn first_words(alloc: Global, desk: &Desk, first: &Totals) -> Result<Vec<u64>, AllocError>
    requires { IsDesk desk.now }
    ensures { IfOk result (λ v. v.items ≡ replicate (1 + 2 * desk.now.seats + desk.now.rows * 3) 0
        ++ (0 ∷ slice_index first.now.counts 0 ∷ slice_index first.now.counts 1 ∷ slice_index first.now.counts
        2 ∷ slice_index first.now.bytes 0 ∷ slice_index first.now.bytes 1 ∷ slice_index first.now.bytes 2 ∷ replicate
        (2 * desk.now.seats) 0) ++ replicate (desk.now.rows * row_words desk.now.seats) 0) }
{
    let seats = desk.seats as usize;
    let count = desk.words();
    let mut words = Vec::with_capacity(alloc, count)?;
    push_zeros(&mut words, 1 + 2 * seats + desk.rows as usize * 3);
    push_opening_row(&mut words, seats, first);
    let rest = count - words.len();
    push_zeros(&mut words, rest);
    Ok(words)
}

// Cuts each seat off the token that has them all.
fn deal(
    alloc: Global,
    words: &Words,
    mut rest: Token,
    adds: &[u32],
    desk: Desk,
    out: &mut Vec<Adder>,
) -> Result<(), AllocError>
    requires settings { AreSettings (plain words.now.key) }
    requires table { (rest.table_id ≡ words.now.table_id) × (0 < words.now.table_id.words) }
    requires whole { rest.me ≡ (view (plain words.now.key) (idles 0 (length adds.now)), []) }
    requires adds { words.now.key.adds.items ≡ adds.now }
    requires desk { desk ≡ desk_of (plain words.now.key) 0 }
    requires out { (out.old.items ≡ []) × (vec_capacity out.old ≡ length adds.now) }
    ensures adders { OnOk result (out.new.items ≡ fresh_from
        (record { table_id = words.now.table_id; settings = plain words.now.key }) 0 (length adds.now)) }
{
    let mut desk = desk;
    for number in 0..adds.len() {
        let machine = AddMachine::new(alloc, desk)?;
        let token = words.split_seat::<Deal>(&mut rest);
        out.push_reserved(seated(token, machine, desk, number));
        desk = Desk {
            seats: desk.seats,
            rows: desk.rows,
            seat: desk.seat + 1,
            before: desk.before + adds[number] as u64,
        };
    }
    Ok(())
}

// Puts all adders together into one token.
fn gather(words: &Words, mut adders: Vec<Adder>) -> Token
    requires table { 0 < words.now.table_id.words }
    requires adders { All (IsOf (record { table_id = words.now.table_id; settings = plain words.now.key }))
        adders.items }
    requires some { 0 < vec_len adders }
    ensures { HasAll (record { table_id = words.now.table_id; settings = plain words.now.key }) adders.items result }
{
    let Some(last) = adders.pop() else {
        unreachable!()
    };
    let mut token = unseated(last);
    while let Some(adder) = adders.pop() {
        words.join_seat::<Gather>(&mut token, unseated(adder));
    }
    token
}

fn read_all(closed: &Closed<(), Global>, count: usize, out: &mut Vec<u64>)
    requires words { (slots_len closed.now.words ≡ count) × IsFull closed.now.words }
    requires out { (out.old.items ≡ []) × (vec_capacity out.old ≡ count) }
    ensures { out.new.items ≡ slots_items closed.now.words }
{
    for i in 0..count {
        out.push_reserved(closed.word(i));
    }
}

/// What a table was when it was closed.
#[derive(Drop)]
pub struct ClosedTotals {
    /// The totals after all adds.
    pub totals: Totals,
    /// The order of the adds, each by its seat and its number.
    pub order: Vec<(u32, u32)>,
}

impl TotalsTable {
    /// A table whose totals are `first`, and an adder for each number of `adds`, which may make so many
    /// adds. The adders stand in the order of their seats.
    pub fn open(
        alloc: Global,
        adds: &[u32],
        first: &Totals,
    ) -> Result<(TotalsTable, Vec<Adder>), AllocError>
        requires { AreSettings (record { adds = adds.now; first = first.now }) }
        ensures settings { IfOk result (λ r. r.0.settings ≡ record { adds = adds.now; first = first.now }) }
        ensures adders { IfOk result (λ r. r.1.items ≡ fresh_from r.0 0 (length adds.now)) }
        ensures count { IfOk result (λ r. vec_len r.1 ≡ length adds.now) }
        ensures ready { IfOk result (λ r. All (IsNew r.0) r.1.items) }
    {
        let desk = Desk {
            seats: adds.len() as u64,
            rows: total(adds) as u64,
            seat: 0,
            before: 0,
        };
        let words = first_words(alloc, &desk, first)?;
        let mut out = Vec::with_capacity(alloc, adds.len())?;
        let plan = Plan {
            adds: copied(alloc, adds)?,
            first: *first,
        };
        let (table, token) = Board::of_words(alloc, words.as_slice(), &plan)?;
        deal(alloc, &table.shared, token, adds, desk, &mut out)?;
        Ok((TotalsTable { table, desk }, out))
    }

    /// Ends the run, and tells the totals and the order of the adds. It takes all adders of the table, in
    /// any order. Without memory the table and its adders come back untouched.
    pub fn close(
        self,
        alloc: Global,
        adders: Vec<Adder>,
    ) -> Result<ClosedTotals, (AllocError, TotalsTable, Vec<Adder>)>
        requires adders { All (IsOf self) adders.items }
        requires all { vec_len adders ≡ seats_of self.settings }
        ensures refused { IfErr result (λ e. (e.1 ≡ self) × (e.2.items ≡ adders.items)) }
        ensures ran { IfOk result (λ c. Ran self.settings c.totals c.order.items adders.items) }
    {
        laws::order();
        let mut words = match Vec::with_capacity(alloc, self.desk.words()) {
            Ok(words) => words,
            Err(failed) => return Err((failed, self, adders)),
        };
        let mut order = match Vec::with_capacity(alloc, self.desk.rows as usize) {
            Ok(order) => order,
            Err(failed) => return Err((failed, self, adders)),
        };
        let TotalsTable { table, desk } = self;
        end(table, &desk, adders, &mut words);
        let closed = words.as_slice();
        read_order_into(&desk, closed, &mut order);
        Ok(ClosedTotals {
            totals: read_totals(&desk, closed),
            order,
        })
    }
}

// Closes the table, and reads its words.
fn end(table: Board, desk: &Desk, adders: Vec<Adder>, words: &mut Vec<u64>)
    requires settings { AreSettings (plain table.shared.key) }
    requires desk { desk.now ≡ desk_of (plain table.shared.key) 0 }
    requires size { (table.shared.table_id.words ≡ words_of desk.now.seats desk.now.rows)
        × (table.shared.table_id.slots ≡ 0) }
    requires adders { All (IsOf (record { table_id = table.shared.table_id; settings = plain table.shared.key }))
        adders.items }
    requires all { vec_len adders ≡ desk.now.seats }
    requires words { (words.old.items ≡ []) × (vec_capacity words.old ≡ words_of desk.now.seats desk.now.rows) }
    ensures left { Left (plain table.shared.key) words.new.items adders.items }
    ensures long { length words.new.items ≡ words_of desk.now.seats desk.now.rows }
{
    let token = gather(&table.shared, adders);
    let closed = table.close_with(token);
    read_all(&closed, desk.words(), words);
    closed.free();
}
