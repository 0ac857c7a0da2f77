//! What closed words tell: the root's totals, and the order of the adds.

ghost use Rattle.std.specs.Prelude.{◌≡◌, ℕ, ◌+◌, ◌-◌, ◌*◌, ◌^◌, ◌<◌, ◌≤◌, ◌++◌, [], All, length, reverse, slice_index, vec_len, vec_capacity};
ghost use Rattle.sim_steps.specs.Layout.{words_of, row_words};
ghost use Rattle.sim_steps.specs.Order.{news, read_applied, read_order, read_word};
ghost use Rattle.sim_steps.specs.Machine.{IsDesk};
ghost use Rattle.sim_steps.specs.declared.words.Address.TheVariants.{Root, StateWord};

use crate::adds::Totals;
use crate::words::{Address, Desk};

// A word of a state row, or 0 where there is none.
fn row_word(desk: &Desk, words: &[u64], row: u64, i: u64) -> u64
    requires desk { IsDesk desk.now }
    requires words { length words.now ≡ words_of desk.now.seats desk.now.rows }
    requires word { i < row_words desk.now.seats }
    ensures { result ≡ read_word desk.now.seats desk.now.rows words.now (StateWord row i) }
{
    if row <= desk.rows {
        words[desk.place(Address::StateWord(row, i))]
    } else {
        0
    }
}

// The adds that are new in a row, the last seat first.
fn push_news(desk: &Desk, words: &[u64], old: u64, new: u64, out: &mut Vec<(u32, u32)>)
    requires desk { IsDesk desk.now }
    requires words { length words.now ≡ words_of desk.now.seats desk.now.rows }
    requires room { vec_len out.old + length
        (news (read_applied desk.now.seats desk.now.rows words.now old)
        (read_applied desk.now.seats desk.now.rows words.now new) 0 desk.now.seats) ≤ vec_capacity out.old }
    requires small { All (λ entry. entry.1 < 2 ^ 32)
        (news (read_applied desk.now.seats desk.now.rows words.now old)
        (read_applied desk.now.seats desk.now.rows words.now new) 0 desk.now.seats) }
    ensures items { out.new.items ≡ out.old.items
        ++ reverse (news (read_applied desk.now.seats desk.now.rows words.now old)
        (read_applied desk.now.seats desk.now.rows words.now new) 0 desk.now.seats) }
    ensures capacity { vec_capacity out.new ≡ vec_capacity out.old }
{
    let mut seat = desk.seats;
    'seats: while seat > 0 {
        seat -= 1;
        let number = row_word(desk, words, new, 7 + 2 * seat);
        if row_word(desk, words, old, 7 + 2 * seat) < number {
            out.push_reserved((seat as u32, number as u32));
        }
    }
}

/// Reads the order of the adds into `out`, which is empty and has the room.
pub fn read_order_into(desk: &Desk, words: &[u64], out: &mut Vec<(u32, u32)>)
    requires desk { IsDesk desk.now }
    requires words { length words.now ≡ words_of desk.now.seats desk.now.rows }
    requires out { out.old.items ≡ [] }
    requires room { length (read_order desk.now.seats desk.now.rows words.now) ≤ vec_capacity out.old }
    requires small { All (λ entry. entry.1 < 2 ^ 32) (read_order desk.now.seats desk.now.rows words.now) }
    ensures { out.new.items ≡ read_order desk.now.seats desk.now.rows words.now }
{
    let mut row = words[0];
    let mut more = desk.rows;
    'rows: while more > 0 && row_word(desk, words, row, 0) > 0 {
        let base = row_word(desk, words, row, 0) - 1;
        push_news(desk, words, base, row, out);
        row = base;
        more -= 1;
    }
    out.reverse();
}

/// The totals of the root's row.
pub fn read_totals(desk: &Desk, words: &[u64]) -> Totals
    requires desk { IsDesk desk.now }
    requires words { length words.now ≡ words_of desk.now.seats desk.now.rows }
    ensures counts { (class : ℕ) → class < 3 →
        slice_index result.counts class ≡ read_word desk.now.seats desk.now.rows words.now
        (StateWord (read_word desk.now.seats desk.now.rows words.now Root) (1 + class)) }
    ensures bytes { (class : ℕ) → class < 3 →
        slice_index result.bytes class ≡ read_word desk.now.seats desk.now.rows words.now
        (StateWord (read_word desk.now.seats desk.now.rows words.now Root) (4 + class)) }
{
    let root = words[0];
    Totals {
        counts: [
            row_word(desk, words, root, 1),
            row_word(desk, words, root, 2),
            row_word(desk, words, root, 3),
        ],
        bytes: [
            row_word(desk, words, root, 4),
            row_word(desk, words, root, 5),
            row_word(desk, words, root, 6),
        ],
    }
}
