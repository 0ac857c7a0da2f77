//! Announced ops as words.

ghost use Rattle.std.specs.Prelude.{◌≡◌, ◌∷◌, ◌++◌, [], IfSome, IfNone};
ghost use Rattle.plain_map.specs.Keys.{words_of_key};
ghost use Rattle.word_rows.specs.OpWords.{IsOp, SpellsOp, words_of_op};

use crate::keys::{read_key, write_keyed};
use plain_map::{Call, KEY_WORDS, Key, NUMBER_LIMIT, VALUE_LIMIT};
use step_counts::OP_WORDS;

/// The kind of an insert.
pub const INSERT: u64 = 1;
/// The kind of a remove.
pub const REMOVE: u64 = 2;
/// The kind of a tally.
pub const TALLY: u64 = 3;
/// The kind of a count. Its word is this and 8 times the amount.
pub const COUNT: u64 = 4;
/// The kind of a put.
pub const PUT: u64 = 5;

/// An update that a seat has announced.
#[derive(Clone, Copy, PartialEq, Eq)]
pub struct OpRow {
    /// Counts the seat's answered calls and this one, from 1.
    pub number: u64,
    /// Any call but a lookup.
    pub call: Call,
}

/// Writes the words of an op.
pub fn write_op(row: &OpRow, out: &mut [u64; OP_WORDS])
    requires { IsOp row.now }
    ensures { out.new ≡ words_of_op row.now }
{
    match row.call {
        Call::Insert(key, value) => write_call(row.number, INSERT, &key, value, out),
        Call::Remove(key) => write_call(row.number, REMOVE, &key, 0, out),
        Call::Tally(key, amount) => write_call(row.number, TALLY, &key, amount, out),
        Call::Count(key, value, amount) => {
            write_call(row.number, COUNT + 8 * amount, &key, value, out)
        }
        Call::Put(key, value) => write_call(row.number, PUT, &key, value, out),
        Call::Lookup(_) => unreachable!(),
    }
}

// Writes the number, the kind, the key and the value of an op.
fn write_call(number: u64, kind: u64, key: &Key, value: u64, out: &mut [u64; OP_WORDS])
    ensures { out.new ≡ number ∷ kind ∷ (words_of_key key.now ++ value ∷ []) }
{
    write_keyed(key, value, &mut out[2..]);
    out[1] = kind;
    out[0] = number;
}

/// The op that these words spell.
///
/// `None` comes exactly where they are the spelling of none: the number is 0 or `NUMBER_LIMIT` or more, the kind is
/// another, a value or a tally's amount is `VALUE_LIMIT` or more, or a remove has a value.
pub fn read_op(words: &[u64; OP_WORDS]) -> Option<OpRow>
    ensures read { IfSome result (λ row. SpellsOp row words.now) }
    ensures none { IfNone result ((row : OpRow) → ¬ SpellsOp row words.now) }
{
    let number = words[0];
    let key = read_key(&words[2..2 + KEY_WORDS]);
    let value = words[2 + KEY_WORDS];
    let call = match words[1] {
        INSERT if value < VALUE_LIMIT => Call::Insert(key, value),
        REMOVE if value == 0 => Call::Remove(key),
        TALLY if value < VALUE_LIMIT => Call::Tally(key, value),
        PUT if value < VALUE_LIMIT => Call::Put(key, value),
        word if word % 8 == COUNT && value < VALUE_LIMIT => Call::Count(key, value, word / 8),
        _ => return None,
    };
    if number == 0 || number >= NUMBER_LIMIT {
        return None;
    }
    Some(OpRow { number, call })
}
