//! The accesses of a seat to the table's words. Each is one load, store or exchange, and takes the late steps with it.
//! How many these are is told by `_late`, to the proof alone.

ghost use Rattle.std.specs.Prelude.{◌≡◌, ◌<◌, ◌==◌};
ghost use Rattle.std.specs.Prelude.{Option, None};
ghost use prog.Atomic.{either};
ghost use Rattle.atomic_table.specs.Table.{Allows};
ghost use Rattle.shared_table.specs.Rule.{Holds, Moved, plain};

use crate::rule::{Access, Acts};
use crate::running::{Token, Words};

/// Loads a word.
#[inline(always)]
pub(crate) fn load<A: Access>(words: &Words, token: &mut Token, _late: u64, at: u64) -> u64
    requires table { token.old.table_id ≡ words.now.table_id }
    requires inside { at < words.now.table_id.words }
    requires allowed { Allows (Holds (plain words.now.key)) words.now.table_id.slots token.old.id token.old.me at
        (λ n. n) (λ n w. Moved A.asked A.late token.old.me n w) }
    ensures table { token.new.table_id ≡ token.old.table_id }
    ensures moved { Moved A.asked A.late token.old.me result token.new.me }
{
    words.load::<Acts<A>>(token, at as usize)
}

/// Stores a word.
#[inline(always)]
pub(crate) fn store<A: Access>(words: &Words, token: &mut Token, _late: u64, at: u64, word: u64)
    requires table { token.old.table_id ≡ words.now.table_id }
    requires inside { at < words.now.table_id.words }
    requires allowed { Allows (Holds (plain words.now.key)) words.now.table_id.slots token.old.id token.old.me at
        (λ _. word) (λ _ w. Moved A.asked A.late token.old.me word w) }
    ensures table { token.new.table_id ≡ token.old.table_id }
    ensures moved { Moved A.asked A.late token.old.me word token.new.me }
{
    words.store::<Acts<A>>(token, at as usize, word);
}

/// Puts `new` there, where the word is `old`, and answers what it was.
#[inline(always)]
pub(crate) fn exchange<A: Access>(
    words: &Words,
    token: &mut Token,
    _late: u64,
    at: u64,
    old: u64,
    new: u64,
) -> u64
    requires table { token.old.table_id ≡ words.now.table_id }
    requires inside { at < words.now.table_id.words }
    requires allowed { Allows (Holds (plain words.now.key)) words.now.table_id.slots token.old.id token.old.me at
        (λ n. either (n == old) new n) (λ n w. Moved A.asked A.late token.old.me n w) }
    ensures table { token.new.table_id ≡ token.old.table_id }
    ensures moved { Moved A.asked A.late token.old.me result token.new.me }
{
    words.compare_exchange::<Acts<A>>(token, at as usize, old, new)
}
