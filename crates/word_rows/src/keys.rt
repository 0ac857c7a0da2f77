//! Keys and items as words.

ghost use Rattle.std.specs.Prelude.{◌≡◌, ◌+◌, ◌∷◌, ◌++◌, [], length};
ghost use Rattle.plain_map.specs.Keys.{words_of_key};
ghost use Rattle.word_rows.specs.KeyWords.{words_of_pair};

use plain_map::{KEY_WORDS, Key, Pair};
use step_counts::ITEM_WORDS;

// An item has two words more than its key, the value and the bytes.
const _: () = prove!(KEY_WORDS + 2 == ITEM_WORDS);

/// Writes the words of a key.
pub(crate) fn write_key(key: &Key, out: &mut [u64])
    requires { length out.old ≡ KEY_WORDS }
    ensures { out.new ≡ words_of_key key.now }
{
    out.copy_from_slice(&key.words());
}

/// The key that these words spell.
pub fn read_key(words: &[u64]) -> Key
    requires { length words.now ≡ KEY_WORDS }
    ensures { words.now ≡ words_of_key result }
{
    Key {
        k0: words[0],
        k1: words[1],
        k2: words[2],
        k3: words[3],
        k4: words[4],
    }
}

/// Writes the words of a key and a number.
pub(crate) fn write_keyed(key: &Key, number: u64, out: &mut [u64])
    requires { length out.old ≡ KEY_WORDS + 1 }
    ensures { out.new ≡ words_of_key key.now ++ number ∷ [] }
{
    write_key(key, &mut out[..KEY_WORDS]);
    out[KEY_WORDS] = number;
}

/// Writes the words of an item.
pub fn write_pair(pair: &Pair, out: &mut [u64])
    requires { length out.old ≡ ITEM_WORDS }
    ensures { out.new ≡ words_of_pair pair.now }
{
    write_key(&pair.key, &mut out[..KEY_WORDS]);
    out[KEY_WORDS] = pair.value;
    out[KEY_WORDS + 1] = pair.bytes;
}

/// The item that these words spell.
pub fn read_pair(words: &[u64]) -> Pair
    requires { length words.now ≡ ITEM_WORDS }
    ensures { words.now ≡ words_of_pair result }
{
    Pair {
        key: read_key(&words[..KEY_WORDS]),
        value: words[KEY_WORDS],
        bytes: words[KEY_WORDS + 1],
    }
}
