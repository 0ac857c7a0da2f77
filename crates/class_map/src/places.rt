//! Where a key is among pairs in the order of their keys, or where it would go.

ghost use Rattle.std.specs.Prelude.{IfOk, IfErr};
ghost use Rattle.plain_map.specs.Places.{IsInKeyOrder, IsAt, IsGapFor};

use plain_map::{Key, Pair};

// `Ok` is the key's place, and `Err` the place where it would go. Found by binary search.
pub(crate) fn place_of(pairs: &[Pair], key: &Key) -> Result<usize, usize>
    requires { IsInKeyOrder pairs.now }
    ensures found { IfOk result (IsAt pairs.now key.now) }
    ensures absent { IfErr result (IsGapFor pairs.now key.now) }
{
    pairs.binary_search_by_key(key, |pair| pair.key)
}
