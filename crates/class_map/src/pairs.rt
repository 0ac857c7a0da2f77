//! Whether pairs are among others.

ghost use Rattle.std.specs.Prelude.{◌≡◌, All, MatchBool};
ghost use Rattle.plain_map.specs.Places.{IsInKeyOrder};
ghost use Rattle.class_map.specs.Pairs.{IsIn};

use plain_map::Pair;

/// Whether these are among the pairs, which are in the order of their keys.
pub(crate) fn are_in(some: &[Pair], pairs: &[Pair]) -> bool
    ensures { IsInKeyOrder pairs.now →
        MatchBool result (All (IsIn pairs.now) some.now) (All (IsIn pairs.now) some.now → ⊥) }
{
    for pair in some {
        if !is_in(pairs, pair) {
            return false;
        }
    }
    true
}

/// Whether the pair is one of these, which are in the order of their keys.
pub(crate) fn is_in(pairs: &[Pair], pair: &Pair) -> bool
    ensures { IsInKeyOrder pairs.now →
        MatchBool result (IsIn pairs.now pair.now) (IsIn pairs.now pair.now → ⊥) }
{
    match pairs.binary_search_by_key(&pair.key, |held| held.key) {
        Ok(at) => is_same(&pairs[at], pair),
        Err(_) => false,
    }
}

// Whether the two pairs are one.
fn is_same(one: &Pair, other: &Pair) -> bool
    ensures { MatchBool result (one.now ≡ other.now) (one.now ≡ other.now → ⊥) }
{
    one == other
}
