//! Hints to the places of keys. Nothing relies on what the places are: whoever follows a hint compares the key that
//! stands there.

ghost use Rattle.std.specs.Prelude.{◌≡◌, ◌<◌, length, true};
ghost use Rattle.std.specs.List.{list_any};
ghost use Rattle.bucket_states.specs.Items.{same_key};
ghost use Rattle.batch_rows.specs.declared.hints.TheConstants.{HINTS};

use plain_map::Key;

/// How many hints there are.
pub(crate) const HINTS: usize = 4_096;

// 2^64 divided by the golden ratio, as an odd number: the highest bits of a product with it depend on each lower bit.
const HINT_MULTIPLIER: u64 = 0x9e37_79b9_7f4a_7c15;

// What is shifted out of a product, so that 12 bits are left.
const HINT_SHIFT: u32 = 52;

/// Where the hint to a key stands: two multiplications spread all words over the bits that are kept.
pub(crate) fn hint_place(key: &Key) -> usize
    ensures { result < HINTS }
{
    let low = (key.k0 ^ key.k1).wrapping_mul(HINT_MULTIPLIER);
    ((low ^ key.k2 ^ key.k3 ^ key.k4).wrapping_mul(HINT_MULTIPLIER) >> HINT_SHIFT) as usize
}

/// Whether the key stands among these where its hint leads to.
pub(crate) fn is_hinted(keys: &[Key], hints: &[u32], key: &Key) -> bool
    requires hints { length hints.now ≡ HINTS }
    ensures { result ≡ true → list_any (same_key key.now) keys.now ≡ true }
{
    let hinted = hints[hint_place(key)] as usize;
    hinted < keys.len() && keys[hinted] == *key
}
