//! How often buckets can be split, by the number of keys.

ghost use Rattle.std.specs.Prelude.{◌≡◌, ◌<◌, ◌≤◌, ◌^◌};
ghost use Rattle.leaf_laws.specs.Leaves.{splits_by};

use step_counts::Settings;

/// So many buckets at most are split, where no more than so many keys come.
pub(crate) fn splits_by(settings: &Settings, keys: u64) -> u64
    ensures splits { result ≡ splits_by settings.now keys }
    ensures few { result < 2 ^ 32 }
{
    let crowds = keys / (u64::from(settings.items) + 1);
    let mut splits = 0;
    for depth in settings.start..settings.depth {
        splits += crowds.min(prefixes(depth));
    }
    splits
}

// How many prefixes of so many bits there are.
fn prefixes(depth: u32) -> u64
    requires { depth ≤ 12 }
    ensures exact { result ≡ 2 ^ depth }
    ensures few { result ≤ 4096 }
{
    1 << depth
}
