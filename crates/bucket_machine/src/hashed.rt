//! A key whose hash is made once.

ghost use Rattle.std.specs.Prelude.{◌≡◌};
ghost use Rattle.plain_map.specs.Keys.{hash_of_key};
ghost use Rattle.bucket_machine.specs.HashedKeys.{IsHashed};

use hash_bits::Hashing;
use plain_map::Key;

/// A key and its hash.
#[derive(Clone, Copy)]
pub struct Hashed {
    pub key: Key,
    pub hash: u64,
}

impl Hashed {
    /// The key with its hash.
    #[inline(always)]
    pub fn new(hashing: &Hashing, key: &Key) -> Hashed
        ensures hashed { IsHashed hashing.now result }
        ensures key { result.key ≡ key.now }
    {
        Hashed {
            key: *key,
            hash: key.hash(hashing),
        }
    }

    /// The hash of any key, which is made anew only where it is another one.
    #[inline(always)]
    pub fn hash_of(&self, hashing: &Hashing, key: &Key) -> u64
        requires { IsHashed hashing.now self.now }
        ensures { result ≡ hash_of_key hashing.now key.now }
    {
        if *key == self.key {
            self.hash
        } else {
            key.hash(hashing)
        }
    }
}
