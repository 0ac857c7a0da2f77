//! A directory as a value, with room that is made once.

ghost use Rattle.std.specs.Prelude.{◌≡◌, ◌∷◌, ◌≤◌, [], IfOk, length, vec_capacity, vec_len};
ghost use Rattle.plain_map.specs.Rows.{directory_content, HasDirectoryRoom};
ghost use Rattle.table_model.specs.Directories.{bucket_of, directory_in_row};
ghost use Rattle.dir_states.specs.Views.{as_directory, empty_directory, row_of_directory};
ghost use Rattle.dir_states.specs.Rooms.{HasPlaces};

use hash_bits::bits;
use plain_map::{DirectoryRow, Key, Rules};
use std::alloc::{AllocError, Global};
use step_counts::Settings;

/// A directory: for each place, which is the first bits of a hash, the number of a bucket.
#[derive(Drop)]
pub struct DirState {
    /// In bits, at most the greatest depth.
    pub depth: u32,
    /// One for each number below 2^depth.
    pub entries: Vec<u64>,
}

impl DirState {
    /// The directory of depth 0 that names bucket 0, with room for every directory of these settings.
    ///
    /// The only error is want of memory.
    pub fn with_room(alloc: Global, settings: &Settings) -> Result<DirState, AllocError>
        ensures empty { IfOk result (λ directory. as_directory directory ≡ empty_directory) }
        ensures room { IfOk result (HasPlaces settings.now.depth) }
    {
        let mut entries = Vec::with_capacity(alloc, 1usize << settings.depth)?;
        entries.push_reserved(0);
        Ok(DirState { depth: 0, entries })
    }

    /// Becomes what a row says. It takes no memory.
    pub fn from_row(&mut self, row: &DirectoryRow)
        requires { vec_len row.now.entries ≤ vec_capacity self.old.entries }
        ensures state { as_directory self.new ≡ directory_in_row (directory_content row.now) }
        ensures room { vec_capacity self.new.entries ≡ vec_capacity self.old.entries }
    {
        self.depth = row.depth;
        refill(&mut self.entries, &row.entries);
    }

    /// Writes a row of this directory that is made from the directory row with the number `base`. It takes no memory.
    pub fn to_row(&self, base: Option<u64>, row: &mut DirectoryRow)
        requires { vec_len self.now.entries ≤ vec_capacity row.old.entries }
        ensures content { directory_content row.new ≡ row_of_directory base (as_directory self.now) }
        ensures room { vec_capacity row.new.entries ≡ vec_capacity row.old.entries }
    {
        row.depth = self.depth;
        row.base = base;
        refill(&mut row.entries, &self.entries);
    }

    /// The number of the key's bucket, and 0 where the directory has no entry for it.
    #[tactic(auto, unfolding(bucket_states::specs::Items::prefix_of))]
    pub fn bucket_of(&self, rules: &Rules, key: &Key) -> u64
        requires { self.now.depth ≤ 64 }
        ensures { result ≡ bucket_of rules.now (as_directory self.now) key.now }
    {
        let place = bits(key.hash(&rules.hashing), self.depth) as usize;
        match self.entries.get(place) {
            Some(bucket) => *bucket,
            None => 0,
        }
    }
}

// Copies the entries into a vector that has room for them.
fn refill(into: &mut Vec<u64>, entries: &[u64])
    requires { length entries.now ≤ vec_capacity into.old }
    ensures items { into.new.items ≡ entries.now }
    ensures room { vec_capacity into.new ≡ vec_capacity into.old }
{
    into.clear();
    for entry in entries {
        into.push_reserved(*entry);
    }
}
