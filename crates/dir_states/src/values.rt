//! What a change of a directory reads and makes: buckets that were loaded, and leaves.

ghost use Rattle.std.specs.Prelude.{◌≡◌, ◌<◌, MatchOption, None, Some, length, map, slice_index_or};
ghost use Rattle.table_model.specs.DirectoryChange.{loaded_of};
ghost use Rattle.table_model.specs.Stores.{base_of_leaf};
ghost use Rattle.dir_states.specs.Views.{as_leaf, as_loaded};

use bucket_states::Bucket;

/// A bucket that was loaded: its number, the number of its row, and what the row says.
#[derive(Drop)]
pub struct Loaded {
    pub bucket: u64,
    pub row: u64,
    pub state: Bucket,
}

/// A bucket that is made, and the number of the bucket that it comes from, or none at an opening.
#[derive(Drop)]
pub struct NewLeaf {
    pub from: Option<u64>,
    pub bucket: Bucket,
}

/// The place of the bucket with this number among those that were loaded.
pub(crate) fn loaded_place(loaded: &[Loaded], bucket: u64) -> Option<usize>
    ensures { MatchOption result
        (loaded_of (map as_loaded loaded.now) bucket ≡ None)
        (λ at. (at < length loaded.now) × ((d : Loaded) → loaded_of (map as_loaded loaded.now) bucket
        ≡ Some (as_loaded (slice_index_or loaded.now at d)))) }
{
    for (place, one) in loaded.iter().enumerate() {
        if one.bucket == bucket {
            return Some(place);
        }
    }
    None
}

/// The number of the row of the bucket that a leaf comes from.
pub fn base_of(loaded: &[Loaded], leaf: &NewLeaf) -> Option<u64>
    ensures { result ≡ base_of_leaf (map as_loaded loaded.now) (as_leaf leaf.now) }
{
    match leaf.from {
        None => None,
        Some(from) => match loaded_place(loaded, from) {
            None => None,
            Some(place) => Some(loaded[place].row),
        },
    }
}
