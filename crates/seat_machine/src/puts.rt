//! What a directory try stores, word by word: its leaves, and then its directory row.

ghost use Rattle.std.specs.Prelude.{◌≡◌, ◌+◌, ◌*◌, ◌-◌, ◌≤◌, ◌<◌, ◌^◌, ◌++◌, ◌∷◌, [], All, Some, length, map, vec_capacity, vec_len};
ghost use Rattle.hash_bits.specs.declared.hashing.Hashing.{Hashing};
ghost use Rattle.step_counts.specs.StepCounts.{bucket_row_words};
ghost use Rattle.plain_map.specs.Rows.{HasBucketRoom};
ghost use Rattle.word_rows.specs.BucketWords.{IsBucket, words_of_bucket};
ghost use Rattle.word_rows.specs.LayoutView.{shape_of};
ghost use Rattle.word_rows.specs.declared.addresses.Address.TheVariants.{BucketRowWord, BucketWord, DirectoryWord};
ghost use Rattle.bucket_states.specs.States.{row_of_state, state_of};
ghost use Rattle.table_model.specs.Stores.{base_of_leaf, directory_words, leaf_puts, row_puts};
ghost use Rattle.dir_states.specs.Views.{as_directory, as_leaf, as_loaded};
ghost use Rattle.seat_machine.specs.Puts.{put_of};
ghost use Rattle.seat_machine.specs.View.{setup_at};

use bucket_states::Bucket;
use dir_states::{DirState, Loaded, NewLeaf, base_of};
use plain_map::BucketRow;
use step_counts::DIRECTORY_HEAD_WORDS;
use table_model::Put;
use word_rows::{Address, Layout};

// The words of a bucket row.
fn push_row(row: u64, words: &[u64], puts: &mut Vec<Put>)
    requires { vec_len puts.old + length words.now ≤ vec_capacity puts.old }
    ensures puts { puts.new.items ≡ puts.old.items ++ row_puts (BucketRowWord row) 0 words.now }
    ensures len { vec_len puts.new ≡ vec_len puts.old + length words.now }
    ensures capacity { vec_capacity puts.new ≡ vec_capacity puts.old }
{
    for (i, word) in words.iter().enumerate() {
        puts.push_reserved(Put {
            address: Address::BucketRowWord(row, i as u64),
            word: *word,
        });
    }
}

// The word and the row of a leaf.
fn push_leaf(
    layout: &Layout,
    base: Option<u64>,
    bucket: u64,
    row: u64,
    leaf: &Bucket,
    into: &mut BucketRow,
    out: &mut [u64],
    puts: &mut Vec<Put>,
)
    requires leaf { IsBucket (shape_of layout.now).settings (row_of_state base (state_of leaf.now)) }
    requires into { HasBucketRoom (shape_of layout.now).settings.seats (shape_of layout.now).settings.items into.old }
    requires out { length out.old ≡ bucket_row_words (shape_of layout.now).settings }
    requires room { vec_len puts.old + (1 + bucket_row_words (shape_of layout.now).settings) ≤ vec_capacity puts.old }
    ensures puts { puts.new.items ≡ (puts.old.items ++ put_of (BucketWord bucket) row ∷ [])
        ++ row_puts (BucketRowWord row) 0
        (words_of_bucket (shape_of layout.now).settings (row_of_state base (state_of leaf.now))) }
    ensures len { vec_len puts.new ≡ vec_len puts.old + (1 + bucket_row_words (shape_of layout.now).settings) }
    ensures capacity { vec_capacity puts.new ≡ vec_capacity puts.old }
    ensures into { HasBucketRoom (shape_of layout.now).settings.seats (shape_of layout.now).settings.items into.new }
    ensures out { length out.new ≡ length out.old }
{
    leaf.to_row(base, into);
    layout.write_bucket(into, out);
    puts.push_reserved(Put {
        address: Address::BucketWord(bucket),
        word: row,
    });
    push_row(row, out, puts);
}

/// The word and the row of each leaf, in the order of the leaves; the first has these numbers.
pub fn push_leaves(
    layout: &Layout,
    loaded: &[Loaded],
    bucket: u64,
    row: u64,
    leaves: &[NewLeaf],
    into: &mut BucketRow,
    out: &mut [u64],
    puts: &mut Vec<Put>,
)
    requires bucket { bucket < 2 ^ 63 }
    requires row { row < 2 ^ 63 }
    requires spelled { All (λ leaf. IsBucket (shape_of layout.now).settings
        (row_of_state (base_of_leaf (map as_loaded loaded.now) leaf) leaf.bucket)) (map as_leaf leaves.now) }
    requires into { HasBucketRoom (shape_of layout.now).settings.seats (shape_of layout.now).settings.items into.old }
    requires out { length out.old ≡ bucket_row_words (shape_of layout.now).settings }
    requires room { length leaves.now * (1 + bucket_row_words (shape_of layout.now).settings) ≤ vec_capacity puts.old }
    ensures puts { (hashing : Hashing) → puts.new.items ≡ leaf_puts (setup_at layout.now hashing)
        (base_of_leaf (map as_loaded loaded.now)) bucket row (map as_leaf leaves.now) }
    ensures len { vec_len puts.new ≡ length leaves.now * (1 + bucket_row_words (shape_of layout.now).settings) }
    ensures capacity { vec_capacity puts.new ≡ vec_capacity puts.old }
    ensures into { HasBucketRoom (shape_of layout.now).settings.seats (shape_of layout.now).settings.items into.new }
    ensures out { length out.new ≡ length out.old }
{
    puts.clear();
    for (i, leaf) in leaves.iter().enumerate() {
        push_leaf(
            layout,
            base_of(loaded, leaf),
            bucket + i as u64,
            row + i as u64,
            &leaf.bucket,
            into,
            out,
            puts,
        );
    }
}

/// The row of a directory that is made from the directory row with the number `root`.
pub fn push_directory(number: u64, root: u64, directory: &DirState, puts: &mut Vec<Put>)
    requires root { root < 2 ^ 64 - 1 }
    requires room { vec_len puts.old + (2 + vec_len directory.now.entries) ≤ vec_capacity puts.old }
    ensures puts { puts.new.items ≡ puts.old.items
        ++ row_puts (DirectoryWord number) 0 (directory_words (Some root) (as_directory directory.now)) }
    ensures capacity { vec_capacity puts.new ≡ vec_capacity puts.old }
{
    puts.push_reserved(Put {
        address: Address::DirectoryWord(number, 0),
        word: u64::from(directory.depth),
    });
    puts.push_reserved(Put {
        address: Address::DirectoryWord(number, 1),
        word: root + 1,
    });
    for (i, entry) in directory.entries.iter().enumerate() {
        puts.push_reserved(Put {
            address: Address::DirectoryWord(number, (DIRECTORY_HEAD_WORDS + i) as u64),
            word: *entry,
        });
    }
}
