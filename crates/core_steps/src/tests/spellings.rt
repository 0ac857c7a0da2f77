//! How rows are spelled, and how keys are mixed, which nothing outside rests on.

ghost use Rattle.std.specs.Prelude.{◌≡◌};
ghost use Rattle.std.specs.Bool.{OnTrue};
ghost use Rattle.plain_map.specs.Rows.{bucket_content, HasBucketRoom};
ghost use Rattle.word_rows.specs.BucketWords.{IsBucket};
ghost use Rattle.word_rows.specs.LayoutView.{shape_of};

use super::{SMALL_ROWS, key};
use hash_bits::{Hashing, spread};
use plain_map::{BucketRow, Call, Reply};
use std::test::Fail;
use step_counts::Settings;
use word_rows::{Layout, OpRow, read_op, reply_of, reply_word, write_op};

// The words of the key of port 1 that are not 0.
const K1: u64 = 0x0a00_0001;

const K3: u64 = 0x0a00_0002;

const K4: u64 = 0x0100_5006;

// A bucket row of a table of one seat and two items, after one insert.
const FILLED: [u64; 21] = [
    0, 1, 1, 0, 1, 0, K1, 0, K3, K4, 1, 0, 0, 0, 0, 0, 0, 0, 0, 1, 1,
];

// Each update has its words, and each way in which words spell no op.
#[test]
fn ops_that_are_words(rt: HostRuntime) {
    for (number, call, words) in [
        (1, Call::Insert(key(1), 1), [1, 1, 0, K1, 0, K3, K4, 1]),
        (7, Call::Remove(key(1)), [7, 2, 0, K1, 0, K3, K4, 0]),
        (8, Call::Tally(key(1), 5), [8, 3, 0, K1, 0, K3, K4, 5]),
        // 4 + 8 * 5
        (9, Call::Count(key(1), 7, 5), [9, 44, 0, K1, 0, K3, K4, 7]),
        (4, Call::Put(key(1), 7), [4, 5, 0, K1, 0, K3, K4, 7]),
        (
            2,
            Call::Count(key(1), 0, (1 << 61) - 1),
            [2, 0xffff_ffff_ffff_fffc, 0, K1, 0, K3, K4, 0],
        ),
    ] {
        let row = OpRow { number, call };
        let mut out = [0; 8];
        write_op(&row, &mut out);
        assert_eq!(rt; out, words);
        assert!(rt; read_op(&words) == Some(row), "{words:?}");
    }
    for words in [
        [0, 1, 0, K1, 0, K3, K4, 1],
        [1 << 52, 1, 0, K1, 0, K3, K4, 1],
        [1, 0, 0, K1, 0, K3, K4, 1],
        [1, 6, 0, K1, 0, K3, K4, 1],
        [1, 5 + 8, 0, K1, 0, K3, K4, 1],
        [1, 1, 0, K1, 0, K3, K4, 1 << 61],
        [1, 3, 0, K1, 0, K3, K4, 1 << 61],
        [1, 4, 0, K1, 0, K3, K4, 1 << 61],
        [1, 5, 0, K1, 0, K3, K4, 1 << 61],
        [1, 2, 0, K1, 0, K3, K4, 1],
    ] {
        assert!(rt; read_op(&words) == None, "{words:?}");
    }
}

// Each reply to an update has its word, in numbers, and no other word is one.
#[test]
fn replies_that_are_words(rt: HostRuntime) {
    for (reply, word) in [
        (None, 0),
        (Some(Reply::New), 1),
        (Some(Reply::Old(7)), 58),
        (Some(Reply::NoRoom), 3),
        (Some(Reply::Gone((1 << 61) - 1)), 0xffff_ffff_ffff_fffc),
        (Some(Reply::Absent), 5),
        (Some(Reply::Sum(10)), 86),
    ] {
        let read = reply_of(word);
        assert!(rt; read == reply, "{word}");
        assert_eq!(rt; reply_word(read), word);
    }
    for word in [7, 8, 15] {
        assert!(rt; reply_of(word) == None, "{word}");
    }
}

// Whether a bucket row of the small table is read.
fn is_bucket(layout: &Layout, words: &[u64; 21], row: &mut BucketRow) -> bool
    requires seats { (shape_of layout.now).settings.seats ≡ 1 }
    requires items { (shape_of layout.now).settings.items ≡ 2 }
    requires room { HasBucketRoom 1 2 row.old }
    ensures read { OnTrue result (IsBucket (shape_of layout.now).settings (bucket_content row.new)) }
    ensures room { HasBucketRoom 1 2 row.new }
{
    layout.read_bucket(words, row)
}

// Of the worked row with one word changed: which are rows too, and each way in which words spell none.
#[test]
fn bucket_words_that_spell_no_row(rt: HostRuntime) -> Result<(), Fail> {
    let settings = Settings::new(1, 2, 1, 1)?;
    let layout = Layout::new(&settings, &[SMALL_ROWS]);
    let mut row = BucketRow::with_room(rt.alloc(), &settings)?;
    for (place, word, spells) in [
        (0, 1, true),
        (0, 2, false),
        (1, 0, true),
        (1, 2, false),
        (2, u64::MAX, true),
        (3, 1, true),
        (3, 2, false),
        (4, 0, false),
        (4, 2, true),
        (4, 3, false),
        (5, u64::MAX, true),
        (9, u64::MAX, true),
        (10, (1 << 61) - 1, true),
        (10, 1 << 61, false),
        (11, (1 << 61) - 1, true),
        (11, 1 << 61, false),
        (12, 1, false),
        (17, 1, false),
        (18, 1, false),
        (19, (1 << 52) - 1, true),
        (19, 1 << 52, false),
        (19, 0, false),
        (20, 0, false),
        (20, 2 + 8 * 5, true),
        (20, 4, true),
        (20, 3, true),
        (20, 5, true),
        (20, 6 + 8 * 5, true),
        (20, 7, false),
        (20, 1 + 8, false),
        (20, 3 + 8, false),
        (20, 5 + 8, false),
    ] {
        let mut words = FILLED;
        assert!(rt; place < 21);
        words[place] = word;
        assert_eq!(rt;
            is_bucket(&layout, &words, &mut row),
            spells,
            "{word} at {place}"
        );
    }
    Ok(())
}

// The first three outputs of SplitMix64 from seed 0, which are `spread` of the multiples of its step.
#[test]
fn spread_gives_splitmix_outputs(rt: HostRuntime) {
    for (z, want) in [
        (0, 0),
        (0x9e37_79b9_7f4a_7c15, 0xe220_a839_7b1d_cdaf),
        (0x3c6e_f372_fe94_f82a, 0x6e78_9e6a_a1b9_65f4),
        (0xdaa6_6d2c_7ddf_743f, 0x06c4_5d18_8009_454f),
    ] {
        assert_eq!(rt; spread(z), want, "at {z}");
    }
}

// The second output, reached through a key's words: what the fourth word leaves and the last word together make twice
// the step. Words and seed are mixed alike, one after the other, so each of them can be the one that begins.
#[test]
fn mix_chains_seed_and_words(rt: HostRuntime) {
    let step = 0x9e37_79b9_7f4a_7c15;
    let other = 0xde4e_5b4b_8589_3585;
    let third = 0x6e78_9e6a_a1b9_65f4;
    assert_eq!(rt; Hashing::Mix(0).hash([0, 0, 0, step, other]), third);
    assert_eq!(rt; Hashing::Mix(step).hash([0, other, third, 0, 0]), 0);
}
