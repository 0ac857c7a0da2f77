//! The words of small openings.

ghost use Rattle.std.specs.Prelude.{◌≡◌, All, IfSome};
ghost use Rattle.bucket_states.specs.Parts.{HasDistinctKeys};
ghost use Rattle.table_model.specs.Setup.{IsPair};

use super::{SMALL_ROWS, key};
use hash_bits::Hashing;
use opening_words::{Opener, first_words};
use plain_map::{OpenFault, Pair};
use std::alloc::{AllocError, Global};
use std::test::Fail;
use step_counts::Settings;
use word_rows::Layout;

// A key with a value and bytes.
fn held(port: u16, value: u32, bytes: u32) -> Pair
    ensures { IsPair result }
{
    Pair {
        key: key(port),
        value: u64::from(value),
        bytes: u64::from(bytes),
    }
}

// No pair.
fn no_pairs() -> [Pair; 0]
    ensures distinct { HasDistinctKeys result }
    ensures pairs { All IsPair result }
{
    []
}

// Three pairs, whose keys have to differ.
#[tactic(auto, using(bucket_states::proofs::DistinctKeys::three_distinct))]
fn three(first: Pair, second: Pair, third: Pair) -> Option<[Pair; 3]>
    requires pairs { IsPair first × IsPair second × IsPair third }
    ensures distinct { IfSome result HasDistinctKeys }
    ensures pairs { IfSome result (λ pairs. All IsPair pairs) }
{
    if first.key == second.key || first.key == third.key || second.key == third.key {
        return None;
    }
    Some([first, second, third])
}

// The 197 words of a table of one seat, two items and depth 2, which are 0 but for these parts, each from the word with
// its number on.
fn words_with(alloc: Global, parts: &[(usize, &[u64])]) -> Result<Vec<u64>, AllocError> {
    let mut words = vec![in alloc; 0; 197]?;
    for (at, part) in parts {
        put_part(&mut words, *at, part);
    }
    Ok(words)
}

// Puts a part in, as far as there are words.
fn put_part(words: &mut Vec<u64>, at: usize, part: &[u64]) {
    for (i, word) in part.iter().enumerate() {
        let place = at.saturating_add(i);
        if place < words.len() {
            words[place] = *word;
        }
    }
}

// The words of a table that begins with the ports 2, 16384 and 1, in this order. The ports 1, 2 and 16384 have the
// first two bits 0, 0 and 1, so that a leaf of depth 1 is split once. Of the words, 3 to 8 are the bucket words, those
// from 17 on bucket rows of 21 words, and those from 185 on the directory's. Each item has its bytes.
fn words_of_three(alloc: Global) -> Result<Vec<u64>, AllocError> {
    let (one, two, far) = (key(1), key(2), key(16384));
    words_with(
        alloc,
        &[
            (3, &[0, 1, 2]),
            (17, &[0, 2, 0, 0, 2, 0, two.k1, 0, two.k3, two.k4, 1, 5]),
            (29, &[0, one.k1, 0, one.k3, one.k4, 2, 10]),
            (38, &[1, 2, 0, 0, 1, 0, far.k1, 0, far.k3, far.k4, 3, 0]),
            (59, &[1, 1]),
            (185, &[2, 0, 0, 1, 2, 2]),
        ],
    )
}

// A table of depth 1 begins with three pairs, and then, in the same room and the same words, with none.
#[test]
fn room_is_used_again(rt: HostRuntime) -> Result<(), Fail> {
    let settings = Settings::new(1, 2, 2, 1)?;
    let layout = Layout::new(&settings, &[SMALL_ROWS]);
    let Some(first) = three(held(2, 1, 5), held(16384, 3, 0), held(1, 2, 10)) else {
        panic!(rt; "the keys differ");
    };
    let mut opener = Opener::with_room(rt.alloc(), &settings)?;
    assert!(rt; opener.is_for(&settings) && !opener.is_for(&Settings::new(1, 2, 2, 0)?));
    let mut words = vec![in rt.alloc(); 0; layout.words() as usize]?;
    let Ok(()) = opener.put(&layout, Hashing::Ports(0), &first, &mut words) else {
        panic!(rt; "the pairs find room");
    };
    assert_eq!(rt; words, words_of_three(rt.alloc())?);
    opener.clear(&layout, &mut words);
    let Ok(()) = opener.put(&layout, Hashing::Ports(0), &no_pairs(), &mut words) else {
        panic!(rt; "no pair wants room");
    };
    let of_none = words_with(
        rt.alloc(),
        &[
            (3, &[0, 1]),
            (17, &[0, 1]),
            (38, &[1, 1]),
            (185, &[1, 0, 0, 1]),
        ],
    )?;
    assert_eq!(rt; words, of_none);
    Ok(())
}

// The same three pairs open a table of depth 0. Where all three are of one class of two places, the third finds no
// room.
#[test]
fn words_are_made_at_once(rt: HostRuntime) -> Result<(), Fail> {
    let settings = Settings::new(1, 2, 2, 0)?;
    let layout = Layout::new(&settings, &[SMALL_ROWS]);
    let Some(first) = three(held(2, 1, 5), held(16384, 3, 0), held(1, 2, 10)) else {
        panic!(rt; "the keys differ");
    };
    let words = first_words(rt.alloc(), &layout, Hashing::Ports(0), &first)?;
    assert_eq!(rt; words, words_of_three(rt.alloc())?);
    let Some(first) = three(held(1, 1, 0), held(2, 2, 0), held(3, 3, 0)) else {
        panic!(rt; "the keys differ");
    };
    match first_words(rt.alloc(), &layout, Hashing::Ports(0), &first) {
        Ok(_) => panic!(rt; "the third finds no room"),
        Err(fault) => assert_eq!(rt; fault, OpenFault::NoRoom { place: 2 }),
    }
    Ok(())
}
