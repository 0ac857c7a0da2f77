//! The items of a row, loaded one by one. They need no room.

ghost use Rattle.std.specs.Prelude.{◌≡◌, ◌+◌, ◌<◌, ◌≤◌, ◌^◌, length, take};
ghost use Rattle.bucket_states.specs.Items.{same_key};
ghost use Rattle.exchange_model.specs.Steps.{GlanceCount, Glances, OfBucket, OfKey, row_of_source};
ghost use Rattle.exchange_model.specs.Goes.{gone_through, pass_pair};
ghost use Rattle.exchange_calls.specs.Desks.{IsOf};
ghost use Rattle.exchange_calls.specs.Items.{HasFound, IsItem, looking, source_of};

use crate::desk::Desk;
use crate::runs::load_run;
use crate::steps::Steps;
use plain_map::{KEY_WORDS, Key, Pair};
use step_counts::ITEM_WORDS;

/// Which row is looked at.
#[derive(Clone, Copy)]
pub enum Source {
    /// That of a bucket word: how many tries are left after this one, and the word. The first is kept for the proofs
    /// alone.
    Word(u64, u64),
    /// One that is held.
    Held(u64),
}

// Loads what is left of an item whose first word is loaded.
#[inline(always)]
fn load_rest<S: Steps>(steps: &mut S, at: u64, word: u64) -> Pair
    requires item { IsItem (S.now steps.old) at word }
    requires few { at < 2 ^ 63 }
    ensures { (item : IsItem (S.now steps.old) at word) → S.now steps.new ≡
        looking (S.now steps.old) item.aim (pass_pair item.source item.aim item.scan result) }
{
    let mut first = [0; 4];
    load_run(steps, at, &mut first);
    let mut last = [0; 2];
    load_run(steps, at + KEY_WORDS as u64, &mut last);
    Pair {
        key: Key {
            k0: first[0],
            k1: first[1],
            k2: first[2],
            k3: first[3],
            k4: word,
        },
        value: last[0],
        bytes: last[1],
    }
}

// Whether the pair has the key.
#[inline(always)]
fn has_key(pair: &Pair, key: &Key) -> bool
    ensures { result ≡ same_key pair.now.key key.now }
{
    pair.key == *key
}

/// Goes through the items of this row up to the one with the key: its value. Most items are told apart by the first
/// word that is loaded.
#[inline(always)]
pub fn find_item<S: Steps>(
    steps: &mut S,
    desk: &Desk,
    source: Source,
    row: u64,
    key: &Key,
) -> Option<u64>
    requires phase { (S.now steps.old).now.stand ≡ Glances (OfKey key.now) (GlanceCount (source_of source)) }
    requires desk { IsOf (S.now steps.old) desk.now }
    requires row { row ≡ row_of_source (S.now steps.old).plan (source_of source) }
    requires few { row < 2 ^ 32 }
    ensures { HasFound (S.now steps.old) (S.now steps.new) (source_of source) key.now result }
{
    let _source = source;
    let first = desk.row(row);
    let most = steps.load(first);
    let count = desk.count_in(most);
    for i in 0..count {
        let at = first + 1 + ITEM_WORDS as u64 * i;
        let word = steps.load(at + KEY_WORDS as u64 - 1);
        if word != key.k4 {
            continue;
        }
        let pair = load_rest(steps, at, word);
        if has_key(&pair, key) {
            return Some(pair.value);
        }
    }
    None
}

/// Copies all items of this row, and tells how many there are.
#[inline(always)]
pub fn copy_items<S: Steps>(
    steps: &mut S,
    desk: &Desk,
    source: Source,
    row: u64,
    bucket: u64,
    out: &mut [Pair],
) -> usize
    requires phase { (S.now steps.old).now.stand ≡ Glances (OfBucket bucket) (GlanceCount (source_of source)) }
    requires desk { IsOf (S.now steps.old) desk.now }
    requires row { row ≡ row_of_source (S.now steps.old).plan (source_of source) }
    requires few { row < 2 ^ 32 }
    requires room { desk.now.sizes.items ≤ length out.old }
    ensures goes { S.now steps.new ≡ looking (S.now steps.old) (OfBucket bucket)
        (gone_through (source_of source) (take result out.new)) }
    ensures few { result ≤ length out.new }
    ensures len { length out.new ≡ length out.old }
{
    let _bucket = bucket;
    let _source = source;
    let first = desk.row(row);
    let most = steps.load(first);
    let count = desk.count_in(most) as usize;
    for i in 0..count {
        let at = first + 1 + ITEM_WORDS as u64 * i as u64;
        let word = steps.load(at + KEY_WORDS as u64 - 1);
        let pair = load_rest(steps, at, word);
        out[i] = pair;
    }
    count
}
