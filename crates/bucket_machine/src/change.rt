//! The change of a bucket row by announced calls, on its words.
//!
//! Its words become those of the bucket after all calls, which no one has to read out and write back. The walk over the
//! seats ends where the bucket freezes, since a frozen bucket changes no more.

ghost use Rattle.std.specs.Prelude.{◌≡◌, ◌+◌, ◌^◌, ◌<◌, ◌≤◌, ◌≢◌, Some, None, length, slice_index};
ghost use Rattle.step_counts.specs.StepCounts.{bucket_row_words};
ghost use Rattle.plain_map.specs.Rows.{BucketContent};
ghost use Rattle.plain_map.specs.declared.rules.Rules.{Rules};
ghost use Rattle.plain_map.specs.declared.calls.Call.TheVariants.{Insert, Remove, Tally, Count, Put};
ghost use Rattle.plain_map.specs.Keys.{pair_of};
ghost use Rattle.plain_map.specs.PlainObject.{counted_session};
ghost use Rattle.plain_map.specs.Updates.{IsSmallPair};
ghost use Rattle.word_rows.specs.BucketWords.{SpellSomeBucket, bucket_of_words, words_of_bucket};
ghost use Rattle.bucket_states.specs.States.{row_of_state};
ghost use Rattle.bucket_states.specs.States.{state_in_row};
ghost use Rattle.bucket_states.specs.Items.{prefix_of};
ghost use Rattle.bucket_states.specs.Change.{after_op, change, is_due};
ghost use Rattle.bucket_states.specs.Values.{AreUpdates, IsUpdate};
ghost use Rattle.bucket_machine.specs.HashedKeys.{IsHashed};
ghost use Rattle.bucket_machine.specs.Rows.{Becomes, BecomesChanged, IsAnsweredIn, IsBroughtIn, IsSpelled, Spell};

use crate::hashed::Hashed;
use crate::row::{
    find_item, freeze, pair_in, push_item, remove_item, set_base, set_bytes, set_seat, set_value,
};
use bucket_states::Op;
use hash_bits::bits;
use plain_map::{Call, Key, Pair, Reply, Rules, add_bytes};
use step_counts::{BUCKET_HEAD_WORDS, COUNT_PLACE, ITEM_WORDS, SEAT_WORDS, Settings};
use word_rows::row_laws;

// Takes a new pair, or answers why it does not. `None` is for a bucket that has to be split first.
#[inline(always)]
fn bring(settings: &Settings, rules: &Rules, row: &mut [u64], pair: &Pair) -> Option<Reply>
    requires long { length row.old ≡ bucket_row_words settings.now }
    requires few { slice_index row.old COUNT_PLACE ≤ settings.now.items }
    requires rules { rules.now.items ≡ settings.now.items }
    requires small { IsSmallPair pair.now }
    ensures brought { (b : BucketContent) → Spell settings.now b row.old →
        IsBroughtIn rules.now settings.now pair.now b row.new result }
    ensures long { length row.new ≡ length row.old }
{
    let _pair = *pair;
    if row[COUNT_PLACE] < settings.items as u64 {
        push_item(settings, row, pair);
        Some(Reply::New)
    } else {
        if row[1] < rules.depth as u64 {
            None
        } else {
            Some(Reply::NoRoom)
        }
    }
}

// Takes a new pair, or answers what the key has.
#[inline(always)]
fn insert(settings: &Settings, rules: &Rules, row: &mut [u64], pair: &Pair) -> Option<Reply>
    requires long { length row.old ≡ bucket_row_words settings.now }
    requires few { slice_index row.old COUNT_PLACE ≤ settings.now.items }
    requires rules { rules.now.items ≡ settings.now.items }
    requires small { IsSmallPair pair.now }
    requires begins { pair.now.bytes ≡ 0 }
    ensures answer { (b : BucketContent) → Spell settings.now b row.old →
        IsAnsweredIn rules.now settings.now (Insert pair.now.key pair.now.value) b row.new result }
    ensures long { length row.new ≡ length row.old }
{
    let _pair = *pair;
    match find_item(settings, row, &pair.key) {
        Some(at) => Some(Reply::Old(pair_in(settings, row, at).value)),
        None => bring(settings, rules, row, pair),
    }
}

// Takes a new pair, or adds its bytes to the key's.
#[inline(always)]
fn count(settings: &Settings, rules: &Rules, row: &mut [u64], pair: &Pair) -> Option<Reply>
    requires long { length row.old ≡ bucket_row_words settings.now }
    requires few { slice_index row.old COUNT_PLACE ≤ settings.now.items }
    requires rules { rules.now.items ≡ settings.now.items }
    requires small { IsSmallPair pair.now }
    ensures answer { (b : BucketContent) → Spell settings.now b row.old →
        IsAnsweredIn rules.now settings.now (Count pair.now.key pair.now.value pair.now.bytes) b row.new result }
    ensures long { length row.new ≡ length row.old }
{
    let _pair = *pair;
    match find_item(settings, row, &pair.key) {
        Some(at) => {
            let bytes = add_bytes(pair_in(settings, row, at).bytes, pair.bytes);
            set_bytes(settings, row, at, bytes);
            Some(Reply::Sum(bytes))
        }
        None => bring(settings, rules, row, pair),
    }
}

// Takes a new pair, or gives the key the pair's value.
#[inline(always)]
fn put(settings: &Settings, rules: &Rules, row: &mut [u64], pair: &Pair) -> Option<Reply>
    requires long { length row.old ≡ bucket_row_words settings.now }
    requires few { slice_index row.old COUNT_PLACE ≤ settings.now.items }
    requires rules { rules.now.items ≡ settings.now.items }
    requires small { IsSmallPair pair.now }
    requires begins { pair.now.bytes ≡ 0 }
    ensures answer { (b : BucketContent) → Spell settings.now b row.old →
        IsAnsweredIn rules.now settings.now (Put pair.now.key pair.now.value) b row.new result }
    ensures long { length row.new ≡ length row.old }
{
    let _pair = *pair;
    match find_item(settings, row, &pair.key) {
        Some(at) => {
            let old = pair_in(settings, row, at).value;
            set_value(settings, row, at, pair.value);
            Some(Reply::Old(old))
        }
        None => bring(settings, rules, row, pair),
    }
}

// Takes the key's pair out.
#[inline(always)]
fn remove(settings: &Settings, row: &mut [u64], key: &Key) -> Reply
    requires long { length row.old ≡ bucket_row_words settings.now }
    requires few { slice_index row.old COUNT_PLACE ≤ settings.now.items }
    ensures answer { (rules : Rules) (b : BucketContent) → Spell settings.now b row.old →
        IsAnsweredIn rules settings.now (Remove key.now) b row.new (Some result) }
    ensures long { length row.new ≡ length row.old }
{
    let _key = *key;
    match find_item(settings, row, key) {
        Some(at) => {
            let value = pair_in(settings, row, at).value;
            remove_item(settings, row, at);
            Reply::Gone(value)
        }
        None => Reply::Absent,
    }
}

// Adds so many bytes to the key's pair.
#[inline(always)]
fn tally(settings: &Settings, row: &mut [u64], key: &Key, amount: u64) -> Reply
    requires long { length row.old ≡ bucket_row_words settings.now }
    requires few { slice_index row.old COUNT_PLACE ≤ settings.now.items }
    ensures answer { (rules : Rules) (b : BucketContent) → Spell settings.now b row.old →
        IsAnsweredIn rules settings.now (Tally key.now amount) b row.new (Some result) }
    ensures long { length row.new ≡ length row.old }
{
    let _key = *key;
    match find_item(settings, row, key) {
        Some(at) => {
            let bytes = add_bytes(pair_in(settings, row, at).bytes, amount);
            set_bytes(settings, row, at, bytes);
            Reply::Sum(bytes)
        }
        None => Reply::Absent,
    }
}

// The pair of a key, a value and bytes.
#[inline(always)]
fn pair_of(key: &Key, value: u64, bytes: u64) -> Pair
    ensures { result ≡ pair_of (key.now, counted_session value bytes) }
{
    Pair {
        key: *key,
        value,
        bytes,
    }
}

// The answer to a call, with the change that it makes.
#[inline(always)]
fn answer(settings: &Settings, rules: &Rules, row: &mut [u64], call: &Call) -> Option<Reply>
    requires long { length row.old ≡ bucket_row_words settings.now }
    requires few { slice_index row.old COUNT_PLACE ≤ settings.now.items }
    requires rules { rules.now.items ≡ settings.now.items }
    requires update { IsUpdate call.now }
    ensures answer { (b : BucketContent) → Spell settings.now b row.old →
        IsAnsweredIn rules.now settings.now call.now b row.new result }
    ensures long { length row.new ≡ length row.old }
{
    match call {
        Call::Insert(key, value) => insert(settings, rules, row, &pair_of(key, *value, 0)),
        Call::Count(key, value, amount) => {
            count(settings, rules, row, &pair_of(key, *value, *amount))
        }
        Call::Put(key, value) => put(settings, rules, row, &pair_of(key, *value, 0)),
        Call::Remove(key) => Some(remove(settings, row, key)),
        Call::Tally(key, amount) => Some(tally(settings, row, key, *amount)),
        Call::Lookup(_) => unreachable!(),
    }
}

// The first bits of a key's hash.
#[tactic(auto, unfolding(bucket_states::specs::Items::prefix_of))]
#[inline(always)]
fn prefix_of(rules: &Rules, own: &Hashed, depth: u32, key: &Key) -> u64
    requires depth { depth ≤ 64 }
    requires own { IsHashed rules.now.hashing own.now }
    ensures { result ≡ prefix_of rules.now depth key.now }
{
    bits(own.hash_of(&rules.hashing, key), depth)
}

// Whether the call is for this bucket, and not in it yet. Most calls are told by their number, without a hash.
#[inline(always)]
fn is_due(
    settings: &Settings,
    rules: &Rules,
    own: &Hashed,
    row: &[u64],
    seat: usize,
    op: &Op,
) -> bool
    requires long { length row.now ≡ bucket_row_words settings.now }
    requires depth { slice_index row.now 1 ≤ settings.now.depth }
    requires own { IsHashed rules.now.hashing own.now }
    requires seat { seat < settings.now.seats }
    ensures due { (b : BucketContent) → Spell settings.now b row.now → result ≡
        is_due rules.now (state_in_row b) seat op.now }
{
    let _depth = settings.depth;
    let at = BUCKET_HEAD_WORDS + ITEM_WORDS * settings.items as usize + SEAT_WORDS * seat;
    row[at] < op.number && prefix_of(rules, own, row[1] as u32, op.call.key()) == row[0]
}

// Takes the call of one seat, in a bucket that is not frozen.
#[inline(always)]
fn apply(settings: &Settings, rules: &Rules, own: &Hashed, row: &mut [u64], seat: usize, op: &Op)
    requires long { length row.old ≡ bucket_row_words settings.now }
    requires few { slice_index row.old COUNT_PLACE ≤ settings.now.items }
    requires depth { slice_index row.old 1 ≤ settings.now.depth }
    requires live { slice_index row.old 3 ≢ 1 }
    requires rules { rules.now.items ≡ settings.now.items }
    requires own { IsHashed rules.now.hashing own.now }
    requires seat { seat < settings.now.seats }
    requires update { IsUpdate op.now.call }
    requires spelled { IsSpelled settings.now row.old }
    ensures spelled { Becomes settings.now (after_op rules.now seat op.now) row.old row.new }
    ensures long { length row.new ≡ length row.old }
{
    if !is_due(settings, rules, own, row, seat, op) {
        return;
    }
    match answer(settings, rules, row, &op.call) {
        Some(reply) => set_seat(settings, row, seat, op.number, reply),
        None => freeze(settings, row),
    }
}

// The words of the bucket after all announced calls, in place of those of the row with the number `base`. The walk ends
// where the bucket freezes.
#[inline(always)]
fn change_words(
    settings: &Settings,
    rules: &Rules,
    own: &Hashed,
    row: &mut [u64],
    base: u64,
    ops: &[Option<Op>],
)
    requires long { length row.old ≡ bucket_row_words settings.now }
    requires few { slice_index row.old COUNT_PLACE ≤ settings.now.items }
    requires depth { slice_index row.old 1 ≤ settings.now.depth }
    requires rules { rules.now.items ≡ settings.now.items }
    requires own { IsHashed rules.now.hashing own.now }
    requires seats { length ops.now ≤ settings.now.seats }
    requires updates { AreUpdates ops.now }
    requires base { base + 1 < 2 ^ 64 }
    requires spelled { IsSpelled settings.now row.old }
    ensures spelled { BecomesChanged settings.now rules.now ops.now base row.old row.new }
    ensures long { length row.new ≡ length row.old }
{
    for (seat, op) in ops.iter().enumerate() {
        if row[3] == 1 {
            break;
        }
        if let Some(op) = op {
            apply(settings, rules, own, row, seat, op);
        }
    }
    set_base(settings, row, base);
}

/// The row of the bucket after all announced calls, one place for each seat, over the row with the number `row`.
///
/// `own` is a key whose hash is known. It takes no memory.
#[inline(always)]
pub fn change_row(
    settings: &Settings,
    rules: &Rules,
    own: &Hashed,
    row: u64,
    ops: &[Option<Op>],
    words: &mut [u64],
)
    requires spelled { SpellSomeBucket settings.now words.old }
    requires words { length words.old ≡ bucket_row_words settings.now }
    requires rules { rules.now.items ≡ settings.now.items }
    requires own { IsHashed rules.now.hashing own.now }
    requires few { length ops.now ≤ settings.now.seats }
    requires updates { AreUpdates ops.now }
    requires base { row + 1 < 2 ^ 64 }
    ensures words { words.new ≡ words_of_bucket settings.now
        (row_of_state (Some row) (change rules.now ops.now (state_in_row (bucket_of_words settings.now words.old)))) }
    ensures len { length words.new ≡ length words.old }
{
    row_laws();
    change_words(settings, rules, own, words, row, ops);
}
