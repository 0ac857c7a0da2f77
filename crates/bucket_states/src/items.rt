//! The pairs of one bucket, and the answer to a call by them alone.

ghost use Rattle.std.specs.Prelude.{◌≡◌, ℕ, ◌≤◌, None, Some, vec_capacity, MatchOption};
ghost use Rattle.std.specs.List.{position};
ghost use Rattle.plain_map.specs.declared.calls.Call.TheVariants.{Insert, Remove, Tally, Count, Put};
ghost use Rattle.plain_map.specs.Keys.{pair_of};
ghost use Rattle.plain_map.specs.PlainObject.{counted_session};
ghost use Rattle.bucket_states.specs.Places.{IsPlaceOf, IsAnswer, IsBrought};
ghost use Rattle.bucket_states.specs.Items.{same_key, reply_in, value_at};

use plain_map::{Call, Key, Pair, Reply, Rules, add_bytes};

// The first place with the key.
fn first_place(items: &[Pair], key: &Key) -> Option<usize>
    ensures { result ≡ position (λ pair. same_key pair.key key.now) items.now }
{
    items.iter().position(|pair| pair.key == *key)
}

// The place of the key's pair.
pub(crate) fn place_of(items: &[Pair], key: &Key) -> Option<usize>
    ensures { MatchOption result (value_at key.now items.now ≡ None) (IsPlaceOf key.now items.now) }
{
    first_place(items, key)
}

// The answer to a call by the pairs, which stay as they are.
#[tactic(auto, unfolding(crate::specs::Items::reply_in))]
pub(crate) fn reply(items: &[Pair], rules: &Rules, call: &Call) -> Reply
    ensures { result ≡ reply_in rules.now items.now call.now }
{
    match (call, place_of(items, call.key())) {
        (Call::Insert(_, _), Some(at)) => Reply::Old(items[at].value),
        (Call::Put(_, _), Some(at)) => Reply::Old(items[at].value),
        (Call::Remove(_), Some(at)) => Reply::Gone(items[at].value),
        (Call::Lookup(_), Some(at)) => Reply::Found(items[at].value),
        (Call::Tally(_, amount), Some(at)) => Reply::Sum(add_bytes(items[at].bytes, *amount)),
        (Call::Count(_, _, amount), Some(at)) => Reply::Sum(add_bytes(items[at].bytes, *amount)),
        (Call::Remove(_) | Call::Lookup(_) | Call::Tally(_, _), None) => Reply::Absent,
        (_, None) if items.len() < rules.items as usize => Reply::New,
        (_, None) => Reply::NoRoom,
    }
}

// Takes a new pair, or answers why it does not. `None` is for a bucket that has to be split first.
fn bring(items: &mut Vec<Pair>, rules: &Rules, depth: u32, pair: Pair) -> Option<Reply>
    requires room { rules.now.items ≤ vec_capacity items.old }
    ensures brought { IsBrought rules.now depth items.old.items pair items.new.items result }
    ensures room { vec_capacity items.new ≡ vec_capacity items.old }
{
    if items.len() < rules.items as usize {
        items.push_reserved(pair);
        return Some(Reply::New);
    }
    if depth < rules.depth {
        None
    } else {
        Some(Reply::NoRoom)
    }
}

// Takes a new pair, or answers what the key has.
fn insert(items: &mut Vec<Pair>, rules: &Rules, depth: u32, pair: Pair) -> Option<Reply>
    requires room { rules.now.items ≤ vec_capacity items.old }
    requires begins { pair.bytes ≡ 0 }
    ensures answer { IsAnswer rules.now depth items.old.items (Insert pair.key pair.value) items.new.items result }
    ensures room { vec_capacity items.new ≡ vec_capacity items.old }
{
    match place_of(items, &pair.key) {
        Some(at) => Some(Reply::Old(items[at].value)),
        None => bring(items, rules, depth, pair),
    }
}

// Takes a new pair, or adds its bytes to the key's.
fn count(items: &mut Vec<Pair>, rules: &Rules, depth: u32, pair: Pair) -> Option<Reply>
    requires room { rules.now.items ≤ vec_capacity items.old }
    ensures answer { IsAnswer rules.now depth items.old.items (Count pair.key pair.value pair.bytes) items.new.items
        result }
    ensures room { vec_capacity items.new ≡ vec_capacity items.old }
{
    match place_of(items, &pair.key) {
        Some(at) => {
            let bytes = add_bytes(items[at].bytes, pair.bytes);
            items[at].bytes = bytes;
            Some(Reply::Sum(bytes))
        }
        None => bring(items, rules, depth, pair),
    }
}

// Takes a new pair, or gives the key the pair's value.
fn put(items: &mut Vec<Pair>, rules: &Rules, depth: u32, pair: Pair) -> Option<Reply>
    requires room { rules.now.items ≤ vec_capacity items.old }
    requires begins { pair.bytes ≡ 0 }
    ensures answer { IsAnswer rules.now depth items.old.items (Put pair.key pair.value) items.new.items result }
    ensures room { vec_capacity items.new ≡ vec_capacity items.old }
{
    match place_of(items, &pair.key) {
        Some(at) => {
            let old = items[at].value;
            items[at].value = pair.value;
            Some(Reply::Old(old))
        }
        None => bring(items, rules, depth, pair),
    }
}

// Takes the key's pair out.
fn remove(items: &mut Vec<Pair>, key: &Key) -> Reply
    ensures answer { (rules : Rules) (depth : ℕ) →
        IsAnswer rules depth items.old.items (Remove key.now) items.new.items (Some result) }
    ensures room { vec_capacity items.new ≡ vec_capacity items.old }
{
    match place_of(items, key) {
        Some(at) => Reply::Gone(items.remove(at).value),
        None => Reply::Absent,
    }
}

// Adds so many bytes to the pair's.
fn tally(items: &mut Vec<Pair>, key: &Key, amount: u64) -> Reply
    ensures answer { (rules : Rules) (depth : ℕ) →
        IsAnswer rules depth items.old.items (Tally key.now amount) items.new.items (Some result) }
    ensures room { vec_capacity items.new ≡ vec_capacity items.old }
{
    match place_of(items, key) {
        Some(at) => {
            let bytes = add_bytes(items[at].bytes, amount);
            items[at].bytes = bytes;
            Reply::Sum(bytes)
        }
        None => Reply::Absent,
    }
}

// The pair of a key, a value and bytes.
fn pair_of(key: &Key, value: u64, bytes: u64) -> Pair
    ensures { result ≡ pair_of (key.now, counted_session value bytes) }
{
    Pair {
        key: *key,
        value,
        bytes,
    }
}

// The answer to a call, with the change that it makes. `None` is for a bucket that has to be split first.
pub(crate) fn answer(items: &mut Vec<Pair>, rules: &Rules, depth: u32, call: &Call) -> Option<Reply>
    requires { rules.now.items ≤ vec_capacity items.old }
    ensures answer { IsAnswer rules.now depth items.old.items call.now items.new.items result }
    ensures room { vec_capacity items.new ≡ vec_capacity items.old }
{
    match call {
        Call::Insert(key, value) => insert(items, rules, depth, pair_of(key, *value, 0)),
        Call::Count(key, value, amount) => {
            count(items, rules, depth, pair_of(key, *value, *amount))
        }
        Call::Put(key, value) => put(items, rules, depth, pair_of(key, *value, 0)),
        Call::Remove(key) => Some(remove(items, key)),
        Call::Tally(key, amount) => Some(tally(items, key, *amount)),
        Call::Lookup(key) => match place_of(items, key) {
            Some(at) => Some(Reply::Found(items[at].value)),
            None => Some(Reply::Absent),
        },
    }
}
