//! The change of a bucket's items by a call, where they stand at hand.

ghost use Rattle.std.specs.Prelude.{◌≡◌, ℕ, ◌≤◌, ◌==◌, if◌then◌else◌, None, Some, vec_capacity, MatchOption};
ghost use Rattle.std.specs.List.{position};
ghost use Rattle.plain_map.specs.declared.calls.Call.TheVariants.{Insert, Remove, Tally, Count, Put};
ghost use Rattle.plain_map.specs.declared.calls.Reply.TheVariants.{Sum};
ghost use Rattle.plain_map.specs.Calls.{key_in};
ghost use Rattle.plain_map.specs.Keys.{pair_of};
ghost use Rattle.plain_map.specs.PlainObject.{counted_session};
ghost use Rattle.plain_map.specs.Updates.{IsUpdate, summed};
ghost use Rattle.bucket_states.specs.Places.{IsPlaceOf, IsReply, IsBrought};
ghost use Rattle.bucket_states.specs.Items.{same_key, value_at};
ghost use Rattle.exchange_calls.specs.Quiet.{IsQuietAt, IsQuietBy, IsQuietNew};

use plain_map::{Call, Key, Pair, Reply, Rules, add_bytes};

// The first place with the key.
#[inline(always)]
fn first_place(items: &[Pair], key: &Key) -> Option<usize>
    ensures { result ≡ position (λ pair. same_key pair.key key.now) items.now }
{
    items.iter().position(|pair| pair.key == *key)
}

/// The place of the key's pair.
#[inline(always)]
pub fn place_of(items: &[Pair], key: &Key) -> Option<usize>
    ensures { MatchOption result (value_at key.now items.now ≡ None) (IsPlaceOf key.now items.now) }
{
    first_place(items, key)
}

// Takes a new pair, where there is a place for it.
#[inline(always)]
fn bring(items: &mut Vec<Pair>, rules: &Rules, pair: Pair) -> Reply
    requires room { rules.now.items ≤ vec_capacity items.old }
    ensures brought { IsBrought rules.now rules.now.depth items.old.items pair items.new.items (Some result) }
    ensures room { vec_capacity items.new ≡ vec_capacity items.old }
{
    if items.len() < rules.items as usize {
        items.push_reserved(pair);
        Reply::New
    } else {
        Reply::NoRoom
    }
}

// Takes a new pair, or answers what the key has.
#[inline(always)]
fn insert(items: &mut Vec<Pair>, rules: &Rules, pair: Pair, at: Option<usize>) -> Reply
    requires place { MatchOption at (value_at pair.key items.old.items ≡ None) (IsPlaceOf pair.key items.old.items) }
    requires room { rules.now.items ≤ vec_capacity items.old }
    requires begins { pair.bytes ≡ 0 }
    ensures answer { IsReply rules.now rules.now.depth items.old.items (Insert pair.key pair.value) items.new.items
        result }
    ensures room { vec_capacity items.new ≡ vec_capacity items.old }
{
    match at {
        Some(at) => Reply::Old(items[at].value),
        None => bring(items, rules, pair),
    }
}

// Takes a new pair, or adds its bytes to the key's.
#[inline(always)]
fn count(items: &mut Vec<Pair>, rules: &Rules, pair: Pair, at: Option<usize>) -> Reply
    requires place { MatchOption at (value_at pair.key items.old.items ≡ None) (IsPlaceOf pair.key items.old.items) }
    requires room { rules.now.items ≤ vec_capacity items.old }
    ensures answer { IsReply rules.now rules.now.depth items.old.items (Count pair.key pair.value pair.bytes)
        items.new.items result }
    ensures room { vec_capacity items.new ≡ vec_capacity items.old }
{
    match at {
        Some(at) => {
            let bytes = add_bytes(items[at].bytes, pair.bytes);
            items[at].bytes = bytes;
            Reply::Sum(bytes)
        }
        None => bring(items, rules, pair),
    }
}

// Takes a new pair, or gives the key the pair's value.
#[inline(always)]
fn put(items: &mut Vec<Pair>, rules: &Rules, pair: Pair, at: Option<usize>) -> Reply
    requires place { MatchOption at (value_at pair.key items.old.items ≡ None) (IsPlaceOf pair.key items.old.items) }
    requires room { rules.now.items ≤ vec_capacity items.old }
    requires begins { pair.bytes ≡ 0 }
    ensures answer { IsReply rules.now rules.now.depth items.old.items (Put pair.key pair.value) items.new.items
        result }
    ensures room { vec_capacity items.new ≡ vec_capacity items.old }
{
    match at {
        Some(at) => {
            let old = items[at].value;
            items[at].value = pair.value;
            Reply::Old(old)
        }
        None => bring(items, rules, pair),
    }
}

// Takes the key's pair out.
#[inline(always)]
fn remove(items: &mut Vec<Pair>, key: &Key, at: Option<usize>) -> Reply
    requires place { MatchOption at (value_at key.now items.old.items ≡ None) (IsPlaceOf key.now items.old.items) }
    ensures answer { (rules : Rules) (depth : ℕ) →
        IsReply rules depth items.old.items (Remove key.now) items.new.items result }
    ensures room { vec_capacity items.new ≡ vec_capacity items.old }
{
    let _key = *key;
    match at {
        Some(at) => Reply::Gone(items.remove(at).value),
        None => Reply::Absent,
    }
}

// Adds so many bytes to the pair's.
#[inline(always)]
fn tally(items: &mut Vec<Pair>, key: &Key, amount: u64, at: Option<usize>) -> Reply
    requires place { MatchOption at (value_at key.now items.old.items ≡ None) (IsPlaceOf key.now items.old.items) }
    ensures answer { (rules : Rules) (depth : ℕ) →
        IsReply rules depth items.old.items (Tally key.now amount) items.new.items result }
    ensures room { vec_capacity items.new ≡ vec_capacity items.old }
{
    let _key = *key;
    match at {
        Some(at) => {
            let bytes = add_bytes(items[at].bytes, amount);
            items[at].bytes = bytes;
            Reply::Sum(bytes)
        }
        None => Reply::Absent,
    }
}

// The pair of a key, a value and bytes.
#[inline(always)]
fn pair_of(key: &Key, value: u64, bytes: u64) -> Pair
    ensures { result ≡ pair_of (key.now, counted_session value bytes) }
{
    Pair {
        key: *key,
        value,
        bytes,
    }
}

/// The answer to a call whose key stands at this place, with the change that it makes.
#[inline(always)]
pub fn change(items: &mut Vec<Pair>, rules: &Rules, call: &Call, at: Option<usize>) -> Reply
    requires place { MatchOption at (value_at (key_in call.now) items.old.items ≡ None)
        (IsPlaceOf (key_in call.now) items.old.items) }
    requires room { rules.now.items ≤ vec_capacity items.old }
    requires update { IsUpdate call.now }
    ensures answer { IsReply rules.now rules.now.depth items.old.items call.now items.new.items result }
    ensures room { vec_capacity items.new ≡ vec_capacity items.old }
{
    match call {
        Call::Insert(key, value) => insert(items, rules, pair_of(key, *value, 0), at),
        Call::Count(key, value, amount) => count(items, rules, pair_of(key, *value, *amount), at),
        Call::Put(key, value) => put(items, rules, pair_of(key, *value, 0), at),
        Call::Remove(key) => remove(items, key, at),
        Call::Tally(key, amount) => tally(items, key, *amount, at),
        Call::Lookup(_) => unreachable!(),
    }
}

// The answer to a call that leaves the pair of its key as it is.
#[inline(always)]
fn quiet_at(pair: &Pair, call: &Call) -> Option<Reply>
    requires update { IsUpdate call.now }
    ensures { IsQuietAt pair.now call.now result }
{
    match call {
        Call::Insert(_, _) => Some(Reply::Old(pair.value)),
        Call::Put(_, value) if pair.value == *value => Some(Reply::Old(pair.value)),
        Call::Tally(_, amount) | Call::Count(_, _, amount) => quiet_sum(pair, *amount),
        _ => None,
    }
}

// The answer to a tally that adds nothing.
#[inline(always)]
fn quiet_sum(pair: &Pair, amount: u64) -> Option<Reply>
    ensures { result ≡ (if summed pair.now.bytes amount == pair.now.bytes then Some (Sum (summed pair.now.bytes amount))
        else None) }
{
    let bytes = add_bytes(pair.bytes, amount);
    if bytes == pair.bytes {
        Some(Reply::Sum(bytes))
    } else {
        None
    }
}

// The answer to a call that brings no pair, where its key is not there.
#[inline(always)]
fn quiet_new(place: bool, call: &Call) -> Option<Reply>
    requires update { IsUpdate call.now }
    ensures { IsQuietNew place call.now result }
{
    match call {
        Call::Remove(_) | Call::Tally(_, _) => Some(Reply::Absent),
        _ if place => None,
        _ => Some(Reply::NoRoom),
    }
}

/// The answer to a call that leaves the items as they are, where its key stands at this place.
#[inline(always)]
pub fn quiet_reply(items: &[Pair], rules: &Rules, call: &Call, at: Option<usize>) -> Option<Reply>
    requires place { MatchOption at (value_at (key_in call.now) items.now ≡ None)
        (IsPlaceOf (key_in call.now) items.now) }
    requires update { IsUpdate call.now }
    ensures { IsQuietBy rules.now items.now call.now result }
{
    match at {
        Some(at) => quiet_at(&items[at], call),
        None => quiet_new(items.len() < rules.items as usize, call),
    }
}
