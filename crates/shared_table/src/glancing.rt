//! A reader's loads, on the way of a lookup.

ghost use Rattle.std.specs.Prelude.{◌≡◌, ◌∷◌, [], List};
ghost use Rattle.plain_map.specs.declared.keys.Key.{Key as KeyValue};
ghost use Rattle.plain_map.specs.Keys.{no_key};
ghost use Rattle.word_rows.specs.Places.{word_count};
ghost use Rattle.table_model.specs.Worlds.{IsRun};
ghost use Rattle.seat_calls.specs.Desks.{IsOf};
ghost use Rattle.shared_table.specs.Glancing.{HasGlanced, Start, front_of, glance_at, start_of};
ghost use Rattle.shared_table.specs.Readings.{lone};
ghost use Rattle.shared_table.specs.Rule.{plain};
ghost use Rattle.shared_table.specs.Seen.{WasSeen};

use crate::rule::Looks;
use crate::running::{Token, Words};
use plain_map::{Key, Reply};
use seat_calls::{Desk, Steps, glance};
use std::marker::{Brand, Model, PhantomData};
use word_rows::place_laws;

/// The key that is looked up, and what the reader begins with. Each glance picks them.
pub trait Glance {
    ghost key: { KeyValue };

    ghost since: { List Start };
}

impl Glance for Brand {
    ghost key = { no_key };

    ghost since = { [] };
}

/// A reader on its way. It goes where a lookup goes, and has no done word to store.
#[derive(Drop)]
pub struct Glancing<'a, B: Glance> {
    words: &'a Words,
    token: Token,
    marker: PhantomData<B>,
}

impl<'a, B: Glance> Model for Glancing<'a, B> {
    ghost use Rattle.shared_table.specs.Glancing.{GlancingValue};

    ghost Value = { GlancingValue };

    ghost use Rattle.shared_table.specs.Glancing.{IsGlancing, glancing_value};

    ghost view = { λ g. glancing_value g.words.now.key g.token };

    ghost invariant = { λ g. IsGlancing B.key B.since g.words.now.key g.words.now.table_id g.token };
}

impl<'a, B: Glance> Steps for Glancing<'a, B> {
    ghost now = { glance_at B.key B.since };

    ghost answered = { λ g made used. Unit {0} };

    #[inline(always)]
    fn stands(&self) {
        let _words = self.words;
    }

    #[inline(always)]
    fn load(&mut self, at: u64) -> u64 {
        place_laws();
        self.words.load::<Looks>(&mut self.token, at as usize)
    }

    // No step of a reader asks for a store or an exchange.
    #[inline(always)]
    fn store(&mut self, _at: u64, _word: u64) {
        let _words = self.words;
    }

    #[inline(always)]
    fn exchange(&mut self, _at: u64, old: u64, _new: u64) -> u64 {
        let _words = self.words;
        old
    }

    #[inline(always)]
    fn finish(&mut self, _at: u64, _word: u64) {}
}

impl<'a, B: Glance> Glancing<'a, B> {
    #[inline(always)]
    fn into_token(self) -> Token
        ensures me { result.me ≡ lone self.entry.front }
        ensures table { result.table_id ≡ self.entry.table_id }
        ensures glanced { (start : Start) → B.since ≡ start ∷ [] →
            HasGlanced B.key start self.entry (glance_at B.key B.since self.entry) }
    {
        self.token
    }
}

/// A whole glance at the table's words.
#[inline(always)]
pub(crate) fn run_glance<B: Glance>(
    words: &Words,
    token: Token,
    desk: &Desk,
    key: &Key,
) -> (Token, Reply)
    requires table { token.table_id ≡ words.now.table_id }
    requires size { words.now.table_id.words ≡ word_count (plain words.now.key).shape }
    requires one { token.me ≡ lone (front_of words.now.key token.me) }
    requires opened { (front_of words.now.key token.me).setup ≡ plain words.now.key }
    requires run { IsRun (plain words.now.key) (front_of words.now.key token.me).known }
    requires key { B.key ≡ key.now }
    requires since { B.since ≡ record {
      table_id = token.table_id;
      opened = plain words.now.key;
      front = front_of words.now.key token.me;
    } ∷ [] }
    requires desk { IsOf (start_of (plain words.now.key) key.now) desk.now }
    ensures table { result.0.table_id ≡ token.table_id }
    ensures one { result.0.me ≡ lone (front_of words.now.key result.0.me) }
    ensures opened { (front_of words.now.key result.0.me).setup ≡ plain words.now.key }
    ensures run { IsRun (plain words.now.key) (front_of words.now.key result.0.me).known }
    ensures held { WasSeen (plain words.now.key) (front_of words.now.key token.me)
        (front_of words.now.key result.0.me) key.now result.1 }
{
    let mut glancing: Glancing<B> = Glancing {
        words,
        token,
        marker: PhantomData,
    };
    let reply = glance(&mut glancing, desk, key);
    (glancing.into_token(), reply)
}
