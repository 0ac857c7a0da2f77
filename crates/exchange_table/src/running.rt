//! The steps of a call on the table's words.

ghost use Rattle.std.specs.Prelude.{◌≡◌, Some};
ghost use Rattle.exchange_model.specs.Goes.{Refused};
ghost use Rattle.exchange_table.specs.Calls.{HasEnded, HasWaited, MayAsk, now_of};
ghost use Rattle.exchange_table.specs.Rule.{alone};

use crate::rule::{Acts, Asked, OneRun, Opening, Stores};
use crate::stage::Stage;
use crate::view::View;
use atomic_table::Shared;
use exchange_calls::Steps;
use plain_map::{Call, Key};
use std::marker::{Model, PhantomData};

pub(crate) type Words = Shared<(), View, Opening, OneRun>;

pub(crate) type Token = atomic_table::Seat<(), View>;

/// A call on its way.
#[derive(Drop)]
pub struct Running<'a, B: Asked> {
    pub(crate) words: &'a Words,
    pub(crate) token: Token,
    pub(crate) stage: Stage,
    pub(crate) marker: PhantomData<B>,
}

impl<'a, B: Asked> Model for Running<'a, B> {
    ghost use Rattle.exchange_table.specs.Calls.{RunningValue};

    ghost Value = { RunningValue };

    ghost use Rattle.exchange_table.specs.Calls.{IsRunning, running_value};

    ghost view = { λ r. running_value r.words.now.key r.token r.stage };

    ghost invariant = { λ r.
        IsRunning B.asked B.tries B.since r.words.now.key r.words.now.table_id r.token r.stage };
}

impl<'a, B: Asked> Steps for Running<'a, B> {
    ghost now = { now_of B.asked B.tries };

    ghost may = { λ r. MayAsk B.asked B.tries r.stage };

    #[inline(always)]
    fn begin(&mut self, _call: &Call) {
        self.stage = Stage::Begun;
    }

    #[inline(always)]
    fn begin_look(&mut self, key: &Key, _tries: u64) {
        key.has_words();
        self.stage = Stage::Begun;
    }

    #[inline(always)]
    fn begin_copy(&mut self, _bucket: u64, _tries: u64) {
        self.stage = Stage::Begun;
    }

    #[inline(always)]
    fn stands(&self) {
        let _still = self.stage;
    }

    #[inline(always)]
    fn load(&mut self, at: u64) -> u64 {
        let found = self.words.load::<Acts<B>>(&mut self.token, at as usize);
        self.stage = Stage::Runs;
        found
    }

    #[inline(always)]
    fn store(&mut self, at: u64, word: u64) {
        self.words
            .store::<Stores<B>>(&mut self.token, at as usize, word);
        self.stage = Stage::Runs;
    }

    #[inline(always)]
    fn exchange(&mut self, at: u64, old: u64, new: u64) -> u64 {
        let found = self
            .words
            .compare_exchange::<Acts<B>>(&mut self.token, at as usize, old, new);
        self.stage = Stage::Runs;
        found
    }

    #[inline(always)]
    fn raise(&mut self, at: u64) -> u64 {
        let found = self
            .words
            .fetch_add::<Acts<B>>(&mut self.token, at as usize, 1);
        self.stage = Stage::Runs;
        found
    }

    #[inline(always)]
    fn lower(&mut self, at: u64) -> u64 {
        let found = self
            .words
            .fetch_sub::<Acts<B>>(&mut self.token, at as usize, 1);
        self.stage = Stage::Runs;
        found
    }
}

impl<'a, B: Asked> Running<'a, B> {
    #[inline(always)]
    pub(crate) fn into_token(self) -> Token
        ensures me { result.me ≡ alone self.entry.holding }
        ensures table { result.table_id ≡ self.entry.table_id }
        ensures ended { HasEnded B.asked B.tries B.since self.entry }
        ensures waited { HasWaited B.asked B.tries B.since self.entry }
        ensures taken { (now_of B.asked B.tries self.entry).told ≡ Some Refused → ⊥ }
    {
        self.token
    }
}
