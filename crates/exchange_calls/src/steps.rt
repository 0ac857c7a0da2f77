//! The steps of a caller on shared words: a seat, a reader that can hold, or another reader.

ghost use Rattle.std.specs.Prelude.{◌≡◌, ℕ, ◌<◌, ◌≤◌, true};
ghost use Rattle.exchange_model.specs.Plans.{buckets_of};
ghost use Rattle.plain_map.specs.declared.calls.Call.TheVariants.{Lookup};
ghost use Rattle.exchange_model.specs.Steps.{Idle, OfBucket, OfKey};
ghost use Rattle.exchange_model.specs.Goes.{Asked, Called, Copied};
ghost use Rattle.exchange_model.specs.Worlds.{CanBegin};
ghost use Rattle.exchange_calls.specs.Going.{Going, Fits, HasTries, IsOn, begun_look, begun_update, deed, goes, task};
ghost use Rattle.exchange_calls.specs.Going.Task.{Exchange, Load, Lower, Raise, Store};

use plain_map::{Call, Key};

/// The events of a caller. A word is given by its number.
pub trait Steps {
    // Where the caller stands.
    ghost now: { Self → Going };

    // What it was made for: a call, and with how many tries, none where it is an update.
    ghost may: { Self → Asked → ℕ → Type 0 };

    /// An update begins, which takes no step.
    fn begin(&mut self, call: &Call)
        requires idle { (now self.old).now.stand ≡ Idle }
        requires seat { (now self.old).holds ≡ true }
        requires can { CanBegin (now self.old).plan (now self.old).seat (now self.old).now call.now }
        requires may { may self.old (Called call.now) 0 }
        ensures { now self.new ≡ begun_update (now self.old) call.now };

    /// A look at a key begins, with so many tries.
    fn begin_look(&mut self, key: &Key, tries: u64)
        requires idle { (now self.old).now.stand ≡ Idle }
        requires tries { HasTries (now self.old).holds (now self.old).now tries }
        requires may { may self.old (Called (Lookup key.now)) tries }
        ensures { now self.new ≡ begun_look (now self.old) (OfKey key.now) tries };

    /// A copy of a bucket begins.
    fn begin_copy(&mut self, bucket: u64, tries: u64)
        requires idle { (now self.old).now.stand ≡ Idle }
        requires tries { HasTries (now self.old).holds (now self.old).now tries }
        requires bucket { bucket < buckets_of (now self.old).plan.settings }
        requires may { may self.old (Copied bucket) tries }
        ensures { now self.new ≡ begun_look (now self.old) (OfBucket bucket) tries };

    /// What is asked for next is on a word of the table. The call does nothing: it tells this to the proof of the lines
    /// that follow.
    fn stands(&self)
        ensures { IsOn (now self.now).plan (deed (now self.now)) };

    /// Loads this word.
    fn load(&mut self, at: u64) -> u64
        requires asked { task (now self.old) ≡ Load at }
        ensures goes { now self.new ≡ goes (now self.old) result }
        ensures fits { Fits (now self.old) result };

    /// Stores a word.
    fn store(&mut self, at: u64, word: u64)
        requires asked { task (now self.old) ≡ Store at word }
        ensures goes { now self.new ≡ goes (now self.old) 0 }
        ensures fits { Fits (now self.old) 0 };

    /// Puts `new` there, where the word is `old`, and answers what it was.
    fn exchange(&mut self, at: u64, old: u64, new: u64) -> u64
        requires asked { task (now self.old) ≡ Exchange at old new }
        ensures goes { now self.new ≡ goes (now self.old) result }
        ensures fits { Fits (now self.old) result };

    /// Adds one to a word, and answers what it was.
    fn raise(&mut self, at: u64) -> u64
        requires asked { task (now self.old) ≡ Raise at }
        ensures goes { now self.new ≡ goes (now self.old) result }
        ensures fits { Fits (now self.old) result };

    /// Takes one off a word, and answers what it was.
    fn lower(&mut self, at: u64) -> u64
        requires asked { task (now self.old) ≡ Lower at }
        ensures goes { now self.new ≡ goes (now self.old) result }
        ensures fits { Fits (now self.old) result };
}
