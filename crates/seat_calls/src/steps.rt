//! One seat's steps on shared words.

ghost use Rattle.std.specs.Prelude.{◌≡◌, ℕ};
ghost use Rattle.plain_map.specs.declared.records.Record.{Record};
ghost use Rattle.step_counts.specs.declared.rows.SeatRows.{SeatRows};
ghost use Rattle.table_model.specs.declared.events.Action.TheVariants.{Load, Store, Exchange};
ghost use Rattle.table_model.specs.Steps.{IsOnWord};
ghost use Rattle.table_model.specs.Fits.{Counts};
ghost use Rattle.seat_calls.specs.Going.{Going, Fits, IsGoing, IsMade, IsOpen, action, asks, goes};

use plain_map::Record;
use step_counts::SeatRows;

/// The steps of a call that is on its way. A word is given by its number.
pub trait Steps {
    // Where the call stands.
    ghost now: { Self → Going };

    // The call has ended with this record, and its seat has published so much by then.
    ghost answered: { Self → Record → SeatRows → Type 0 };

    /// What is asked for next is on a word of the table, and the steps and the rows are few. The call does nothing: it
    /// tells this to the proof of the lines that follow.
    fn stands(&self)
        requires { IsOpen (now self.now).phase }
        ensures on_word { IsOnWord (now self.now).setup.shape (asks (now self.now)) }
        ensures counts { Counts (now self.now).setup (now self.now).account.used (now self.now).flight };

    /// Loads this word.
    fn load(&mut self, at: u64) -> u64
        requires asked { action (now self.old) ≡ Load at }
        ensures goes { now self.new ≡ goes (now self.old) result }
        ensures fits { Fits (now self.old) result };

    /// Stores a word. It is not the last step of the call.
    fn store(&mut self, at: u64, word: u64)
        requires asked { action (now self.old) ≡ Store at word }
        requires goes_on { IsGoing (now self.old).phase }
        ensures goes { now self.new ≡ goes (now self.old) 0 }
        ensures fits { Fits (now self.old) 0 };

    /// Puts `new` there, where the word is `old`, and answers what it was.
    fn exchange(&mut self, at: u64, old: u64, new: u64) -> u64
        requires asked { action (now self.old) ≡ Exchange at old new }
        ensures goes { now self.new ≡ goes (now self.old) result }
        ensures fits { Fits (now self.old) result };

    /// Stores the seat's done word, which ends the call.
    fn finish(&mut self, at: u64, word: u64)
        requires asked { action (now self.old) ≡ Store at word }
        ensures answered { (made : Record) → IsMade (now self.old) made →
            answered self.new made (now self.old).account.used };
}
