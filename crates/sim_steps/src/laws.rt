//! What holds after every list of events, each law on a function that does nothing.

ghost use Rattle.std.specs.Prelude.{ℕ, ◌<◌, List};
ghost use Rattle.sim_steps.specs.Layout.{Settings, AreSettings};
ghost use Rattle.sim_steps.specs.World.{Event};
ghost use Rattle.sim_steps.specs.Laws.{ArePlaced, AreWords, OfEach, AsksWithin, IsHelped, IsApplied, IsBounded, AreCounted, IsWhole, AreAnswered, IsPending, AreTotals, IsShortOrder};

/// Each address has a place of its own among the words, and each word has 64 bits.
pub fn words()
    ensures places { ArePlaced }
    ensures words { (settings : Settings) (events : List Event) → AreSettings settings → AreWords settings events }
    ensures within { OfEach AsksWithin }
{}

/// Two lost exchanges show that an add was applied, and no add ends before it is.
pub fn helping()
    ensures helped { OfEach IsHelped }
    ensures applied { OfEach IsApplied }
{}

/// No add takes more than `step_bound` steps, and an adder tells the steps that it took.
pub fn steps()
    ensures bounded { OfEach IsBounded }
    ensures counted { OfEach AreCounted }
{}

/// The adds have one order, which the words tell: each add that has ended stands in it once, after all
/// that its adder had seen, with the count that the totals give there.
pub fn order()
    ensures whole { OfEach IsWhole }
    ensures answered { OfEach AreAnswered }
    ensures pending { OfEach IsPending }
    ensures totals { (settings : Settings) (events : List Event) (class : ℕ) → AreSettings settings → class < 3 →
        AreTotals settings events class }
    ensures short { (settings : Settings) (events : List Event) → AreSettings settings → IsShortOrder settings events }
{}
