//! What one event may change.

ghost use Rattle.run_invariant.specs.Frames.{AsksAreSteps, StoresAreApart};

/// An event is one step on the one word that its seat asks for, and no two seats store in the same word.
pub fn frame_laws()
    ensures steps { AsksAreSteps }
    ensures apart { StoresAreApart }
{}
