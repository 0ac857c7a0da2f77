//! What the layout of a table promises, for every shape.

ghost use Rattle.word_rows.specs.PlaceLaws.{PlacesAreApart, PlacesAreWithin, RangesAreApart, RangesAreWithin, WordsAreFew};

/// Distinct parts do not overlap and all lie within the table; a number belongs to one seat; word numbers are small.
pub fn place_laws()
    ensures apart { PlacesAreApart }
    ensures within { PlacesAreWithin }
    ensures one_owner { RangesAreApart }
    ensures in_range { RangesAreWithin }
    ensures few { WordsAreFew }
{}
