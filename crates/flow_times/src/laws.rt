//! What holds of flows that end by time.

ghost use Rattle.flow_times.specs.Moments.{MomentsGoOn};
ghost use Rattle.flow_times.specs.Flows.{PastStaysPast, PastTakesNone, NewIsNotPast, GrownIsNotPast, CountsEach};
ghost use Rattle.flow_times.specs.Cuts.{CutInOneWay};
ghost use Rattle.flow_times.specs.Passes.{PassesKeepAKey, SumsOfAKeyAreKept};
ghost use Rattle.flow_times.specs.Ends.{EndedStandsFirst};
ghost use Rattle.flow_times.specs.Metered.{ClassesAreApart, FrontsAreFinal, KeysAreApart, PassesDoNotMatter, RecordsHaveOneOrder, SumsAreKept};

/// Moments never go back. A flow that is past stays so, and takes no packet more; at its own packet it is not past.
/// Each packet is counted once.
pub fn time_laws()
    ensures on { MomentsGoOn }
    ensures past { PastStaysPast }
    ensures none { PastTakesNone }
    ensures new { NewIsNotPast }
    ensures grown { GrownIsNotPast }
    ensures each { CountsEach }
{}

/// The packets of a key are cut into flows in one way.
pub fn cut_laws()
    ensures { CutInOneWay }
{}

/// Of one key, flows that are past may be taken out at any moments: the same ones are put out. Each packet is in one
/// of them.
pub fn key_laws()
    ensures same { PassesKeepAKey }
    ensures sums { SumsOfAKeyAreKept }
{}

/// What has ended by now stands before all that ends later; so it is of all keys behind a pass. The records of a run
/// have one order.
pub fn end_laws()
    ensures first { EndedStandsFirst }
    ensures fronts { FrontsAreFinal }
    ensures order { RecordsHaveOneOrder }
{}

/// Of all keys together, with full classes or without: each key has the same records whenever what is past is taken
/// out, and in all records there is what is in all packets.
pub fn pass_laws()
    ensures same { PassesDoNotMatter }
    ensures sums { SumsAreKept }
{}

/// What ends of a class is what ends of its own packets. So it is of a key, if no flow made way for want of room.
pub fn part_laws()
    ensures classes { ClassesAreApart }
    ensures keys { KeysAreApart }
{}
