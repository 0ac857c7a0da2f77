//! Calls that several callers make on one map, where each key has one caller.

ghost use Rattle.map_laws.specs.ByKey.{KeysAreHeldByTheirCalls, AgreeingCallsArePermuted, AgreeingCallsHoldTheSame, LooksCanBeSetIn, FreeWhileNoneLacksRoom, RecordsAreMade, WithoutFullClasses, AnswersAsAskedInTurn};

/// What holds of calls that agree key by key: what is held at a key comes from this key's calls and their replies.
pub fn by_key_laws()
    ensures records { RecordsAreMade }
    ensures held { KeysAreHeldByTheirCalls }
    ensures permuted { AgreeingCallsArePermuted }
    ensures sessions { AgreeingCallsHoldTheSame }
    ensures looks { LooksCanBeSetIn }
{}

/// While no call is answered `NoRoom`, calls that agree key by key answer as the map without a limit does.
pub fn room_laws()
    ensures none_lacks_room { FreeWhileNoneLacksRoom }
    ensures free { WithoutFullClasses }
    ensures in_turn { AnswersAsAskedInTurn }
{}
