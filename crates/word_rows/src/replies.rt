//! The replies to updates as words.
//!
//! A word holds the kind in its low three bits and the value above them, so that a value is below `VALUE_LIMIT`.

ghost use Rattle.std.specs.Prelude.{◌≡◌};
ghost use Rattle.plain_map.specs.Updates.{IsUpdateReply};
ghost use Rattle.word_rows.specs.ReplyWords.{reply_of_word, word_of_reply};

use plain_map::Reply;

/// The kind of `New`; 0 is that of no reply.
pub const NEW: u64 = 1;
/// The kind of `Old`.
pub const OLD: u64 = 2;
/// The kind of `NoRoom`.
pub const NO_ROOM: u64 = 3;
/// The kind of `Gone`.
pub const GONE: u64 = 4;
/// The kind of `Absent`.
pub const ABSENT: u64 = 5;
/// The kind of `Sum`.
pub const SUM: u64 = 6;

/// The word of a reply.
pub fn reply_word(reply: Option<Reply>) -> u64
    requires { IsUpdateReply reply }
    ensures { result ≡ word_of_reply reply }
{
    match reply {
        None => 0,
        Some(Reply::New) => NEW,
        Some(Reply::Old(value)) => OLD + 8 * value,
        Some(Reply::NoRoom) => NO_ROOM,
        Some(Reply::Gone(value)) => GONE + 8 * value,
        Some(Reply::Absent) => ABSENT,
        Some(Reply::Sum(total)) => SUM + 8 * total,
        Some(Reply::Found(_)) => unreachable!(),
    }
}

/// The reply that a word spells, where it spells one.
pub fn reply_of(word: u64) -> Option<Reply>
    ensures value { result ≡ reply_of_word word }
    ensures row { IsUpdateReply result }
{
    let value = word / 8;
    match word % 8 {
        NEW => Some(Reply::New),
        OLD => Some(Reply::Old(value)),
        NO_ROOM => Some(Reply::NoRoom),
        GONE => Some(Reply::Gone(value)),
        ABSENT => Some(Reply::Absent),
        SUM => Some(Reply::Sum(value)),
        _ => None,
    }
}
