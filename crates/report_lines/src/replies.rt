//! The words of replies and refusals.

ghost use Rattle.std.specs.Prelude.{◌≡◌};
ghost use Rattle.line_fields.specs.Reading.{Gives};
ghost use Rattle.plain_map.specs.Calls.{is_update as is_update_call};
ghost use Rattle.report_lines.specs.Fields.{kind_at, new_at, reply_at};

use line_fields::{number, text};
use plain_map::{Call, FullKind, Reply};

/// The reply to a packet's call: `new` tells the packet.
#[inline]
#[tactic(auto, unfolding(crate::specs::Fields::reply_at))]
pub(crate) fn reply(bytes: &[u8], packet: u32) -> Option<(Reply, &[u8])>
    ensures { Gives (λ x. (x.0, x.1.now)) result (reply_at packet bytes.now) }
{
    if let Some(rest) = text(bytes, b" new ") {
        return new(rest, packet);
    }
    if let Some(rest) = text(bytes, b" old ") {
        let (value, rest) = number(rest, u64::MAX)?;
        return Some((Reply::Old(value), rest));
    }
    if let Some(rest) = text(bytes, b" found ") {
        let (value, rest) = number(rest, u64::MAX)?;
        return Some((Reply::Found(value), rest));
    }
    if let Some(rest) = text(bytes, b" gone ") {
        let (value, rest) = number(rest, u64::MAX)?;
        return Some((Reply::Gone(value), rest));
    }
    if let Some(rest) = text(bytes, b" absent") {
        return Some((Reply::Absent, rest));
    }
    if let Some(rest) = text(bytes, b" noroom") {
        return Some((Reply::NoRoom, rest));
    }
    let rest = text(bytes, b" sum ")?;
    let (total, rest) = number(rest, u64::MAX)?;
    Some((Reply::Sum(total), rest))
}

// The packet's number behind `new`.
#[inline]
fn new(bytes: &[u8], packet: u32) -> Option<(Reply, &[u8])>
    ensures { Gives (λ x. (x.0, x.1.now)) result (new_at packet bytes.now) }
{
    let (value, rest) = number(bytes, u64::MAX)?;
    if value == u64::from(packet) {
        Some((Reply::New, rest))
    } else {
        None
    }
}

/// What there was too little of.
#[tactic(auto, unfolding(crate::specs::Fields::kind_at))]
pub(crate) fn kind(bytes: &[u8]) -> Option<(FullKind, &[u8])>
    ensures { Gives (λ x. (x.0, x.1.now)) result (kind_at bytes.now) }
{
    if let Some(rest) = text(bytes, b"oprows") {
        return Some((FullKind::OpRows, rest));
    }
    if let Some(rest) = text(bytes, b"bucketrows") {
        return Some((FullKind::BucketRows, rest));
    }
    if let Some(rest) = text(bytes, b"bucketwords") {
        return Some((FullKind::BucketWords, rest));
    }
    let rest = text(bytes, b"dirrows")?;
    Some((FullKind::DirRows, rest))
}

/// Whether a call may change what is held.
pub(crate) fn is_update(call: &Call) -> bool
    ensures { result ≡ is_update_call call.now }
{
    match call {
        Call::Insert(_, _)
        | Call::Remove(_)
        | Call::Tally(_, _)
        | Call::Count(_, _, _)
        | Call::Put(_, _) => true,
        Call::Lookup(_) => false,
    }
}
