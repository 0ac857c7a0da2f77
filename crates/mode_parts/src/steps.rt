//! The call of a packet.

ghost use Rattle.std.specs.Prelude.{◌≡◌, ◌≤◌, ◌<◌, ◌-◌, ◌+◌, ◌^◌, ℕ, List, [], false, Option, Some, IfSome, IfNone, OnOk};
ghost use Rattle.key_texts.specs.FlowText.{HasText};
ghost use Rattle.plain_map.specs.Calls.{key_in};
ghost use Rattle.plain_map.specs.Serving.{IsAskable};
ghost use Rattle.plain_map.specs.Updates.{value_limit};
ghost use Rattle.plain_map.specs.Keys.{IsKey};
ghost use Rattle.mode_parts.specs.PacketCalls.{MakesCall};
ghost use Rattle.mode_parts.specs.Reading.{AreBetween, TakesCall};

use crate::calling::Calling;
use flow_keys::call_of;
use packet_heads::heads;
use plain_map::Call;
use std::alloc::AllocError;

/// The call of the packet with this number, so framed and by this rule, or `None` if the packet makes none.
///
/// The number has to be one that a table can keep, below 2^61. A packet makes no call if it has no heads of TCP or UDP
/// where the framing says.
pub fn call_in(calling: &Calling, packet: &[u8], number: u64) -> Option<Call>
    requires { number < value_limit }
    ensures made { MakesCall calling.now number packet.now result }
    ensures fits { IfSome result (λ call. IsAskable call × HasText (key_in call) × IsKey (key_in call)) }
{
    match heads(&calling.framing, packet) {
        Some(heads) => {
            let call = call_of(calling.calls, &heads, number);
            call.key().has_words();
            Some(call)
        }
        None => None,
    }
}

/// Keeps the call of the packet with this number, so framed and by this rule, where it makes one.
pub(crate) fn keep_call(
    calling: &Calling,
    packet: &[u8],
    number: u32,
    calls: &mut Vec<(u32, Call)>,
) -> Result<(), AllocError>
    ensures kept { OnOk result (TakesCall calling.now number packet.now calls.old.items calls.new.items) }
    ensures between { OnOk result ((first last : ℕ) → AreBetween first last calls.old.items → number ≡ last + 1
        → AreBetween first number calls.new.items) }
{
    if let Some(call) = call_in(calling, packet, u64::from(number)) {
        calls.push((number, call))?;
    }
    Ok(())
}
