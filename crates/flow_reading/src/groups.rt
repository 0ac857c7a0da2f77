//! The groups of an address of IPv6.

ghost use Rattle.std.specs.Prelude.{◌≡◌, ◌+◌, ◌*◌, ◌<◌, ◌≤◌, ◌^◌, IfSome};
ghost use Rattle.line_fields.specs.Reading.{Gives};
ghost use Rattle.flow_reading.specs.Groups.{digit_at, group_at, groups_at, more_at, rest_at};

use line_fields::{hex_digit, text};

/// The 64 bits of four groups at the front, with colons between, and the bytes behind them.
#[tactic(auto, unfolding(crate::specs::Groups::groups_at))]
pub(crate) fn groups(bytes: &[u8]) -> Option<(u64, &[u8])>
    ensures value { Gives (λ x. (x.0, x.1.now)) result (groups_at bytes.now) }
{
    let (first, rest) = group(bytes)?;
    let rest = text(rest, b":")?;
    let (second, rest) = group(rest)?;
    let rest = text(rest, b":")?;
    let (third, rest) = group(rest)?;
    let rest = text(rest, b":")?;
    let (fourth, rest) = group(rest)?;
    Some((
        first * 281_474_976_710_656 + second * 4_294_967_296 + third * 65_536 + fourth,
        rest,
    ))
}

// One to four digits, without leading zeros.
#[tactic(auto, unfolding(crate::specs::Groups::group_at))]
fn group(bytes: &[u8]) -> Option<(u64, &[u8])>
    ensures value { Gives (λ x. (x.0, x.1.now)) result (group_at bytes.now) }
    ensures small { IfSome result (λ x. x.0 < 2 ^ 16) }
{
    let (first, rest) = digit(bytes)?;
    if first == 0 {
        Some((first, rest))
    } else {
        Some(rest_of(first, rest))
    }
}

// At most three digits more.
#[tactic(auto, unfolding(crate::specs::Groups::rest_at))]
fn rest_of(front: u64, bytes: &[u8]) -> (u64, &[u8])
    requires { front < 16 }
    ensures value { (result.0, result.1.now) ≡ rest_at front bytes.now }
    ensures small { result.0 < 2 ^ 16 }
{
    let (front, rest) = more(front, bytes);
    let (front, rest) = more(front, rest);
    more(front, rest)
}

// A digit behind those that were read, where one stands there.
fn more(front: u64, bytes: &[u8]) -> (u64, &[u8])
    requires { front < 2 ^ 12 }
    ensures value { (result.0, result.1.now) ≡ more_at front bytes.now }
    ensures small { result.0 < front * 16 + 16 }
{
    match digit(bytes) {
        Some((digit, rest)) => (front * 16 + digit, rest),
        None => (front, bytes),
    }
}

// The digit at the front.
fn digit(bytes: &[u8]) -> Option<(u64, &[u8])>
    ensures value { Gives (λ x. (x.0, x.1.now)) result (digit_at bytes.now) }
    ensures small { IfSome result (λ x. x.0 < 16) }
{
    match bytes {
        [] => None,
        [first, rest @ ..] => {
            let digit = hex_digit(*first)?;
            Some((u64::from(digit), rest))
        }
    }
}
