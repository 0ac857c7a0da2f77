//! Numbers in decimal notation, without leading zeros.

ghost use Rattle.std.specs.Prelude.{◌≡◌, ◌≤◌, ◌+◌, ◌-◌, ◌*◌, ◌^◌, true, IfSome, MatchOption};
ghost use Rattle.std.specs.Char.{is_ascii_digit};
ghost use Rattle.line_fields.specs.Reading.{Gives, HasNoDigit, digits_at, number_at, zero_at};

/// The number at the front, at most `most`, and the bytes behind its digits: all the digits that stand there.
///
/// `None` comes exactly where no digit stands there, where a 0 stands before another digit, or where the number of all
/// these digits is above `most`.
#[inline]
#[tactic(auto, unfolding(crate::specs::Reading::number_at))]
pub fn number(bytes: &[u8], most: u64) -> Option<(u64, &[u8])>
    ensures value { Gives (λ x. (x.0, x.1.now)) result (number_at most bytes.now) }
    ensures within { IfSome result (λ x. x.0 ≤ most) }
{
    match bytes {
        [] => None,
        [first, rest @ ..] => {
            if !is_digit(*first) {
                None
            } else if *first == b'0' {
                zero(rest)
            } else {
                digits(rest, most, u64::from(*first - b'0'))
            }
        }
    }
}

// Behind a leading 0.
#[inline(always)]
fn zero(bytes: &[u8]) -> Option<(u64, &[u8])>
    ensures value { Gives (λ x. (x.0, x.1.now)) result (zero_at bytes.now) }
    ensures zero { IfSome result (λ x. x.0 ≡ 0) }
{
    match bytes {
        [next, ..] if is_digit(*next) => None,
        _ => Some((0, bytes)),
    }
}

// The rest of a number whose front was read.
#[inline(always)]
#[tactic(auto, using(crate::proofs::NumberLemmas::digits_more, crate::proofs::NumberLemmas::digits_over))]
fn digits(bytes: &[u8], most: u64, front: u64) -> Option<(u64, &[u8])>
    ensures value { Gives (λ x. (x.0, x.1.now)) result (digits_at most front bytes.now) }
    ensures within { IfSome result (λ x. x.0 ≤ most) }
{
    let mut value = front;
    let mut rest = bytes;
    loop {
        match rest.split_first() {
            None => return whole(value, most, rest),
            Some((next, behind)) => {
                if !is_digit(*next) {
                    return whole(value, most, rest);
                }
                match with_digit(value, *next) {
                    None => return None,
                    Some(more) => {
                        value = more;
                        rest = behind;
                    }
                }
            }
        }
    }
}

// A number behind which no digit stands.
#[inline(always)]
#[tactic(auto, using(crate::proofs::NumberLemmas::digits_end))]
fn whole(value: u64, most: u64, rest: &[u8]) -> Option<(u64, &[u8])>
    requires { HasNoDigit rest.now }
    ensures value { Gives (λ x. (x.0, x.1.now)) result (digits_at most value rest.now) }
    ensures within { IfSome result (λ x. x.0 ≤ most) }
{
    if value <= most {
        Some((value, rest))
    } else {
        None
    }
}

// With one more digit, where that is no more than 64 bits hold.
#[inline(always)]
fn with_digit(value: u64, byte: u8) -> Option<u64>
    requires { is_ascii_digit byte ≡ true }
    ensures { MatchOption result (2 ^ 64 ≤ value * 10 + (byte - 48)) (λ more. more ≡ value * 10 + (byte - 48)) }
{
    value.checked_mul(10)?.checked_add(u64::from(byte - b'0'))
}

// Whether a byte is a digit.
#[inline(always)]
fn is_digit(byte: u8) -> bool
    ensures { result ≡ is_ascii_digit byte }
{
    byte >= b'0' && byte <= b'9'
}
