//! Texts that are known, and bytes in hexadecimal.

ghost use Rattle.std.specs.Prelude.{◌≡◌, ◌<◌, IfSome};
ghost use Rattle.line_fields.specs.Reading.{Gives, hex_digit, hexadecimal_at, text_at};

/// The bytes behind this text, where they begin with it.
#[inline]
#[tactic(auto, using(crate::proofs::TextLemmas::prefix_same, crate::proofs::TextLemmas::prefix_other))]
pub fn text<'a>(bytes: &'a [u8], known: &[u8]) -> Option<&'a [u8]>
    ensures { Gives (λ x. x.now) result (text_at known.now bytes.now) }
{
    bytes.strip_prefix(known)
}

/// The byte at the front, as two hexadecimal digits in lower case, and the bytes behind them.
#[tactic(auto, unfolding(crate::specs::Reading::hexadecimal_at))]
pub fn hexadecimal(bytes: &[u8]) -> Option<(u8, &[u8])>
    ensures { Gives (λ x. (x.0, x.1.now)) result (hexadecimal_at bytes.now) }
{
    match bytes {
        [] => None,
        [_] => None,
        [high, low, rest @ ..] => {
            let high = hex_digit(*high)?;
            let low = hex_digit(*low)?;
            Some((high * 16 + low, rest))
        }
    }
}

/// The value of a hexadecimal digit in lower case.
#[inline]
pub fn hex_digit(byte: u8) -> Option<u8>
    ensures value { Gives (λ x. x) result (hex_digit byte) }
    ensures small { IfSome result (λ x. x < 16) }
{
    if byte >= b'0' && byte <= b'9' {
        Some(byte - b'0')
    } else if byte >= b'a' && byte <= b'f' {
        Some(byte - b'a' + 10)
    } else {
        None
    }
}
