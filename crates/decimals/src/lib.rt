//! Decimal numbers read digit by digit, capped at a greatest value.
#![tactic(auto)]

ghost use Rattle.std.specs.Prelude.{◌≡◌, ◌≤◌, min, option_map, IfSome};
ghost use Rattle.decimals.specs.Numbers.{is_digit, one_more, canonical, decimal_from};

/// Says whether `byte` is a decimal digit.
pub fn is_digit_byte(byte: u8) -> bool
    ensures { result ≡ is_digit byte }
{
    b'0' <= byte && byte <= b'9'
}

/// Returns the lesser of `most` and `value` with the digit `byte` after its own, or `None` where `byte` is no digit.
pub fn with_digit(most: u64, value: u64, byte: u8) -> Option<u64>
    requires few { most ≤ 4294967296 }
    requires near { value ≤ most }
    ensures { result ≡ one_more most value byte }
{
    if is_digit_byte(byte) {
        Some(most.min(10 * value + u64::from(byte - b'0')))
    } else {
        None
    }
}

/// Returns the number that the decimal digits `text` give, or `most` where that is less. `None` is returned where a
/// byte is no digit; no digits give 0.
pub fn decimal_number(most: u64, text: &[u8]) -> Option<u64>
    requires few { most ≤ 4294967296 }
    ensures near { IfSome result (λ n. n ≤ most) }
    ensures number { result ≡ option_map (min most) (decimal_from 0 text.now) }
{
    let mut value = 0;
    for byte in text {
        match with_digit(most, value, *byte) {
            Some(more) => value = more,
            None => return None,
        }
    }
    Some(value)
}

/// Says whether `text` is not empty, and begins with a 0 only where nothing follows.
pub fn is_canonical(text: &[u8]) -> bool
    ensures { result ≡ canonical text.now }
{
    match text {
        [] => false,
        [b'0', rest @ ..] => rest.is_empty(),
        _ => true,
    }
}
