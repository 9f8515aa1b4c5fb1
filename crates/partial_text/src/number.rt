//! Numbers in decimal digits.

ghost use Rattle.std.specs.Prelude.{◌≡◌, ◌≤◌, IfSome};
ghost use Rattle.partial_text.specs.Number.{with_digit, number_from, number_of};

/// Appends a digit to the number. Returns `None` when the result is above `most`.
fn extend(number: u64, digit: u8, most: u64) -> Option<u64>
    ensures value { result ≡ with_digit most number digit }
    ensures bound { IfSome result (λ n. n ≤ most) }
{
    if !digit.is_ascii_digit() {
        return None;
    }
    let longer = number
        .checked_mul(10)?
        .checked_add(u64::from(digit - b'0'))?;
    if longer <= most { Some(longer) } else { None }
}

/// The number with these digits. `None` when it is above `most`.
fn value(digits: &[u8], most: u64) -> Option<u64>
    ensures value { result ≡ number_from most 0 digits.now }
    ensures bound { IfSome result (λ n. n ≤ most) }
{
    let mut number = 0u64;
    for digit in digits {
        number = extend(number, *digit, most)?;
    }
    Some(number)
}

/// The number that the text denotes, in digits without a leading zero. `None` when it denotes none, or one
/// above `most`.
pub(crate) fn number(text: &[u8], most: u64) -> Option<u64>
    ensures value { result ≡ number_of most text.now }
    ensures bound { IfSome result (λ n. n ≤ most) }
{
    match text {
        [] => None,
        [b'0', _, ..] => None,
        _ => value(text, most),
    }
}
