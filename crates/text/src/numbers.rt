// Numbers in a text: an optional minus and one to ten digits.
ghost use Rattle.std.specs.Prelude.{◌≡◌, ◌^◌, ◌<◌, IfSome};
ghost use Rattle.text.specs.Numbers.{magnitude_of, number_of, within, field_within};

use crate::fields::field;

// The value of one to ten digits, read one by one. The library's `parse` would need two passes before its own: a look at the digits,
// since it takes a plus and more than ten, and one that makes a `&str` of them.
fn magnitude(digits: &[u8]) -> Option<u64>
    ensures value { result ≡ magnitude_of digits.now }
    ensures small { IfSome result (λ n. n < 10 ^ 10) }
{
    if digits.is_empty() || digits.len() > 10 {
        return None;
    }
    let mut value: u64 = 0;
    for digit in digits {
        if !digit.is_ascii_digit() {
            return None;
        }
        value = value * 10 + u64::from(*digit - b'0');
    }
    Some(value)
}

// The number that a text spells. Its minus is matched, a form that the project fixes; `strip_prefix` would do.
pub fn number(text: &[u8]) -> Option<i64>
    ensures { result ≡ number_of text.now }
{
    match text {
        [b'-', digits @ ..] => {
            let n = magnitude(digits)?;
            Some(-(n as i64))
        }
        _ => {
            let n = magnitude(text)?;
            Some(n as i64)
        }
    }
}

// The number that a text spells, if it lies from `low` to `high`.
pub fn number_in(text: &[u8], low: i64, high: i64) -> Option<i64>
    ensures { result ≡ within low high (number_of text.now) }
{
    number(text).filter(|n| (low..=high).contains(n))
}

// The field of a line that has this number, counted from 0, as a number from `low` to `high`.
pub fn number_field(line: &[u8], number: usize, low: i64, high: i64) -> Option<i64>
    ensures { result ≡ field_within line.now number low high }
{
    number_in(field(line, number)?, low, high)
}
