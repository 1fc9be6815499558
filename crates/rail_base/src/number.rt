//! Numbers as texts.

ghost use Rattle.std.specs.Prelude.{◌≡◌, ◌≤◌, ◌<◌, ◌^◌, ◌++◌, ℕ, pos, ◌≤ℤ◌, ◌<ℤ◌, Some, None, IfSome, option_map, is_ok, if◌then◌else◌};
ghost use Rattle.std.specs.Fmt.{signed_decimal};
ghost use Rattle.std.specs.Int.RustNames.{unsigned_abs};
ghost use Rattle.rail_base.specs.Numbers.{after_spaces, before_spaces, trimmed, digits_number, field_number, count_number, number_of, is_within};

use itoa::Buffer;
use std::alloc::{AllocError, Global};

/// The decimal digits of the numbers of files, at most.
const MOST_DIGITS: usize = 18;

/// A text without the spaces that it begins with.
fn drop_front_spaces(text: &[u8]) -> &[u8]
    ensures { result.now ≡ after_spaces text.now }
{
    let mut from = 0;
    while from < text.len() && text[from] == b' ' {
        from += 1;
    }
    &text[from..]
}

/// A text without the spaces that it ends with.
fn drop_back_spaces(text: &[u8]) -> &[u8]
    ensures { result.now ≡ before_spaces text.now }
{
    let mut to = text.len();
    while to > 0 && text[to - 1] == b' ' {
        to -= 1;
    }
    &text[..to]
}

/// A text without the spaces at both ends.
pub fn trim_spaces(text: &[u8]) -> &[u8]
    ensures { result.now ≡ trimmed text.now }
{
    drop_back_spaces(drop_front_spaces(text))
}

/// The number that 1 to `most` decimal digits write, and `None` exactly where the text is anything else.
pub fn read_digits(text: &[u8], most: usize) -> Option<u64>
    requires { most ≤ 19 }
    ensures value { result ≡ digits_number most text.now }
    ensures small { IfSome result (λ n. n < 10 ^ most) }
{
    if text.is_empty() || text.len() > most {
        return None;
    }
    let mut number = 0u64;
    for digit in text {
        if !digit.is_ascii_digit() {
            return None;
        }
        number = 10 * number + u64::from(*digit - b'0');
    }
    Some(number)
}

/// The number of a field of an event: 1 to 9 decimal digits, and `None` exactly where the text is anything else.
pub fn read_count(field: &[u8]) -> Option<u32>
    ensures { result ≡ count_number field.now }
{
    let number = read_digits(field, 9)?;
    Some(number as u32)
}

/// The number that 1 to 18 decimal digits write, and `None` exactly where the text is anything else.
fn read_size(text: &[u8]) -> Option<i64>
    ensures value { result ≡ option_map pos (digits_number 18 text.now) }
    ensures small { IfSome result (λ n. n <ℤ pos (10 ^ 18)) }
    ensures whole { IfSome result (λ n. pos 0 ≤ℤ n) }
{
    let size = read_digits(text, MOST_DIGITS)?;
    Some(size as i64)
}

/// The number of a field of a route: `-` or nothing, then 1 to 18 decimal digits, and `None` exactly where the text
/// is anything else.
pub fn read_field(field: &[u8]) -> Option<i64>
    ensures { result ≡ field_number field.now }
{
    match field.first() {
        Some(b'-') => {
            let size = read_size(&field[1..])?;
            Some(-size)
        }
        _ => read_size(field),
    }
}

/// The number that a text is: spaces at both ends are dropped, then `-` or `+` or nothing and 1 to 18 decimal digits.
/// `None` comes exactly where the text is not of this form.
pub fn read_number(text: &[u8]) -> Option<i64>
    ensures { result ≡ number_of text.now }
{
    let inside = trim_spaces(text);
    match inside.first() {
        Some(b'+') => read_size(&inside[1..]),
        _ => read_field(inside),
    }
}

/// A number as one without a sign, and `None` exactly where it is not from `low` to `high`.
pub fn natural_within(number: i64, low: u32, high: u32) -> Option<u32>
    ensures value { result ≡ (if is_within (pos low) (pos high) number then Some (unsigned_abs number) else None) }
    ensures least { IfSome result (λ n. low ≤ n) }
    ensures most { IfSome result (λ n. n ≤ high) }
{
    if i64::from(low) <= number && number <= i64::from(high) {
        Some(number as u32)
    } else {
        None
    }
}

/// Appends the shortest decimal spelling of a number, or leaves the text as it was where there is no memory.
pub fn put_number(_alloc: Global, out: &mut Vec<u8>, n: i128) -> Result<(), AllocError>
    ensures { out.new.items ≡ (if is_ok result then out.old.items ++ signed_decimal n else out.old.items) }
{
    let mut buffer = Buffer::new();
    out.extend_from_slice(buffer.format(n).as_bytes())
}
