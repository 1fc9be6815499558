//! Numbers of a certificate, in their one shortest decimal spelling.

ghost use Rattle.std.specs.Prelude.{◌≡◌, ◌+◌, ◌*◌, ◌^◌, ◌<◌, ◌≤◌, min, Some, None, IfSome, if◌then◌else◌};
ghost use Rattle.std.specs.Int.RustNames.{unsigned_abs};
ghost use Rattle.std.specs.Str.{all_ascii_digits};
ghost use Rattle.dual_certificate.specs.Numbers.{digits_size, size_spelled, number_spelled};

use rail_base::read_digits;

/// The greatest size of a number of a certificate, in 0.5 microjoule.
pub const MOST: i128 = 1 << 100;

/// What stands for every greater size.
const BEYOND: u128 = (1 << 100) + 1;

/// Digits whose number 64 bits have.
const SHORT: usize = 19;

/// The number of digits in their shortest spelling, 2^100 + 1 for every number above 2^100, and `None` exactly where the text is anything
/// else.
fn read_size(text: &[u8]) -> Option<u128>
    ensures value { result ≡ size_spelled text.now }
    ensures small { IfSome result (λ n. n ≤ 2 ^ 100 + 1) }
{
    if text.is_empty() || (text.len() > 1 && text[0] == b'0') {
        return None;
    }
    if text.len() <= SHORT {
        let size = read_digits(text, SHORT)?;
        return Some(u128::from(size));
    }
    read_long(text)
}

/// A size with one more digit, 2^100 + 1 where it is above 2^100.
fn with_digit(size: u128, digit: u8) -> u128
    requires size { size ≤ 2 ^ 100 + 1 }
    requires digit { digit < 10 }
    ensures { result ≡ min (size * 10 + digit) (2 ^ 100 + 1) }
{
    (10 * size + u128::from(digit)).min(BEYOND)
}

/// The same of digits, however many and whatever they begin with.
fn read_long(text: &[u8]) -> Option<u128>
    ensures value { result ≡ (if all_ascii_digits text.now then Some (digits_size text.now) else None) }
    ensures small { IfSome result (λ n. n ≤ 2 ^ 100 + 1) }
{
    let mut size = 0u128;
    for digit in text {
        if !digit.is_ascii_digit() {
            return None;
        }
        size = with_digit(size, *digit - b'0');
    }
    Some(size)
}

/// The number that a field is in its shortest spelling, `None` exactly where it is no such text. 2^100 + 1 stands for every size above
/// 2^100.
pub fn read_spelled(field: &[u8]) -> Option<i128>
    ensures value { result ≡ number_spelled field.now }
    ensures small { IfSome result (λ n. unsigned_abs n ≤ 2 ^ 100 + 1) }
{
    match field.first() {
        Some(b'-') => {
            let size = read_size(&field[1..])?;
            if size == 0 {
                return None;
            }
            Some(-(size as i128))
        }
        _ => {
            let size = read_size(field)?;
            Some(size as i128)
        }
    }
}
