//! Quotients rounded to whole numbers, also of negative numbers.

ghost use Rattle.std.specs.Prelude.{◌≡◌, ℕ, ◌<◌, ◌≤◌, ◌^◌};
ghost use Rattle.std.specs.Int.RustNames.{unsigned_abs};
ghost use Rattle.sheet_parts.specs.Rounded.{rounded_up, rounded_down};

/// The greatest whole number that is at most `n / unit`. A unit isn't 0.
pub fn rounded_down(n: i128, unit: u128) -> i128
    requires unit { 1 ≤ unit }
    requires number { unsigned_abs n < 2 ^ 127 }
    ensures value { result ≡ rounded_down unit n }
    ensures small { unsigned_abs result ≤ unsigned_abs n }
{
    if n >= 0 {
        (n as u128 / unit) as i128
    } else {
        -(n.unsigned_abs().div_ceil(unit) as i128)
    }
}

/// The least whole number that is at least `n / unit`. A unit isn't 0.
pub fn rounded_up(n: i128, unit: u128) -> i128
    requires unit { 1 ≤ unit }
    requires number { unsigned_abs n < 2 ^ 127 }
    ensures value { result ≡ rounded_up unit n }
    ensures small { unsigned_abs result ≤ unsigned_abs n }
{
    if n >= 0 {
        (n as u128).div_ceil(unit) as i128
    } else {
        -((n.unsigned_abs() / unit) as i128)
    }
}
