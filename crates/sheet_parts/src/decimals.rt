//! Numbers with digits behind a point.

ghost use Rattle.std.specs.Prelude.{◌≡◌, ℕ, ◌≤◌, ◌++◌, decimal, OnOk};
ghost use Rattle.sheet_parts.specs.Decimals.{digits_text, minus_of, decimals_text};

use crate::fill::put_filled;
use itoa::Buffer;
use std::alloc::AllocError;

/// Appends a whole number in its shortest decimal spelling.
pub fn put_natural(out: &mut Vec<u8>, n: u128) -> Result<(), AllocError>
    ensures { OnOk result (out.new.items ≡ out.old.items ++ decimal n) }
{
    let mut buffer = Buffer::new();
    out.extend_from_slice(buffer.format(n).as_bytes())
}

/// Appends a whole number in so many digits at least, with zeros in front.
#[tactic(auto, unfolding(crate::specs::Decimals::digits_text))]
pub(crate) fn put_digits(out: &mut Vec<u8>, width: usize, n: u128) -> Result<(), AllocError>
    ensures { OnOk result (out.new.items ≡ out.old.items ++ digits_text width n) }
{
    let mut buffer = Buffer::new();
    put_filled(out, b'0', width, buffer.format(n).as_bytes())
}

/// Appends the minus sign of a negative number.
pub(crate) fn put_minus(out: &mut Vec<u8>, n: i128) -> Result<(), AllocError>
    ensures { OnOk result (out.new.items ≡ out.old.items ++ minus_of n) }
{
    if n < 0 {
        out.push(b'-')?;
    }
    Ok(())
}

/// Appends a number of units of which 10 to the power of `places` are one, with so many digits behind the point: 1724 with 3
/// places is `1.724`. `places` is 1 to 9.
#[tactic(auto, unfolding(crate::specs::Decimals::decimals_text))]
pub fn put_decimals(out: &mut Vec<u8>, places: usize, n: i128) -> Result<(), AllocError>
    requires some { 1 ≤ places }
    requires few { places ≤ 9 }
    ensures { OnOk result (out.new.items ≡ out.old.items ++ decimals_text places n) }
{
    let unit = 10u128.pow(places as u32);
    let size = n.unsigned_abs();
    put_minus(out, n)?;
    put_natural(out, size / unit)?;
    out.push(b'.')?;
    put_digits(out, places, size % unit)
}
