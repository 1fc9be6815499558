//! Times as a clock shows them.

ghost use Rattle.std.specs.Prelude.{◌≡◌, ℕ, ◌<◌, ◌≤◌, ◌^◌, ◌++◌, OnOk};
ghost use Rattle.std.specs.Int.RustNames.{unsigned_abs};
ghost use Rattle.sheet_parts.specs.Clock.{clock_text, seconds_up, seconds_down};

use crate::decimals::{put_digits, put_minus};
use crate::rounded::{rounded_down, rounded_up};
use std::alloc::AllocError;

/// The least number of seconds that is at least so many ms.
pub fn seconds_up(ms: i128) -> i128
    requires { unsigned_abs ms < 2 ^ 127 }
    ensures value { result ≡ seconds_up ms }
    ensures small { unsigned_abs result ≤ unsigned_abs ms }
{
    rounded_up(ms, 1000)
}

/// The greatest number of seconds that is at most so many ms.
pub fn seconds_down(ms: i128) -> i128
    requires { unsigned_abs ms < 2 ^ 127 }
    ensures value { result ≡ seconds_down ms }
    ensures small { unsigned_abs result ≤ unsigned_abs ms }
{
    rounded_down(ms, 1000)
}

/// Appends a number of seconds as hh:mm:ss: two digits each, more hours where there are more, and a minus sign in front of a
/// negative number.
#[tactic(auto, unfolding(crate::specs::Clock::clock_text))]
pub fn put_clock(out: &mut Vec<u8>, seconds: i128) -> Result<(), AllocError>
    ensures { OnOk result (out.new.items ≡ out.old.items ++ clock_text seconds) }
{
    let size = seconds.unsigned_abs();
    put_minus(out, seconds)?;
    put_digits(out, 2, size / 3600)?;
    out.push(b':')?;
    put_digits(out, 2, size / 60 % 60)?;
    out.push(b':')?;
    put_digits(out, 2, size % 60)
}
