//! Sums and differences of costs.
ghost use Rattle.std.specs.Prelude.{◌≡◌, ℕ, ◌+◌, ◌^◌, ◌≤◌, ◌+ℤ◌, ◌-ℤ◌};
ghost use Rattle.std.specs.Int.RustNames.{unsigned_abs};

/// The sum of two costs.
pub fn sum(a: i128, b: i128) -> i128
    requires first { unsigned_abs a ≤ 2 ^ 100 }
    requires second { unsigned_abs b ≤ 2 ^ 100 }
    ensures value { result ≡ a +ℤ b }
    ensures small { unsigned_abs result ≤ unsigned_abs a + unsigned_abs b }
{
    a + b
}

/// A cost less another.
pub fn difference(a: i128, b: i128) -> i128
    requires first { unsigned_abs a ≤ 2 ^ 100 }
    requires second { unsigned_abs b ≤ 2 ^ 100 }
    ensures value { result ≡ a -ℤ b }
    ensures small { unsigned_abs result ≤ unsigned_abs a + unsigned_abs b }
{
    a - b
}
