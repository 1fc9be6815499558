//! Whether a bound is near enough to an energy.

ghost use Rattle.std.specs.Prelude.{◌≡◌, ℕ, ◌*◌, ◌≤◌, ◌^◌, ◌↔◌, pos, IsTrue};
ghost use Rattle.std.specs.Int.RustNames.{unsigned_abs};
ghost use Rattle.rail_specs.specs.Cost.{GapMet};

/// Whether an energy and a bound of it, both in 0.5 microjoule, differ by at most a tolerance in per mille of the energy's size.
/// An energy may be negative, where braking gives energy back.
pub fn is_gap_met(energy: i128, bound: i128, tolerance: u32) -> bool
    requires energy { unsigned_abs energy ≤ 2 ^ 100 }
    requires bound { unsigned_abs bound ≤ 2 ^ 100 }
    requires tolerance { tolerance ≤ 1000 }
    ensures { IsTrue result ↔ GapMet energy bound tolerance }
{
    let share = share_of(energy, tolerance);
    1000 * (energy - bound) <= share
}

/// An energy's size times a tolerance.
fn share_of(energy: i128, tolerance: u32) -> i128
    requires energy { unsigned_abs energy ≤ 2 ^ 100 }
    requires tolerance { tolerance ≤ 1000 }
    ensures value { result ≡ pos (tolerance * unsigned_abs energy) }
    ensures small { unsigned_abs result ≤ 2 ^ 110 }
{
    tolerance as i128 * energy.abs()
}
