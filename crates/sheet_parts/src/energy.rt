//! Energies in the units that people read. The program counts in 0.5 microjoule.

ghost use Rattle.std.specs.Prelude.{◌≡◌, ℕ, ◌<◌, ◌≤◌, ◌^◌, IfSome};
ghost use Rattle.std.specs.Int.RustNames.{unsigned_abs};
ghost use Rattle.sheet_parts.specs.Energy.{kilowatt_hours_up, kilowatt_hours_down, kilojoules_up, kilojoules_down, saving_of};

use crate::rounded::{rounded_down, rounded_up};

/// How much a hundredth of a kWh is.
const HUNDREDTH: u128 = 72_000_000_000;

/// How much a kilojoule is.
const KILOJOULE: u128 = 2_000_000_000;

/// An energy in hundredths of a kWh, rounded up: no cost is shown below what it is.
pub fn kilowatt_hours_up(energy: i128) -> i128
    requires { unsigned_abs energy < 2 ^ 127 }
    ensures { result ≡ kilowatt_hours_up energy }
{
    rounded_up(energy, HUNDREDTH)
}

/// An energy in hundredths of a kWh, rounded down: no lower bound is shown above what it is.
pub fn kilowatt_hours_down(energy: i128) -> i128
    requires { unsigned_abs energy < 2 ^ 127 }
    ensures { result ≡ kilowatt_hours_down energy }
{
    rounded_down(energy, HUNDREDTH)
}

/// An energy in kilojoules, rounded up.
pub fn kilojoules_up(energy: i128) -> i128
    requires { unsigned_abs energy < 2 ^ 127 }
    ensures { result ≡ kilojoules_up energy }
{
    rounded_up(energy, KILOJOULE)
}

/// An energy in kilojoules, rounded down.
pub fn kilojoules_down(energy: i128) -> i128
    requires { unsigned_abs energy < 2 ^ 127 }
    ensures { result ≡ kilojoules_down energy }
{
    rounded_down(energy, KILOJOULE)
}

/// What of an energy lies above a bound, in hundredths of a per cent of the energy's size, rounded up: no drive saves more. `None` of
/// no energy.
pub fn saving_of(energy: i128, bound: i128) -> Option<i128>
    requires energy { unsigned_abs energy ≤ 2 ^ 100 }
    requires bound { unsigned_abs bound ≤ 2 ^ 100 }
    ensures { result ≡ saving_of energy bound }
{
    let size = energy.unsigned_abs();
    if size == 0 {
        return None;
    }
    Some(rounded_up(10_000 * (energy - bound), size))
}
