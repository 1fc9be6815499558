//! The lines of a drive's energies.

ghost use Rattle.std.specs.Prelude.{◌≡◌, ◌++◌, ℕ, ◌+◌, ◌<◌, ◌≤◌, ◌^◌, length, OnOk};
ghost use Rattle.std.specs.Int.RustNames.{unsigned_abs};
ghost use Rattle.rail_specs.specs.Rules.{IsDrive, work_at};
ghost use Rattle.rail_specs.specs.Cost.{cost_of, traction_cost};
ghost use Rattle.dual_certificate.specs.Part.{IsPassed};
ghost use Rattle.drive_report.specs.Report.{energy_lines, kilojoules_of, regained_lines};

use drive_rules::Rules;
use rail_base::{StepCost, Traction, put_number_line};
use std::alloc::{AllocError, Global};

/// The least whole number of kilojoules that is at least an energy in 0.5 microjoule.
fn kilojoules(energy: i128) -> i128
    ensures { result ≡ kilojoules_of energy }
{
    if energy >= 0 {
        (energy as u128).div_ceil(2_000_000_000) as i128
    } else {
        -((energy.unsigned_abs() / 2_000_000_000) as i128)
    }
}

/// Appends the lines of the energy, also in kilojoules.
pub(crate) fn put_energy(alloc: Global, out: &mut Vec<u8>, energy: i128) -> Result<(), AllocError>
    ensures { OnOk result (out.new.items ≡ out.old.items ++ energy_lines energy) }
{
    put_number_line(alloc, out, b"energy", energy)?;
    put_number_line(alloc, out, b"kilojoules", kilojoules(energy))?;
    Ok(())
}

/// What step i of a drive takes of traction.
fn step_traction(rules: &Rules, speeds: &[u16], i: usize) -> i128
    requires drive { IsDrive rules.now speeds.now }
    requires step { i < length rules.now.steps }
    ensures value { result ≡ traction_cost (work_at rules.now speeds.now i) }
    ensures small { unsigned_abs result ≤ 2 ^ 62 }
{
    rules.known_drive(speeds);
    Traction.of(rules.row(i).work(speeds[i], speeds[i + 1]))
}

/// What a drive takes of traction, in 0.5 microjoule: what its cost is where braking gives nothing back.
#[tactic(auto, using(drive_rules::proofs::VerdictLemmas::sums))]
fn traction_energy(rules: &Rules, speeds: &[u16]) -> i128
    requires { IsDrive rules.now speeds.now }
    ensures value { result ≡ cost_of traction_cost rules.now speeds.now }
    ensures small { unsigned_abs result ≤ 2 ^ 74 }
{
    let mut sum = 0;
    for i in 0..rules.steps() {
        sum += step_traction(rules, speeds, i);
    }
    sum
}

/// Appends what a train regains, where its file says so: the share, and what the drive takes of traction.
pub(crate) fn put_regained(
    alloc: Global,
    out: &mut Vec<u8>,
    rules: &Rules,
    speeds: &[u16],
    regeneration: Option<u16>,
) -> Result<(), AllocError>
    requires { IsDrive rules.now speeds.now }
    ensures text { OnOk result (out.new.items ≡ out.old.items ++ regained_lines rules.now speeds.now regeneration) }
    ensures passed { OnOk result (IsPassed (regained_lines rules.now speeds.now regeneration)) }
{
    if let Some(share) = regeneration {
        put_number_line(alloc, out, b"regeneration", share as i128)?;
        put_number_line(alloc, out, b"traction", traction_energy(rules, speeds))?;
    }
    Ok(())
}
