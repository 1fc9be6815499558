//! The phases of a drive.

ghost use Rattle.std.specs.Prelude.{◌≡◌, ℕ, ◌+◌, ◌<◌, ◌≤◌, ◌||◌, nat_lt, pos, length};
ghost use Rattle.std.specs.Int.RustNames.{int_lt};
ghost use Rattle.drive_report.specs.Phase.{phase_at, phase_name, phase_of};
ghost use Rattle.rail_specs.specs.Rules.{IsDrive, step_at, traction_work};
ghost use Rattle.rail_specs.specs.Step.{work};

use crate::kinds::Phase;
use drive_rules::Rules;

/// Whether a train that gains speed over step i, from v0 to v1, has all the traction it can: one cm/s more at the end
/// would be above its top speed, or would take more traction than it has.
fn is_fastest(rules: &Rules, i: usize, v0: u16, v1: u16) -> bool
    requires step { i < length rules.now.steps }
    requires gains { v0 < v1 }
    requires exit { v1 ≤ 12000 }
    ensures { result ≡ (nat_lt rules.now.top (v1 + 1)
        || int_lt (pos (traction_work rules.now i (v1 + 1))) (work (step_at rules.now i) v0 (v1 + 1))) }
{
    v1 + 1 > rules.top() || !rules.traction_reaches(i, v0, v1 + 1)
}

/// What the train does over step i from speed v0 to speed v1, in cm/s: the first phase that fits.
fn phase(rules: &Rules, i: usize, v0: u16, v1: u16) -> Phase
    requires step { i < length rules.now.steps }
    requires entry { v0 ≤ 12000 }
    requires exit { v1 ≤ 12000 }
    ensures { result ≡ phase_of rules.now i v0 v1 }
{
    if v1 == v0 {
        return Phase::Hold;
    }
    if !rules.step_idle(i, v0, v1) {
        if v0 < v1 && is_fastest(rules, i, v0, v1) {
            Phase::Power
        } else {
            Phase::Part
        }
    } else if rules.row(i).short_work(v0, v1 + 1) > 0 {
        Phase::Coast
    } else {
        Phase::Brake
    }
}

/// The phase of step i of a drive. It takes no memory.
#[tactic(auto, unfolding(crate::specs::Phase::phase_at))]
pub fn step_phase(rules: &Rules, speeds: &[u16], i: usize) -> Phase
    requires drive { IsDrive rules.now speeds.now }
    requires step { i < length rules.now.steps }
    ensures { result ≡ phase_at rules.now speeds.now i }
{
    rules.known_drive(speeds);
    phase(rules, i, speeds[i], speeds[i + 1])
}

/// The name of a phase, as reports, tables and pictures have it.
pub fn phase_name(phase: Phase) -> &'static [u8]
    ensures { result.now ≡ phase_name phase }
{
    match phase {
        Phase::Hold => b"hold",
        Phase::Power => b"power",
        Phase::Coast => b"coast",
        Phase::Brake => b"brake",
        Phase::Part => b"part",
    }
}
