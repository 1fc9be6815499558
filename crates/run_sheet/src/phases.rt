//! The metres of each phase of a drive.

ghost use Rattle.std.specs.Prelude.{◌≡◌, ℕ, ◌*◌, ◌<◌, ◌≤◌, length};
ghost use Rattle.rail_specs.specs.Rules.{IsDrive};
ghost use Rattle.run_sheet.specs.Phases.{metres_of, phase_metres};

use drive_report::{Phase, step_phase};
use drive_rules::Rules;

/// The metres of step i, where it has this phase, and else 0.
fn metres_of(rules: &Rules, speeds: &[u16], phase: Phase, i: usize) -> u64
    requires drive { IsDrive rules.now speeds.now }
    requires step { i < length rules.now.steps }
    ensures value { result ≡ metres_of rules.now speeds.now phase i }
    ensures small { result ≤ 1000 }
{
    if step_phase(rules, speeds, i) == phase {
        rules.row(i).metres() as u64
    } else {
        0
    }
}

/// The metres of all steps that have this phase.
#[tactic(auto, using(drive_rules::proofs::VerdictLemmas::sums))]
pub(crate) fn phase_metres(rules: &Rules, speeds: &[u16], phase: Phase) -> u64
    requires { IsDrive rules.now speeds.now }
    ensures { result ≡ phase_metres rules.now speeds.now phase }
{
    let mut sum = 0;
    for i in 0..rules.steps() {
        sum += metres_of(rules, speeds, phase, i);
    }
    sum
}
