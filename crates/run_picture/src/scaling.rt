//! The scale of a drive's picture.

ghost use Rattle.std.specs.Prelude.{◌≡◌, ℕ, ◌+◌, ◌-◌, ◌*◌, ◌≤◌, ◌<◌, length, slice_index};
ghost use Rattle.std.specs.Int.RustNames.{unsigned_abs};
ghost use Rattle.rail_specs.specs.Rules.{IsDrive, step_at};
ghost use Rattle.run_picture.specs.Scale.{greatest_below, round_step, shown_speed, shown_kilometres, shown_gradient, next_multiple, scale_of};

use crate::axes::Axes;
use crate::scale::Scale;
use drive_rules::Rules;

/// The round numbers, by which axes are divided.
const ROUND_NUMBERS: [u64; 19] = [
    1, 2, 5, 10, 20, 50, 100, 200, 500, 1000, 2000, 5000, 10000, 20000, 50000, 100000, 200000,
    500000, 1000000,
];

/// The first round number that is enough to reach a size in so many steps, and 1000000 where none is.
#[tactic(auto, unfolding(crate::specs::Scale::round_step))]
pub fn round_step(size: u64, steps: u64) -> u64
    requires { steps ≤ 100 }
    ensures value { result ≡ round_step size steps }
    ensures some { 1 ≤ result }
    ensures small { result ≤ 1000000 }
{
    for i in 0..ROUND_NUMBERS.len() {
        let n = ROUND_NUMBERS[i];
        if size <= steps * n {
            return n;
        }
    }
    1000000
}

/// The greatest speed limit, cm/s.
#[tactic(auto, using(crate::proofs::ScaleLemmas::greatest))]
fn greatest_limit(rules: &Rules) -> u64
    ensures value { result ≡ greatest_below (λ i. slice_index rules.now.limits i) (length rules.now.steps) }
    ensures small { result ≤ 12000 }
{
    rules.known();
    let mut greatest = 0;
    for i in 0..rules.steps() {
        greatest = u64::from(rules.limit(i)).max(greatest);
    }
    greatest
}

/// The greatest speed that is driven, cm/s.
#[tactic(auto, using(crate::proofs::ScaleLemmas::greatest))]
fn greatest_speed(rules: &Rules, speeds: &[u16]) -> u64
    requires { IsDrive rules.now speeds.now }
    ensures value { result ≡ greatest_below (λ k. slice_index speeds.now k) (length rules.now.steps + 1) }
    ensures small { result ≤ 12000 }
{
    rules.known_drive(speeds);
    let mut greatest = 0;
    for k in 0..rules.points() {
        greatest = u64::from(speeds[k]).max(greatest);
    }
    greatest
}

/// The greatest gradient, up or down, in 1/10 per mille.
#[tactic(auto, using(crate::proofs::ScaleLemmas::greatest))]
fn greatest_gradient(rules: &Rules) -> u64
    ensures value { result ≡ greatest_below (λ i. unsigned_abs (step_at rules.now i).gradient) (length rules.now.steps) }
    ensures small { result ≤ 65535 }
{
    let mut greatest = 0;
    for i in 0..rules.steps() {
        greatest = u64::from(rules.row(i).numbers().gradient.unsigned_abs()).max(greatest);
    }
    greatest
}

/// The speed up to which the axis has to go, km/h.
fn shown_kilometres(rules: &Rules, speeds: &[u16]) -> u64
    requires { IsDrive rules.now speeds.now }
    ensures value { result ≡ shown_kilometres rules.now speeds.now }
    ensures small { result ≤ 1000 }
{
    greatest_limit(rules).min(2 * greatest_speed(rules, speeds)) * 189 / 5000
}

/// The least multiple of a step above a size.
fn next_multiple(size: u64, step: u64) -> u64
    requires size { size ≤ 1000 }
    requires some { 1 ≤ step }
    requires small { step ≤ 1000000 }
    ensures value { result ≡ next_multiple size step }
    ensures above { 1 ≤ result }
    ensures near { result ≤ 2000000 }
{
    size / step * step + step
}

/// The length of the run, m.
fn span_of(rules: &Rules) -> u64
    ensures value { result ≡ slice_index rules.now.places (length rules.now.steps) - slice_index rules.now.places 0 }
    ensures some { 1 ≤ result }
    ensures far { result ≤ 4000000 }
{
    rules.known();
    u64::from(rules.place(rules.steps())) - u64::from(rules.place(0))
}

/// The axes of the picture of a drive.
pub fn axes_of(rules: &Rules, speeds: &[u16]) -> Axes
    requires { IsDrive rules.now speeds.now }
    ensures { result ≡ scale_of rules.now speeds.now }
{
    let kilometres = shown_kilometres(rules, speeds);
    let speed_step = round_step(kilometres, 8);
    Axes::new(Scale {
        first: u64::from(rules.place(0)),
        span: span_of(rules),
        speed_step,
        speed_top: next_multiple(kilometres, speed_step),
        gradient_step: round_step(greatest_gradient(rules).div_ceil(10), 2),
    })
}
