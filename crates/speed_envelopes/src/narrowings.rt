//! Narrowings to a cap, and to a cap and a stretch to a stop over which a train coasts.
ghost use Rattle.std.specs.Prelude.{◌≡◌, ◌≤◌, ◌<◌, length};
ghost use Rattle.speed_envelopes.specs.Narrowing.{capped, IsNextStop, IsCoasting};

use drive_rules::Rules;
use rail_specs::Narrow;

/// The narrowing to a cap, cm/s, with no step without traction.
pub fn under_cap(cap: u16) -> Narrow
    ensures { result ≡ capped cap }
{
    Narrow {
        cap,
        idle_from: 0,
        idle_to: 0,
    }
}

/// The first stop after point k.
fn next_stop(rules: &Rules, k: usize) -> usize
    requires { k < length rules.now.steps }
    ensures next { IsNextStop rules.now k result }
    ensures within { result ≤ length rules.now.steps }
{
    rules.known();
    let _steps = rules.steps();
    let mut stop = k + 1;
    while !rules.stop(stop) {
        stop += 1;
    }
    stop
}

/// The narrowing to a cap, cm/s, without traction from point `floor(k n / 64)`, over `n` steps, to the first stop after that point.
pub fn coasting(rules: &Rules, cap: u16, k: usize) -> Narrow
    requires { k ≤ 63 }
    ensures { IsCoasting rules.now cap k result }
{
    let from = k * rules.steps() / 64;
    let to = next_stop(rules, from);
    Narrow {
        cap,
        idle_from: from as u32,
        idle_to: to as u32,
    }
}
