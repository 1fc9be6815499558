//! The times of arrival at all points.

ghost use Rattle.std.specs.Prelude.{◌≡◌, IfOk};
ghost use Rattle.rail_specs.specs.Rules.{IsDrive};
ghost use Rattle.sheet_parts.specs.Arrivals.{AreArrivals};

use drive_rules::Rules;
use std::alloc::{AllocError, Global};

/// The ms of arrival of a drive at each point, step times rounded up.
///
/// It looks at each step once. The only error is want of memory.
pub fn arrivals(alloc: Global, rules: &Rules, speeds: &[u16]) -> Result<Vec<u64>, AllocError>
    requires { IsDrive rules.now speeds.now }
    ensures { IfOk result (λ times. AreArrivals rules.now speeds.now times.items) }
{
    let mut times = Vec::new(alloc);
    let mut time = 0;
    times.push(time)?;
    for i in 0..rules.steps() {
        time = rules.arrival_from(speeds, i, time, i + 1);
        times.push(time)?;
    }
    Ok(times)
}
