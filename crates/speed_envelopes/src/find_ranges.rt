//! The search for the exact range of speeds at each point.
ghost use Rattle.std.specs.Prelude.{◌≡◌, IfSome, IfNone, IfOk};
ghost use Rattle.rail_specs.specs.Ranges.{AreRanges, NoNarrowDrive};

use crate::greatest::greatest_under;
use crate::least::least;
use crate::speed_ranges::Ranges;
use drive_rules::Rules;
use rail_specs::Narrow;
use std::alloc::{AllocError, Global};

/// The exact ranges of speeds under a narrowing, one for each point: none exactly where there is no drive under it.
/// `AllocError` is want of memory.
pub fn ranges(alloc: Global, rules: &Rules, narrow: &Narrow) -> Result<Option<Ranges>, AllocError>
    ensures some { IfOk result (λ found. IfSome found (λ r. AreRanges rules.now narrow.now r.low r.high)) }
    ensures none { IfOk result (λ found. IfNone found (NoNarrowDrive rules.now narrow.now)) }
{
    rules.known();
    let Some(high) = greatest_under(alloc, rules, narrow)? else {
        return Ok(None);
    };
    let low = least(alloc, rules, narrow)?;
    Ok(Some(Ranges::new(low, high)))
}
