//! The search on a short run.

ghost use Rattle.std.specs.Prelude.{◌≤◌, ◌^◌};

use crate::routes::{SLOWER_TWO_STEPS, rules_of};
use costate_bound::Relaxation;
use costate_search::search_costates;
use drive_rules::Rules;
use link_costs::prices_for;
use rail_specs::Narrow;
use speed_envelopes::ranges;
use std::alloc::{AllocError, Global};
use std::test::Fail;

/// The bound by costates that are searched for, at a price and with tangents at a speed of the middle point; none where the rules aren't those
/// of the route or have no drive.
fn found_bound(
    alloc: Global,
    rules: &Rules,
    price: u64,
    speed: u16,
) -> Result<Option<i128>, AllocError>
    requires { price ≤ 2 ^ 50 }
{
    if rules.timings().len() != 1 || rules.steps() != 2 {
        return Ok(None);
    }
    let prices = prices_for(alloc, rules, &[price])?;
    let Some(found) = ranges(alloc, rules, &Narrow::none())? else {
        return Ok(None);
    };
    let speeds = [0, speed, 0];
    let costates = search_costates(alloc, rules, 0, &prices, &speeds, &found)?;
    let relaxation = Relaxation::make(rules, 0, &prices, &speeds, costates.as_slice());
    Ok(Some(relaxation.bound(&found)))
}

#[test]
fn two_steps(rt: HostRuntime) -> Result<(), Fail> {
    let alloc = rt.alloc();
    let rules = rules_of(alloc, SLOWER_TWO_STEPS)?;
    let bound = found_bound(alloc, &rules, 106_744_794, 598)?;
    assert!(rt; bound == Some(3_764_035_312_412));
    Ok(())
}
