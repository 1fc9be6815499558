//! Passes until nothing is gained.
use crate::chains::{follow, pass, priced_cost};
use crate::course::Course;
use crate::desk::Desk;
use crate::links::{DEAR, NEVER};
use crate::window::Look;
use rail_base::StepCost;
use std::alloc::{AllocError, Global};

/// Makes speeds the cheapest in the windows round them, with time priced, and again until nothing is gained, the speeds lie within their
/// windows, or that was done as often as `look` says. Whether the forces allow the speeds in the end.
///
/// The prices are those of a ms of the steps before each timing point, scaled. `AllocError` is want of memory; the speeds may then have
/// changed.
pub fn settle<C: StepCost>(
    alloc: Global,
    desk: &mut Desk,
    course: &Course,
    cost: &C,
    prices: &[u64],
    speeds: &mut Vec<u16>,
    look: Look,
) -> Result<bool, AllocError> {
    let mut old = priced_cost(course, cost, prices, speeds.as_slice(), look.rounded);
    for _ in 0..look.most {
        let least = pass(desk, course, cost, prices, speeds.as_slice(), look);
        if least >= old || least >= DEAR {
            break;
        }
        let found = follow(alloc, desk, course, speeds.as_slice(), look)?;
        let was_allowed = old < NEVER;
        *speeds = found.speeds;
        old = least;
        if found.moved < look.radius && was_allowed {
            break;
        }
    }
    Ok(old < DEAR)
}
