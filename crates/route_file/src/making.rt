//! The parts of the rules of a route that was read.

ghost use Rattle.std.specs.Prelude.{◌≡◌, ◌+◌, ◌≤◌, length, replicate, IfOk};
ghost use Rattle.route_file.specs.RouteParts.{rules_with, IsHeading};
ghost use Rattle.rule_parts.specs.Shaped.{rules_of};

use crate::data::{Heading, StepLists};
use force_table::{ForceTable, TableFault};
use rail_specs::Timing;
use rule_parts::Parts;
use std::alloc::{AllocError, Global};

/// A table with the same force at every speed up to the top.
fn constant_table(alloc: Global, top: u16, force: u32) -> Result<ForceTable, AllocError>
    requires some { 1 ≤ top }
    requires slow { top ≤ 12000 }
    requires weak { force ≤ 2000000 }
    ensures { IfOk result (λ table. table ≡ replicate (top + 1) force) }
{
    match ForceTable::make(alloc, &[(0, force), (top, force)]) {
        Ok(table) => Ok(table),
        Err(TableFault::NoMemory) => Err(AllocError),
        Err(_) => unreachable!(),
    }
}

/// The parts of the rules of a heading and its steps.
pub(crate) fn make_parts(
    alloc: Global,
    heading: &Heading,
    lists: StepLists,
) -> Result<Parts, AllocError>
    requires heading { IsHeading heading.now }
    requires few { length lists.rows.items ≤ 4000 }
    ensures { IfOk result (λ parts. rules_of parts ≡ rules_with heading.now lists) }
{
    let count = lists.rows.len();
    let mut stops = vec![in alloc; false; count]?;
    stops.push(true)?;
    let dwells = vec![in alloc; 0u32; count + 1]?;
    let mut timings = Vec::new(alloc);
    timings.push(Timing {
        point: count as u32,
        latest: 1000 * i64::from(heading.latest),
    })?;
    let traction = constant_table(alloc, heading.top, heading.traction)?;
    let brake = constant_table(alloc, heading.top, heading.brake)?;
    let StepLists {
        rows,
        limits,
        places,
        end: _,
    } = lists;
    Ok(Parts {
        start: 0,
        top: heading.top,
        traction,
        brake,
        train_length: 0,
        rows,
        limits,
        places,
        stops,
        dwells,
        timings,
    })
}
