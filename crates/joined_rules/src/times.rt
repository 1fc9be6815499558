//! The dwells and the timing points of joined rules.

ghost use Rattle.std.specs.Prelude.{◌≤◌, length, slice_index, IfOk};
ghost use Rattle.line_file.specs.Shape.{IsService};
ghost use Rattle.joined_rules.specs.Joined.{first_place};
ghost use Rattle.joined_rules.specs.JoinedParts.{AreCallsAt, HaveCallPlaces, Rising, AreTimes};

use crate::points::dwells_of_points;
use crate::timings::timings_of_calls;
use line_file::Service;
use rail_specs::Timing;
use std::alloc::{AllocError, Global};

/// When the train of joined rules stands, and by when it must be where.
#[derive(Drop)]
pub(crate) struct Times {
    /// Per point: how long the train stands there, ms.
    pub dwells: Vec<u32>,
    /// The points with a latest time, in order.
    pub timings: Vec<Timing>,
}

/// The dwells and the timing points of the calls that stand at points.
pub(crate) fn times_of(
    alloc: Global,
    service: &Service,
    clock: u32,
    places: &[u32],
    visits: &[usize],
) -> Result<Times, AllocError>
    requires service { IsService service.now }
    requires clock { clock ≤ 172800 }
    requires visits { AreCallsAt service.now.calls places.now visits.now }
    requires rising { Rising places.now }
    requires some { 1 ≤ length places.now }
    requires few { length places.now ≤ 4001 }
    requires start { first_place service.now.calls ≤ slice_index places.now 0 }
    requires there { HaveCallPlaces places.now service.now.calls }
    ensures { IfOk result (AreTimes service.now.calls clock places.now visits.now) }
{
    let calls = service.calls.items();
    let dwells = dwells_of_points(alloc, calls, visits)?;
    let timings = timings_of_calls(alloc, calls, places, clock)?;
    Ok(Times { dwells, timings })
}
