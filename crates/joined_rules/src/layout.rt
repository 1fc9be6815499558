//! The points of joined rules: their places, the calls that stand there and the stops.

ghost use Rattle.std.specs.Prelude.{◌≡◌, ◌-◌, ◌<◌, ◌≤◌, None, length, OnOk, IfOk, IfErr, IfSome};
ghost use Rattle.distance_grid.specs.Answer.{IsShortGrid};
ghost use Rattle.line_file.specs.Shape.{IsLine, IsService};
ghost use Rattle.joined_rules.specs.Joined.{ForNone, IsFirst, IsOutside, IsSetup, RefusesPlaces, last_place, marks_of};
ghost use Rattle.joined_rules.specs.JoinedParts.{AreStops, IsLayout, RefusesGrid, RefusesStops, CallsRise, NoneClose, Rising};

use crate::fault::RulesFault;
use crate::marks::marks;
use crate::points::{calls_of_points, close_stop, stops_of_points};
use crate::setup::Setup;
use distance_grid::{Grid, GridFault};
use line_file::{Call, Line, Service};
use std::alloc::Global;

/// The points of joined rules.
#[derive(Drop)]
pub(crate) struct Layout {
    /// Per point: its place, m.
    pub places: Vec<u32>,
    /// Per point: the call that stands there, or the number of calls.
    pub visits: Vec<usize>,
    /// Per point: whether the train stops there.
    pub stops: Vec<bool>,
}

/// The first call whose place isn't on the line.
fn first_outside(line: &Line, calls: &[Call]) -> Option<usize>
    requires { 0 < length line.now.limits }
    ensures none { result ≡ None → ForNone (IsOutside line.now calls.now) (length calls.now) }
    ensures first { IfSome result (IsFirst (IsOutside line.now calls.now) (length calls.now)) }
{
    let limits = line.limits.items();
    let from = limits[0].from;
    let to = limits[limits.len() - 1].to;
    for j in 0..calls.len() {
        if calls[j].place < from || to < calls[j].place {
            return Some(j);
        }
    }
    None
}

/// The places of the grid from the setup's place to the last call's.
fn places_of_grid(
    alloc: Global,
    line: &Line,
    service: &Service,
    setup: &Setup,
) -> Result<Vec<u32>, RulesFault>
    requires service { IsService service.now }
    requires setup { IsSetup service.now setup.now }
    ensures places { IfOk result (λ places. IsShortGrid (marks_of line.now service.now) setup.now.step setup.now.place (last_place service.now.calls) places.items) }
    ensures refused { IfErr result (RefusesGrid line.now service.now setup.now) }
{
    let marks = marks(alloc, line, service)?;
    let calls = service.calls.items();
    let end = calls[calls.len() - 1].place;
    match Grid::make(alloc, &marks, setup.step, setup.place, end) {
        Ok(grid) => Ok(grid.into_places()),
        Err(GridFault::TooManySteps) => Err(RulesFault::TooManySteps),
        Err(GridFault::NoMemory) => Err(RulesFault::NoMemory),
        Err(GridFault::BadSpan) => unreachable!(),
    }
}

/// Refuses the first stop that is too close to another, or to the start where the train stands there.
fn check_stops(
    calls: &[Call],
    places: &[u32],
    visits: &[usize],
    stops: &[bool],
    speed: u16,
) -> Result<(), RulesFault>
    requires calls { CallsRise calls.now }
    requires few { length calls.now ≤ 1000 }
    requires rising { Rising places.now }
    requires some { 1 ≤ length places.now }
    requires stops { AreStops calls.now places.now visits.now stops.now }
    ensures apart { OnOk result (NoneClose stops.now speed (length stops.now - 1)) }
    ensures refused { IfErr result (RefusesStops calls.now speed places.now) }
{
    match close_stop(stops, speed) {
        Some(k) => Err(RulesFault::StopsTooClose(visits[k + 1] as u32 + 1)),
        None => Ok(()),
    }
}

/// The points of the rules, or the first refusal of the calls and the places.
pub(crate) fn lay_out(
    alloc: Global,
    line: &Line,
    service: &Service,
    setup: &Setup,
) -> Result<Layout, RulesFault>
    requires line { IsLine line.now }
    requires service { IsService service.now }
    requires setup { IsSetup service.now setup.now }
    ensures made { IfOk result (IsLayout line.now service.now setup.now) }
    ensures refused { IfErr result (RefusesPlaces line.now service.now setup.now) }
{
    let calls = service.calls.items();
    if let Some(j) = first_outside(line, calls) {
        return Err(RulesFault::Outside(j as u32 + 1));
    }
    let places = places_of_grid(alloc, line, service, setup)?;
    let visits = calls_of_points(alloc, calls, &places)?;
    let stops = stops_of_points(alloc, calls, &visits)?;
    check_stops(calls, &places, &visits, &stops, setup.speed)?;
    Ok(Layout {
        places,
        visits,
        stops,
    })
}
