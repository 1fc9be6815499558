//! What is shown of a drive that is kept.

ghost use Rattle.std.specs.Prelude.{◌≡◌, ◌≤◌, All, IfOk, count_by, length, map, nat_lt};
ghost use Rattle.rail_specs.specs.Rules.{IsDrive};
ghost use Rattle.sheet_run.specs.Claims.{IsSmall};
ghost use Rattle.sheet_run.specs.Shown.{point_of, points_of, shown_text};

use crate::claims::Claim;
use crate::command_line::Form;
use crate::named_service::NamedService;
use drive_rules::Rules;
use line_file::Call;
use rail_base::StepCost;
use run_picture::picture;
use run_sheet::{points, timetable};
use std::alloc::{AllocError, Global};

/// How many points lie before a place.
fn points_before(rules: &Rules, place: u32) -> usize
    ensures { result ≡ count_by (λ p. nat_lt p place) rules.now.places }
{
    rules.known();
    let mut count = 0;
    for k in 0..rules.points() {
        if rules.place(k) < place {
            count += 1;
        }
    }
    count
}

/// The point at a place of the line, in m: as many as there are points before the place, and no further than the last.
fn point_of(rules: &Rules, place: u32) -> u32
    ensures value { result ≡ point_of rules.now place }
    ensures within { result ≤ length rules.now.steps }
{
    rules.known();
    points_before(rules, place).min(rules.steps()) as u32
}

/// The points of calls, in their order.
fn points_of(alloc: Global, rules: &Rules, calls: &[Call]) -> Result<Vec<u32>, AllocError>
    ensures value { IfOk result (λ points. points.items ≡ points_of rules.now calls.now) }
    ensures within { IfOk result (λ points. All (λ k. k ≤ length rules.now.steps) points.items) }
{
    let mut points = Vec::new(alloc);
    for call in calls {
        points.push(point_of(rules, call.place))?;
    }
    Ok(points)
}

/// The text of a drive in a form.
pub(crate) fn shown_text<C: StepCost>(
    alloc: Global,
    form: Form,
    rules: &Rules,
    cost: &C,
    named: &NamedService,
    claim: &Claim,
) -> Result<Vec<u8>, AllocError>
    requires drive { IsDrive rules.now claim.now.speeds }
    requires small { IsSmall claim.now }
    ensures { IfOk result (λ text. text.items ≡ shown_text form (C.cost cost.now) rules.now named.now claim.now) }
{
    let speeds = claim.speeds.items();
    let calls = points_of(alloc, rules, named.service.calls.items())?;
    match form {
        Form::Timetable => timetable(
            alloc,
            rules,
            speeds,
            calls.as_slice(),
            &named.names,
            claim.energy,
            claim.bound,
        ),
        Form::Points => points(alloc, rules, speeds, cost),
        Form::Svg => picture(
            alloc,
            rules,
            speeds,
            calls.as_slice(),
            &named.names,
            claim.energy,
        ),
    }
}
