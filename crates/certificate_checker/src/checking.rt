//! The conditions of a certificate, in the order in which they are tried.
ghost use Rattle.std.specs.Prelude.{◌≡◌, ◌+◌, ◌==◌, ◌&&◌, ◌^◌, ◌≤◌, ℕ, List, None, Some, length, All, IfOk, IfErr, IfSome};
ghost use Rattle.std.specs.Int.RustNames.{unsigned_abs};
ghost use Rattle.rail_base.specs.First.{first_below};
ghost use Rattle.rail_specs.specs.Ranges.{AreRanges, no_narrowing};
ghost use Rattle.dual_certificate.specs.Text.{IsCertificate, IsPoint};
ghost use Rattle.certificate_checker.specs.declared.refused.Refused.TheVariants.{NoMemory};
ghost use Rattle.certificate_checker.specs.Holds.{Holds, Shows};
ghost use Rattle.dual_certificate.specs.Contents.{first_of, speeds_of, value_of};
ghost use Rattle.certificate_checker.specs.Refusals.{bound_refusal, cells_refusal, counts_refusal, drive_refusal, early_refusal, end_refusal, late_refusal, Refuses};

use crate::links::broken_link;
use crate::refused::{Field, Refused};
use drive_rules::{Judged, Rules};
use dual_certificate::{CertPoint, Certificate};
use link_costs::{difference, prices_for, slack_charge};
use rail_base::StepCost;
use rail_specs::Narrow;
use speed_envelopes::{Ranges, ranges};
use std::alloc::{AllocError, Global};

/// The counts of points and prices.
fn broken_count(rules: &Rules, certificate: &Certificate) -> Option<Refused>
    ensures { result ≡ counts_refusal rules.now certificate.now }
{
    if certificate.points.items().len() != rules.points() {
        return Some(Refused::Number(Field::Points));
    }
    if certificate.prices.items().len() != rules.timings().len() {
        return Some(Refused::Number(Field::Prices));
    }
    None
}

/// The drive's speeds and its energy.
fn broken_speeds<C: StepCost>(
    rules: &Rules,
    cost: &C,
    certificate: &Certificate,
    speeds: &[u16],
) -> Option<Refused>
    requires { speeds.now ≡ speeds_of certificate.now }
    ensures { result ≡ drive_refusal (C.cost cost.now) rules.now certificate.now }
{
    match rules.judge(speeds, cost) {
        Judged::Broken(rule, place) => Some(Refused::Drive(rule, place)),
        Judged::Kept { cost } => {
            if certificate.energy == cost {
                None
            } else {
                Some(Refused::Number(Field::Energy))
            }
        }
    }
}

/// The drive and its energy.
fn broken_drive<C: StepCost>(
    alloc: Global,
    rules: &Rules,
    cost: &C,
    certificate: &Certificate,
) -> Result<Option<Refused>, AllocError>
    ensures { IfOk result (λ broken. broken ≡ drive_refusal (C.cost cost.now) rules.now certificate.now) }
{
    let speeds = certificate.speeds(alloc)?;
    Ok(broken_speeds(rules, cost, certificate, speeds.as_slice()))
}

/// Whether the cells of a point run from this speed to that.
fn runs(point: &CertPoint, least: u16, greatest: u16) -> bool
    requires { 1 ≤ length point.now.cells }
    ensures { result ≡ ((first_of point.now 0 == least) && (point.now.greatest == greatest)) }
{
    point.cells.items()[0].first == least && point.greatest == greatest
}

/// The first point whose cells don't run from its least to its greatest speed.
#[tactic(auto, using(crate::proofs::PointLemmas::firsts))]
fn broken_cells(ranges: &Ranges, points: &[CertPoint]) -> Option<Refused>
    requires point { All IsPoint points.now }
    requires low { length points.now ≡ length ranges.now.low }
    requires high { length points.now ≡ length ranges.now.high }
    requires few { length points.now ≤ 4001 }
    ensures { result ≡ first_below (cells_refusal ranges.now.low ranges.now.high points.now) (length points.now) }
{
    for k in 0..points.len() {
        if !runs(&points[k], ranges.low(k), ranges.high(k)) {
            return Some(Refused::Cells(k as u32));
        }
    }
    None
}

/// The potential of a point's first cell.
fn first_potential(point: &CertPoint) -> Option<i128>
    requires { 1 ≤ length point.now.cells }
    ensures { result ≡ value_of point.now 0 }
{
    point.cells.items()[0].potential
}

/// The potential of the last point's cell.
fn broken_end(points: &[CertPoint], last: usize) -> Option<Refused>
    requires count { length points.now ≡ last + 1 }
    requires few { last ≤ 4000 }
    requires point { All IsPoint points.now }
    ensures { result ≡ end_refusal points.now last }
{
    if first_potential(&points[last]) == Some(0) {
        None
    } else {
        Some(Refused::Potential(last as u32, 0, 0))
    }
}

/// The bound, where the prices charge this for the slack of the timing points.
fn broken_bound(certificate: &Certificate, slack: i128) -> Option<Refused>
    requires certificate { IsCertificate certificate.now }
    requires slack { unsigned_abs slack ≤ 2 ^ 92 }
    ensures { result ≡ bound_refusal certificate.now slack }
{
    match first_potential(&certificate.points.items()[0]) {
        Some(potential) if difference(potential, slack) == certificate.bound => None,
        _ => Some(Refused::Number(Field::Bound)),
    }
}

/// The cells, the links, the last potential and the bound, where the drives have these ranges of speeds.
fn check_late<C: StepCost>(
    alloc: Global,
    rules: &Rules,
    cost: &C,
    certificate: &Certificate,
    ranges: &Ranges,
) -> Result<(), Refused>
    requires certificate { IsCertificate certificate.now }
    requires points { length certificate.now.points ≡ length rules.now.steps + 1 }
    requires prices { length certificate.now.prices ≡ length rules.now.timings }
    requires low { length ranges.now.low ≡ length rules.now.steps + 1 }
    requires high { length ranges.now.high ≡ length rules.now.steps + 1 }
    ensures { Refuses result (late_refusal (C.cost cost.now) rules.now certificate.now ranges.now.low ranges.now.high) }
{
    let points = certificate.points.items();
    if let Some(refused) = broken_cells(ranges, points) {
        return Err(refused);
    }
    let prices = prices_for(alloc, rules, certificate.prices.items())?;
    if let Some(refused) = broken_link(alloc, rules, cost, &prices, points)? {
        return Err(refused);
    }
    if let Some(refused) = broken_end(points, rules.steps()) {
        return Err(refused);
    }
    match broken_bound(certificate, slack_charge(&prices, rules)) {
        Some(refused) => Err(refused),
        None => Ok(()),
    }
}

/// The first condition that fails, of those before the cells and then of the others.
fn first_broken<C: StepCost>(
    alloc: Global,
    rules: &Rules,
    cost: &C,
    certificate: &Certificate,
) -> Result<(), Refused>
    requires { IsCertificate certificate.now }
    ensures early { IfSome (early_refusal (C.cost cost.now) rules.now certificate.now) (λ e. Refuses result (Some e)) }
    ensures late { early_refusal (C.cost cost.now) rules.now certificate.now ≡ None → (least greatest : List ℕ) → AreRanges rules.now no_narrowing least greatest → Refuses result (late_refusal (C.cost cost.now) rules.now certificate.now least greatest) }
    ensures ranges { IfOk result (λ _. (least : List ℕ) × (greatest : List ℕ) × AreRanges rules.now no_narrowing least greatest) }
{
    if let Some(refused) = broken_count(rules, certificate) {
        return Err(refused);
    }
    if let Some(refused) = broken_drive(alloc, rules, cost, certificate)? {
        return Err(refused);
    }
    match ranges(alloc, rules, &Narrow::none())? {
        Some(ranges) => check_late(alloc, rules, cost, certificate, &ranges),
        None => Err(Refused::Cells(0)),
    }
}

/// Whether a certificate holds for the rules and the cost of work: `Ok` exactly where it does, and else the first condition that fails.
///
/// The conditions in order: the counts of points and prices; the speeds are a drive on time; the energy is its cost; the cells of each point
/// run from the least to the greatest speed of all drives there; each link that is possible, in the order of its point, its cell there and
/// its cell at the next point; the last potential is 0; the bound. `NoMemory` may come at any place.
pub fn check<C: StepCost>(
    alloc: Global,
    rules: &Rules,
    cost: &C,
    certificate: &Certificate,
) -> Result<(), Refused>
    requires { IsCertificate certificate.now }
    ensures holds { IfOk result (λ _. Holds (C.cost cost.now) rules.now certificate.now) }
    ensures fails { IfErr result (λ e. (e ≡ NoMemory → ⊥) → Holds (C.cost cost.now) rules.now certificate.now → ⊥) }
    // Its energy is that of a drive on time, and no drive on time costs less than its bound.
    ensures shows { IfOk result (λ _. Shows (C.cost cost.now) rules.now certificate.now) }
    // Which condition fails first: of the counts, the drive and its energy, and then of the others.
    ensures early { IfSome (early_refusal (C.cost cost.now) rules.now certificate.now) (λ e. Refuses result (Some e)) }
    ensures late { early_refusal (C.cost cost.now) rules.now certificate.now ≡ None → (least greatest : List ℕ) → AreRanges rules.now no_narrowing least greatest → Refuses result (late_refusal (C.cost cost.now) rules.now certificate.now least greatest) }
{
    rules.known();
    first_broken(alloc, rules, cost, certificate)
}
