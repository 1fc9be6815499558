//! The links of a certificate: each pair of cells of neighbouring points.
ghost use Rattle.std.specs.Prelude.{◌≡◌, ◌+◌, ◌^◌, ◌<◌, ◌≤◌, Some, length, All, IfOk, IfSome};
ghost use Rattle.std.specs.Int.RustNames.{unsigned_abs};
ghost use Rattle.bound_specs.specs.Cells.{IsCell};
ghost use Rattle.bound_specs.specs.Chains.{plus};
ghost use Rattle.rail_base.specs.First.{first_below};
ghost use Rattle.link_costs.specs.Soundness.{pricing_of};
ghost use Rattle.dual_certificate.specs.Text.{IsModest, IsPoint};
ghost use Rattle.bound_specs.specs.Prices.{AreFor};
ghost use Rattle.dual_certificate.specs.Contents.{cell_of};
ghost use Rattle.certificate_checker.specs.Lists.{AreCellsOf};
ghost use Rattle.certificate_checker.specs.Refusals.{is_at_most, link_refusal, links_from, links_over};

use crate::refused::Refused;
use drive_rules::Rules;
use dual_certificate::CertPoint;
use link_costs::sum;
use link_windows::StepLinks;
use rail_base::{Cell, StepCost};
use std::alloc::{AllocError, Global};
use time_multipliers::Prices;

/// Cell c of a point.
#[tactic(auto, using(crate::proofs::PointLemmas::risings))]
fn cell_at(point: &CertPoint, c: usize) -> Cell
    requires point { IsPoint point.now }
    requires cell { c < length point.now.cells }
    ensures value { result ≡ cell_of point.now c }
    ensures cell { IsCell result }
{
    let cells = point.cells.items();
    let last = if c + 1 < cells.len() {
        cells[c + 1].first - 1
    } else {
        point.greatest
    };
    Cell {
        first: cells[c].first,
        last,
    }
}

/// The cells of a point, in their order.
fn cells_of(alloc: Global, point: &CertPoint) -> Result<Vec<Cell>, AllocError>
    requires point { IsPoint point.now }
    ensures { IfOk result (λ cells. AreCellsOf point.now cells.items) }
{
    let count = point.cells.items().len();
    let mut cells = Vec::with_capacity(alloc, count)?;
    for c in 0..count {
        cells.push(cell_at(point, c))?;
    }
    Ok(cells)
}

/// Whether a potential is at most what a link and the potential behind it cost together; none stands above every number.
fn keeps(potential: Option<i128>, link: i128, behind: Option<i128>) -> bool
    requires link { unsigned_abs link ≤ 2 ^ 86 }
    requires behind { IfSome behind IsModest }
    ensures { result ≡ is_at_most potential (plus (Some link) behind) }
{
    let Some(behind) = behind else {
        return true;
    };
    match potential {
        Some(potential) => potential <= sum(link, behind),
        None => false,
    }
}

/// The first of a step's links from cell a, with its potential, that fails. Those that aren't possible can't.
#[tactic(auto, using(crate::proofs::PointLemmas::firsts))]
fn broken_from<C: StepCost>(
    links: &StepLinks<'_, C>,
    k: usize,
    a: usize,
    cell: Cell,
    potential: Option<i128>,
    next: &CertPoint,
    next_cells: &[Cell],
) -> Option<Refused>
    requires step { k ≡ links.now.step }
    requires few { k < 4001 }
    requires count { a < 54001 }
    requires entry { IsCell cell }
    requires next { IsPoint next.now }
    requires cells { AreCellsOf next.now next_cells.now }
    requires few_cells { length next.now.cells ≤ 54001 }
    ensures { result ≡ first_below (link_refusal (pricing_of C.cost links.now.priced) k a cell potential next.now) (length next.now.cells) }
{
    let window = links.window(cell, next_cells);
    let cells = next.cells.items();
    let mut b = window.from;
    while b < window.to {
        let link = links.cost(cell, next_cells[b]);
        if !keeps(potential, link, cells[b].potential) {
            return Some(Refused::Potential(k as u32, a as u32, b as u32));
        }
        b += 1;
    }
    None
}

/// The first of a step's links that fails.
#[tactic(auto, using(crate::proofs::PointLemmas::firsts))]
fn broken_over<C: StepCost>(
    links: &StepLinks<'_, C>,
    k: usize,
    point: &CertPoint,
    next: &CertPoint,
    next_cells: &[Cell],
) -> Option<Refused>
    requires step { k ≡ links.now.step }
    requires few { k < 4001 }
    requires point { IsPoint point.now }
    requires next { IsPoint next.now }
    requires cells { AreCellsOf next.now next_cells.now }
    requires few_here { length point.now.cells ≤ 54001 }
    requires few_cells { length next.now.cells ≤ 54001 }
    ensures { result ≡ first_below (links_from (pricing_of C.cost links.now.priced) k point.now next.now) (length point.now.cells) }
{
    let cells = point.cells.items();
    for a in 0..cells.len() {
        let broken = broken_from(
            links,
            k,
            a,
            cell_at(point, a),
            cells[a].potential,
            next,
            next_cells,
        );
        if broken.is_some() {
            return broken;
        }
    }
    None
}

/// The first link over step k that fails.
fn broken_step<C: StepCost>(
    alloc: Global,
    rules: &Rules,
    cost: &C,
    prices: &Prices,
    k: usize,
    point: &CertPoint,
    next: &CertPoint,
) -> Result<Option<Refused>, AllocError>
    requires timings { AreFor rules.now prices.now }
    requires step { k < length rules.now.steps }
    requires few { k < 4001 }
    requires point { IsPoint point.now }
    requires next { IsPoint next.now }
    requires few_here { length point.now.cells ≤ 54001 }
    requires few_cells { length next.now.cells ≤ 54001 }
    ensures { IfOk result (λ broken. broken ≡ first_below (links_from (record { cost = C.cost cost.now; rules = rules.now; prices = prices.now }) k point.now next.now) (length point.now.cells)) }
{
    let cells = cells_of(alloc, next)?;
    let links = StepLinks::make(rules, cost, prices, k);
    Ok(broken_over(&links, k, point, next, cells.as_slice()))
}

/// The first link that fails, in the order of the step, the cell before it and the cell behind it.
#[tactic(auto, using(crate::proofs::PointLemmas::firsts))]
pub(crate) fn broken_link<C: StepCost>(
    alloc: Global,
    rules: &Rules,
    cost: &C,
    prices: &Prices,
    points: &[CertPoint],
) -> Result<Option<Refused>, AllocError>
    requires timings { AreFor rules.now prices.now }
    requires count { length points.now ≡ length rules.now.steps + 1 }
    requires point { All IsPoint points.now }
    requires cells { All (λ p. length p.cells ≤ 54001) points.now }
    ensures { IfOk result (λ broken. broken ≡ first_below (links_over (record { cost = C.cost cost.now; rules = rules.now; prices = prices.now }) points.now) (length rules.now.steps)) }
{
    for k in 0..rules.steps() {
        let broken = broken_step(alloc, rules, cost, prices, k, &points[k], &points[k + 1])?;
        if broken.is_some() {
            return Ok(broken);
        }
    }
    Ok(None)
}
