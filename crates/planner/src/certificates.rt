//! The certificate of a plan.
ghost use Rattle.std.specs.Prelude.{◌≡◌, ℕ, ◌<◌, ◌≤◌, ◌^◌, List, length, slice_index, slice_index_or, All, IfOk, IfSome};
ghost use Rattle.std.specs.Int.RustNames.{unsigned_abs};
ghost use Rattle.bound_specs.specs.Cells.{cells_of, cell_at};
ghost use Rattle.bound_specs.specs.Chains.{values_of, value_at};
ghost use Rattle.dual_certificate.specs.Contents.{no_cert_cell, no_point, point_cells, point_values};
ghost use Rattle.dual_certificate.specs.Text.{IsPoint};
ghost use Rattle.planner.specs.Certificates.{IsWhole, IsCertificateOf};

use crate::answer::Plan;
use dual_certificate::{CellList, CertCell, CertPoint, Certificate, PointList, PriceList};
use potential_table::Potentials;
use speed_cells::Cells;
use std::alloc::{AllocError, Global};

/// A list of prices.
fn price_list(alloc: Global, prices: &[u64]) -> Result<PriceList, AllocError>
    ensures { IfOk result (λ list. list ≡ prices.now) }
{
    let mut list = PriceList::new(alloc);
    for price in prices {
        list.push(*price)?;
    }
    Ok(list)
}

/// The cells of point k, with their potentials.
fn cell_list(
    alloc: Global,
    cells: &Cells,
    potentials: &Potentials,
    k: usize,
) -> Result<CellList, AllocError>
    requires point { k < length cells.now }
    requires valued { length potentials.now ≡ length cells.now }
    requires width { length (values_of potentials.now k) ≡ length (cells_of cells.now k) }
    ensures length { IfOk result (λ list. length list ≡ length (cells_of cells.now k)) }
    ensures first { IfOk result (λ list. (c : ℕ) → c < length list → (slice_index_or list c no_cert_cell).first ≡ (cell_at cells.now k c).first) }
    ensures potential { IfOk result (λ list. (c : ℕ) → c < length list → (slice_index_or list c no_cert_cell).potential ≡ value_at potentials.now k c) }
    ensures small { IfOk result (λ list. (c : ℕ) → c < length list → IfSome (slice_index_or list c no_cert_cell).potential (λ p. unsigned_abs p ≤ 2 ^ 98)) }
{
    let mut list = CellList::new(alloc);
    for c in 0..cells.of(k) {
        list.push(CertCell {
            first: cells.cell(k, c).first,
            potential: potentials.of(k, c),
        })?;
    }
    Ok(list)
}

/// Point k with the drive's speed there.
fn point_of(
    alloc: Global,
    cells: &Cells,
    potentials: &Potentials,
    k: usize,
    speed: u16,
) -> Result<CertPoint, AllocError>
    requires point { k < length cells.now }
    requires valued { length potentials.now ≡ length cells.now }
    requires width { length (values_of potentials.now k) ≡ length (cells_of cells.now k) }
    ensures speed { IfOk result (λ point. point.speed ≡ speed) }
    ensures cells { IfOk result (λ point. point_cells point ≡ cells_of cells.now k) }
    ensures values { IfOk result (λ point. point_values point ≡ values_of potentials.now k) }
    ensures in_range { IfOk result (λ point. speed ≤ 12000 → IsPoint point) }
{
    cells.known();
    let list = cell_list(alloc, cells, potentials, k)?;
    let greatest = cells.cell(k, cells.of(k) - 1).last;
    Ok(CertPoint {
        speed,
        greatest,
        cells: list,
    })
}

/// All points with the drive's speeds there.
fn point_list(
    alloc: Global,
    cells: &Cells,
    potentials: &Potentials,
    speeds: &[u16],
) -> Result<PointList, AllocError>
    requires points { length speeds.now ≡ length cells.now }
    requires valued { length potentials.now ≡ length cells.now }
    requires widths { (k : ℕ) → k < length cells.now → length (values_of potentials.now k) ≡ length (cells_of cells.now k) }
    ensures length { IfOk result (λ list. length list ≡ length cells.now) }
    ensures speed { IfOk result (λ list. (k : ℕ) → k < length list → (slice_index_or list k no_point).speed ≡ slice_index speeds.now k) }
    ensures cells { IfOk result (λ list. (k : ℕ) → k < length list → point_cells (slice_index_or list k no_point) ≡ cells_of cells.now k) }
    ensures values { IfOk result (λ list. (k : ℕ) → k < length list → point_values (slice_index_or list k no_point) ≡ values_of potentials.now k) }
    ensures in_range { IfOk result (λ list. (k : ℕ) → k < length list → slice_index speeds.now k ≤ 12000 → IsPoint (slice_index_or list k no_point)) }
{
    let mut list = PointList::new(alloc);
    for k in 0..speeds.len() {
        list.push(point_of(alloc, cells, potentials, k, speeds[k])?)?;
    }
    Ok(list)
}

/// The certificate of a plan: its drive with its energy, its bound, and the prices, cells and potentials that show the bound. Or want of
/// memory.
pub fn certificate(alloc: Global, plan: &Plan) -> Result<Certificate, AllocError>
    requires { IsWhole plan.now }
    ensures says { IfOk result (IsCertificateOf plan.now) }
    ensures in_range { IfOk result (λ c. ((k : ℕ) → slice_index plan.now.drive k ≤ 12000) → All IsPoint c.points) }
{
    let prices = price_list(alloc, plan.prices.values())?;
    let points = point_list(alloc, &plan.cells, &plan.potentials, plan.drive.speeds())?;
    Ok(Certificate {
        energy: plan.cost,
        bound: plan.bound,
        prices,
        points,
    })
}
