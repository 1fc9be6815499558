//! Certificates of a bound.

ghost use Rattle.std.specs.Prelude.{◌≡◌, IfOk};
ghost use Rattle.dual_certificate.specs.Contents.{speeds_of};
ghost use Rattle.dual_certificate.specs.Text.{IsCertificate, cells_in};

use rail_base::ItemList;
use std::alloc::{AllocError, Global};

/// A cell of a point: an interval of speeds, which ends below the next cell's first speed, or at the point's greatest speed.
#[derive(Clone, Copy, PartialEq, Eq, Debug)]
pub struct CertCell {
    /// The least speed of the cell, cm/s.
    pub first: u16,
    /// What every way from the cell to the last point costs at least, with its time priced, in 0.5 microjoule; `None` where there is no
    /// way.
    pub potential: Option<i128>,
}

/// The cells of a point, in the order of their speeds.
pub type CellList = ItemList<CertCell>;

/// A point of the run.
#[derive(Drop)]
pub struct CertPoint {
    /// The drive's speed there, cm/s.
    pub speed: u16,
    /// The greatest speed of the last cell, cm/s.
    pub greatest: u16,
    /// The cells, at least one.
    pub cells: CellList,
}

/// A price for each timing point, in their order: what a ms before it costs, in 0.5 microjoule.
pub type PriceList = ItemList<u64>;

/// The points in the order of their places.
pub type PointList = ItemList<CertPoint>;

/// A drive with its energy, a bound of what every drive on time costs, and what shows the bound: prices of time, cells of speeds and their
/// potentials.
#[derive(Drop)]
pub struct Certificate {
    /// What the drive costs, in 0.5 microjoule.
    pub energy: i128,
    /// What every drive on time costs at least, in 0.5 microjoule.
    pub bound: i128,
    /// The prices, one for each timing point.
    pub prices: PriceList,
    /// The points, one more than the steps.
    pub points: PointList,
}

impl Certificate {
    /// The drive's speeds, cm/s, one for each point.
    pub fn speeds(&self, alloc: Global) -> Result<Vec<u16>, AllocError>
        ensures { IfOk result (λ speeds. speeds.items ≡ speeds_of self.now) }
    {
        let mut speeds = Vec::new(alloc);
        for point in self.points.items() {
            speeds.push(point.speed)?;
        }
        Ok(speeds)
    }

    /// How many cells there are at all points.
    pub fn cell_count(&self) -> usize
        requires { IsCertificate self.now }
        ensures { result ≡ cells_in self.now.points }
    {
        let points = self.points.items();
        let mut count = 0;
        for point in points {
            count += point.cells.items().len();
        }
        count
    }
}
