//! Certificates of a bound by costates.

use dual_certificate::PriceList;
use rail_base::ItemList;

/// The drive's speeds, one for each point in the order of their places, cm/s.
pub type SpeedList = ItemList<u16>;

/// A costate for each step, from -2^22 to 2^22.
pub type CostateList = ItemList<i32>;

/// A drive with its energy, a bound of what every drive on time costs, and what shows the bound: prices of time and costates of steps.
#[derive(Drop)]
pub struct CostateCertificate {
    /// What the drive costs, in 0.5 microjoule.
    pub energy: i128,
    /// What every drive on time costs at least, in 0.5 microjoule.
    pub bound: i128,
    /// The prices, one for each timing point.
    pub prices: PriceList,
    /// The drive's speeds, one for each point.
    pub speeds: SpeedList,
    /// The costates, one for each step: one fewer than the points.
    pub costates: CostateList,
}
