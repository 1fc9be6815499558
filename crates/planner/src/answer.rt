//! What a plan is asked, and what it answers.

use drive_rules::Drive;
use potential_table::Potentials;
use speed_cells::Cells;
use time_multipliers::Prices;

/// How much work a plan may take, and when its gap counts as met.
#[derive(Clone, Copy)]
pub struct Options {
    /// How many cells may be split, at most 50,000.
    pub splits: u32,
    /// The tolerance of the gap, per mille of the energy's size, at most 1,000.
    pub tolerance: u32,
}

/// A drive on time, and a bound that shows how much any drive on time could save.
#[derive(Drop)]
pub struct Plan {
    /// The drive, which is on time: a speed for each point, cm/s.
    pub drive: Drive,
    /// What the drive costs, in 0.5 microjoule.
    pub cost: i128,
    /// What every drive on time costs at least, in 0.5 microjoule.
    pub bound: i128,
    /// What each timing point charges for a ms before it, in 0.5 microjoule.
    pub prices: Prices,
    /// The cells of each point.
    pub cells: Cells,
    /// What the least chain from each cell costs at these prices.
    pub potentials: Potentials,
    /// How many cells were split.
    pub splits: u32,
    /// Whether cost and bound differ by at most the tolerance.
    pub met: bool,
}

/// The answer to the rules of a run.
#[derive(Drop)]
pub enum Answer {
    /// There is no drive.
    NoDrive,
    /// There is a drive, and none is on time.
    Late {
        /// The index, in `Rules::timings`, of the first timing point that the greatest drive misses.
        timing: u32,
        /// The greatest drive's arrival there, ms from the start, each step's time rounded up.
        arrival: u64,
    },
    /// A plan.
    Drive(Plan),
}
