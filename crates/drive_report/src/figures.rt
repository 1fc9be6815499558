//! What a report says beside the drive.

/// What a bound from cells took.
#[derive(Clone, Copy)]
pub struct Counts {
    /// How many cells there are at all points.
    pub cells: u64,
    /// How many splits made them.
    pub splits: u32,
}

/// The figures of a report.
#[derive(Clone, Copy)]
pub struct Figures {
    /// What the drive costs, in 0.5 microjoule.
    pub energy: i128,
    /// What every drive on time costs at least, in 0.5 microjoule.
    pub bound: i128,
    /// Whether energy and bound differ by at most the tolerance.
    pub met: bool,
    /// What the bound took, where it comes from cells.
    pub counts: Option<Counts>,
    /// The share that the brakes give back of their work, in per mille, where the train says one: a train file of version 2.
    pub regeneration: Option<u16>,
}
