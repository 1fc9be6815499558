//! What the lines of a route say.

use rail_specs::TrainNumbers;
use step_energy::StepRow;

/// What a route says before its steps.
#[derive(Clone, Copy)]
pub(crate) struct Heading {
    pub train: TrainNumbers,
    /// The top speed, cm/s.
    pub top: u16,
    /// The traction force at every speed, N.
    pub traction: u32,
    /// The brake force at every speed, N.
    pub brake: u32,
    /// The latest time at the last point, s.
    pub latest: u32,
}

/// A step, as its line says it of the route's train.
#[derive(Clone, Copy)]
pub(crate) struct StepLine {
    pub row: StepRow,
    /// The speed limit, cm/s.
    pub limit: u16,
}

/// What a line behind the heading says.
#[derive(Clone, Copy)]
pub(crate) enum Entry {
    Step(StepLine),
    End,
}

/// The steps that were read: per step its row and its limit, per point its place.
#[derive(Drop)]
pub(crate) struct StepLists {
    pub rows: Vec<StepRow>,
    pub limits: Vec<u16>,
    pub places: Vec<u32>,
    /// The place of the last point.
    pub end: u32,
}
