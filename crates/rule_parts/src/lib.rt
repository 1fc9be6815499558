//! What the rules of a run are made of: plain lists, which those that make rules gather.
#![tactic(auto)]

ghost use Rattle.std.specs.Prelude.{◌≡◌, IfOk};
ghost use Rattle.rule_parts.specs.Shaped.{rules_of};

use force_table::ForceTable;
use rail_specs::Timing;
use std::alloc::{AllocError, Global};
use step_energy::StepRow;

/// The parts of a run's rules over `n` steps and their `n + 1` points, as those that make rules gather them.
///
/// `rules_of` says which rules they stand for. Whoever makes parts says of them that these are shaped as those of every run.
#[derive(Drop)]
pub struct Parts {
    /// The speed at the first point, cm/s.
    pub start: u16,
    /// The train's top speed, cm/s.
    pub top: u16,
    /// The greatest traction force by speed.
    pub traction: ForceTable,
    /// The greatest brake force by speed.
    pub brake: ForceTable,
    /// How long the train is, m, at most 1,000.
    pub train_length: u32,
    /// Per step: its row.
    pub rows: Vec<StepRow>,
    /// Per step: its speed limit, cm/s.
    pub limits: Vec<u16>,
    /// Per point: its place, m.
    pub places: Vec<u32>,
    /// Per point: whether the train stops there.
    pub stops: Vec<bool>,
    /// Per point: how long the train stands there, ms. It is 0 at the first point.
    pub dwells: Vec<u32>,
    /// The points with a latest time, in order. The last point is the last of them.
    pub timings: Vec<Timing>,
}

impl Parts {
    /// Equal parts of their own. It fails only where the memory runs out.
    pub fn copy(&self, alloc: Global) -> Result<Parts, AllocError>
        ensures { IfOk result (λ parts. rules_of parts ≡ rules_of self.now) }
    {
        Ok(Parts {
            start: self.start,
            top: self.top,
            traction: self.traction.copy(alloc)?,
            brake: self.brake.copy(alloc)?,
            train_length: self.train_length,
            rows: Vec::from_slice(alloc, &self.rows)?,
            limits: Vec::from_slice(alloc, &self.limits)?,
            places: Vec::from_slice(alloc, &self.places)?,
            stops: Vec::from_slice(alloc, &self.stops)?,
            dwells: Vec::from_slice(alloc, &self.dwells)?,
            timings: Vec::from_slice(alloc, &self.timings)?,
        })
    }
}
