//! The rules of a run: its steps, points and latest times, and what its train can do.
ghost use Rattle.std.specs.Prelude.{◌≡◌, ℕ, ◌+◌, ◌*◌, ◌<◌, ◌≤◌, length, slice_index, IfOk, All};
ghost use Rattle.std.specs.Int.RustNames.{unsigned_abs};
ghost use Rattle.rail_specs.specs.Rules.{IsDrive, is_stop, step_at};
ghost use Rattle.rail_specs.specs.Times.{slack_of, standing_before};
ghost use Rattle.rule_parts.specs.Shaped.{Rises, rules_of, IsShaped};

use force_table::ForceTable;
use rail_specs::Timing;
use rule_parts::Parts;
use std::alloc::{AllocError, Global};
use std::marker::Model;
use step_energy::StepRow;

/// The rules of a run over `n` steps and their `n + 1` points, whatever they were read from.
///
/// Contracts see them as the plain data of a run, of which `known` tells what always holds.
#[derive(Drop)]
pub struct Rules {
    pub(crate) parts: Parts,
}

impl Model for Rules {
    ghost use Rattle.rail_specs.specs.Rules.{Rules as RuleData};

    ghost Value = { RuleData };

    ghost use Rattle.rule_parts.specs.Shaped.{rules_of, IsShaped};

    ghost view = { λ r. rules_of r.parts };

    ghost invariant = { λ r. IsShaped (rules_of r.parts) };
}

impl Rules {
    /// The rules with these parts.
    pub(crate) fn from_parts(parts: Parts) -> Rules
        requires { IsShaped (rules_of parts) }
        ensures { result ≡ rules_of parts }
    {
        Rules { parts }
    }

    /// Equal rules of their own.
    pub fn copy(&self, alloc: Global) -> Result<Rules, AllocError>
        ensures { IfOk result (λ rules. rules ≡ self.now) }
    {
        let parts = self.parts.copy(alloc)?;
        Ok(Rules { parts })
    }

    /// What holds of the rules of every run.
    pub fn known(&self)
        ensures { IsShaped self.now }
    {
        self.parts.rows.len();
    }

    /// What holds of every drive: its speeds are at most the top, and no step begins and ends at a standstill.
    pub fn known_drive(&self, speeds: &[u16])
        requires { IsDrive self.now speeds.now }
        ensures top { (k : ℕ) → slice_index speeds.now k ≤ self.now.top }
        ensures slow { (k : ℕ) → slice_index speeds.now k ≤ 12000 }
        ensures moves { (i : ℕ) → i < length self.now.steps → 1 ≤ slice_index speeds.now i + slice_index speeds.now (i + 1) }
    {
        speeds.len();
        self.known();
    }

    /// The number of steps, 1 to 4,000.
    pub fn steps(&self) -> usize
        ensures value { result ≡ length self.now.steps }
        ensures some { 1 ≤ result }
        ensures few { result ≤ 4000 }
    {
        self.parts.rows.len()
    }

    /// The number of points: one more than the steps.
    pub fn points(&self) -> usize
        ensures value { result ≡ length self.now.steps + 1 }
        ensures few { result ≤ 4001 }
    {
        self.parts.rows.len() + 1
    }

    /// The place of point k, m.
    pub fn place(&self, k: usize) -> u32
        requires { k ≤ length self.now.steps }
        ensures value { result ≡ slice_index self.now.places k }
        ensures far { result ≤ 4000000 }
    {
        self.parts.places[k]
    }

    /// The speed limit of step i, cm/s.
    pub fn limit(&self, i: usize) -> u16
        requires { i < length self.now.steps }
        ensures { result ≡ slice_index self.now.limits i }
    {
        self.parts.limits[i]
    }

    /// The row of step i.
    pub fn row(&self, i: usize) -> &StepRow
        requires { i < length self.now.steps }
        ensures { result.now ≡ step_at self.now i }
    {
        &self.parts.rows[i]
    }

    /// The rows of the steps.
    pub(crate) fn rows(&self) -> &[StepRow]
        ensures { result.now ≡ self.now.steps }
    {
        self.parts.rows.as_slice()
    }

    /// Whether the train stops at point k.
    pub fn stop(&self, k: usize) -> bool
        requires { k ≤ length self.now.steps }
        ensures { result ≡ is_stop self.now k }
    {
        self.parts.stops[k]
    }

    /// How long the train stands at point k, ms.
    pub fn dwell(&self, k: usize) -> u32
        requires { k ≤ length self.now.steps }
        ensures value { result ≡ slice_index self.now.dwells k }
        ensures small { result ≤ 7200000 }
    {
        self.parts.dwells[k]
    }

    /// The speed at the first point, cm/s.
    pub fn start(&self) -> u16
        ensures { result ≡ self.now.start }
    {
        self.parts.start
    }

    /// The train's top speed, cm/s.
    pub fn top(&self) -> u16
        ensures value { result ≡ self.now.top }
        ensures small { result ≤ 12000 }
    {
        self.parts.top
    }

    /// The greatest traction force at each speed up to the top.
    pub fn traction(&self) -> &ForceTable
        ensures value { result.now ≡ self.now.traction }
        ensures top { length result.now ≡ self.now.top + 1 }
    {
        &self.parts.traction
    }

    /// The greatest brake force at each speed up to the top.
    pub fn brake(&self) -> &ForceTable
        ensures value { result.now ≡ self.now.brake }
        ensures top { length result.now ≡ self.now.top + 1 }
    {
        &self.parts.brake
    }

    /// How long the train is, m, at most 1,000; 0 on a route. Each limit holds until the train's tail has left the limit's section.
    pub fn length(&self) -> u32
        ensures value { result ≡ self.now.train_length }
        ensures small { result ≤ 1000 }
    {
        self.parts.train_length
    }

    /// The points with a latest time, in order. The last point is the last of them.
    pub fn timings(&self) -> &[Timing]
        ensures value { result.now ≡ self.now.timings }
        ensures rising { Rises result.now }
        ensures within { All (λ t. (1 ≤ t.point) × (t.point ≤ length self.now.steps) × (unsigned_abs t.latest ≤ 172800000)) result.now }
    {
        self.parts.timings.as_slice()
    }

    /// What is left of the latest time of timing point k for driving, ms: the latest time minus the dwells before the point.
    pub fn slack(&self, k: usize) -> i64
        requires { k < length self.now.timings }
        ensures value { result ≡ slack_of self.now k }
        ensures small { unsigned_abs result ≤ 28972800000 }
    {
        let timing = self.parts.timings[k];
        timing.latest - self.standing(timing.point as usize) as i64
    }

    /// How long the train stands at the points before point k, ms.
    #[tactic(auto, using(crate::proofs::VerdictLemmas::sums))]
    fn standing(&self, k: usize) -> u64
        requires { k ≤ length self.now.steps }
        ensures value { result ≡ standing_before self.now k }
        ensures small { result ≤ 7200000 * k }
    {
        self.known();
        let mut sum = 0;
        for i in 0..k {
            sum += self.dwell(i) as u64;
        }
        sum
    }
}
