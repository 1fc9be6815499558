//! The judge of any list of speeds.
ghost use Rattle.std.specs.Prelude.{◌≡◌, ℕ, ◌+◌, ◌-◌, ◌*◌, ◌<◌, ◌≤◌, ◌↔◌, ◌^◌, ℤ, pos, length, slice_index, MatchResult, IfOk, IfErr, None, Some};
ghost use Rattle.std.specs.Int.RustNames.{unsigned_abs};
ghost use Rattle.rail_base.specs.First.{first_below};
ghost use Rattle.rail_specs.specs.Rules.{IsDrive, step_at};
ghost use Rattle.rail_specs.specs.Times.{arrival_up, IsOnTimeUp};
ghost use Rattle.rail_specs.specs.Cost.{cost_of};
ghost use Rattle.rail_specs.specs.Step.{work};
ghost use Rattle.drive_rules.specs.Verdict.{point_rule, step_rule, point_fault, step_fault, timing_fault, verdict, Judges, IsKept, CostsAtMost, Moves};

use crate::rules::Rules;
use rail_base::StepCost;
use rail_specs::Timing;
use step_energy::StepRow;
use step_time_bounds::time_up;

/// A rule of a drive, in the order in which rules are tried.
#[derive(Clone, Copy, PartialEq, Eq, Debug)]
pub enum Rule {
    /// There is one speed for each point.
    Length,
    /// The first speed is the start speed.
    Start,
    /// The speed at a stop after the first point is 0.
    Stop,
    /// The speed at any other point after the first is at least 1.
    Standing,
    /// Both speeds of a step are at most its limit.
    Limit,
    /// Both speeds of a step are at most the train's top speed.
    Top,
    /// The step's work is at most that of the traction at the exit speed.
    Traction,
    /// The step's work takes no more than the brakes do at the entry speed.
    Brake,
    /// The time of arrival at a timing point, step times rounded up, is at most its latest time.
    Late,
}

/// What a list of speeds is.
#[derive(Clone, Copy, PartialEq, Eq, Debug)]
pub enum Judged {
    /// A drive that is on time, with the sum of the costs of its steps' work.
    Kept { cost: i128 },
    /// No such drive: the first rule that it breaks, and where. That is 0 for the length, the point for the rules of points
    /// and for `Late`, and the step for the rules of steps.
    Broken(Rule, u32),
}

impl Rules {
    /// The rule that speed v breaks at point k.
    fn point_rule(&self, k: usize, v: u16) -> Option<Rule>
        requires { k ≤ length self.now.steps }
        ensures { result ≡ point_rule self.now k v }
    {
        if k == 0 {
            if v == self.start() {
                None
            } else {
                Some(Rule::Start)
            }
        } else if self.stop(k) == (v == 0) {
            None
        } else if v == 0 {
            Some(Rule::Standing)
        } else {
            Some(Rule::Stop)
        }
    }

    /// The first point whose rule the speeds break.
    #[tactic(auto, using(crate::proofs::VerdictLemmas::firsts))]
    #[inline(never)]
    fn broken_point(&self, speeds: &[u16]) -> Option<(Rule, u32)>
        requires { length speeds.now ≡ length self.now.steps + 1 }
        ensures { result ≡ first_below (point_fault self.now speeds.now) (length speeds.now) }
    {
        self.known();
        for k in 0..speeds.len() {
            if let Some(rule) = self.point_rule(k, speeds[k]) {
                return Some((rule, k as u32));
            }
        }
        None
    }

    /// The sum of the costs of the steps' work, or the first step whose rules the speeds break.
    #[tactic(auto, using(crate::proofs::VerdictLemmas::firsts, crate::proofs::VerdictLemmas::sums))]
    #[inline(never)]
    fn steps_cost<C: StepCost>(&self, speeds: &[u16], cost: &C) -> Result<i128, (Rule, u32)>
        requires { length speeds.now ≡ length self.now.steps + 1 }
        ensures small { IfOk result (λ total. unsigned_abs total ≤ 2 ^ 74) }
        ensures first { MatchResult result (λ total. (first_below (step_fault self.now speeds.now) (length self.now.steps) ≡ None) × (total ≡ cost_of (C.cost cost.now) self.now speeds.now)) (λ fault. first_below (step_fault self.now speeds.now) (length self.now.steps) ≡ Some fault) }
    {
        let rows = self.rows();
        let mut sum = 0;
        for i in 0..self.steps() {
            match self.step_cost(i, &rows[i], speeds[i], speeds[i + 1], cost) {
                Ok(cost) => sum += cost,
                Err(rule) => return Err((rule, i as u32)),
            }
        }
        Ok(sum)
    }

    /// The time at point `to`, given that at point `from`.
    #[tactic(auto, using(crate::proofs::VerdictLemmas::sums))]
    #[inline(never)]
    pub(crate) fn time_at(&self, speeds: &[u16], from: usize, time: u64, to: usize) -> u64
        requires count { length speeds.now ≡ length self.now.steps + 1 }
        requires moving { Moves self.now speeds.now }
        requires forward { from ≤ to }
        requires within { to ≤ length self.now.steps }
        requires known { time ≡ arrival_up self.now speeds.now from }
        requires early { time ≤ 210000000 * from }
        ensures value { result ≡ arrival_up self.now speeds.now to }
        ensures early { result ≤ 210000000 * to }
    {
        let rows = self.parts.rows.as_slice();
        let dwells = self.parts.dwells.as_slice();
        let mut sum = time;
        for i in from..to {
            sum += dwells[i] as u64 + time_up(rows[i].metres(), speeds[i], speeds[i + 1]) as u64;
        }
        sum
    }

    /// The first timing point that the speeds reach too late.
    fn broken_timing(&self, speeds: &[u16]) -> Option<(Rule, u32)>
        requires count { length speeds.now ≡ length self.now.steps + 1 }
        requires moving { Moves self.now speeds.now }
        ensures { result ≡ first_below (timing_fault self.now speeds.now) (length self.now.timings) }
    {
        let late = self.late_at(speeds)?;
        let point = self.timings()[late.timing as usize].point;
        Some((Rule::Late, point))
    }

    /// The first broken rule, or the cost.
    fn find<C: StepCost>(&self, speeds: &[u16], cost: &C) -> Judged
        ensures small { CostsAtMost (2 ^ 74) result }
        ensures first { Judges result (verdict self.now speeds.now) (cost_of (C.cost cost.now) self.now speeds.now) }
    {
        self.known();
        if speeds.len() != self.steps() + 1 {
            return Judged::Broken(Rule::Length, 0);
        }
        if let Some((rule, place)) = self.broken_point(speeds) {
            return Judged::Broken(rule, place);
        }
        match self.steps_cost(speeds, cost) {
            Err((rule, place)) => Judged::Broken(rule, place),
            Ok(cost) => match self.broken_timing(speeds) {
                Some((rule, place)) => Judged::Broken(rule, place),
                None => Judged::Kept { cost },
            },
        }
    }

    /// Whether the speeds are a drive that is on time, step times rounded up, and what it costs; else the first rule that they
    /// break: first their number, then the rules of each point in order, then those of each step, then the latest times.
    ///
    /// Any list of speeds may be judged. It takes no memory.
    pub fn judge<C: StepCost>(&self, speeds: &[u16], cost: &C) -> Judged
        ensures first { Judges result (verdict self.now speeds.now) (cost_of (C.cost cost.now) self.now speeds.now) }
        ensures kept { IsKept result ↔ (IsDrive self.now speeds.now × IsOnTimeUp self.now speeds.now) }
        ensures small { CostsAtMost (2 ^ 74) result }
    {
        self.known();
        self.find(speeds, cost)
    }

    /// The time of arrival of a drive at point k, ms from its start: the upper times of the steps before the point and the
    /// dwells at the points before it.
    pub fn arrival(&self, speeds: &[u16], k: usize) -> u64
        requires drive { IsDrive self.now speeds.now }
        requires point { k ≤ length self.now.steps }
        ensures value { result ≡ arrival_up self.now speeds.now k }
        ensures early { result ≤ 210000000 * k }
    {
        self.known();
        self.time_at(speeds, 0, 0, k)
    }

    /// The time of arrival of a drive at point `to`, ms from its start, from that at point `from`, which isn't behind it: the steps
    /// between them alone are looked at.
    pub fn arrival_from(&self, speeds: &[u16], from: usize, time: u64, to: usize) -> u64
        requires drive { IsDrive self.now speeds.now }
        requires forward { from ≤ to }
        requires point { to ≤ length self.now.steps }
        requires known { time ≡ arrival_up self.now speeds.now from }
        requires early { time ≤ 210000000 * from }
        ensures value { result ≡ arrival_up self.now speeds.now to }
        ensures early { result ≤ 210000000 * to }
    {
        self.known();
        self.time_at(speeds, from, time, to)
    }
}
