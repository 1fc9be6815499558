//! What the rules say of one step.
ghost use Rattle.std.specs.Prelude.{◌≡◌, ℕ, ◌+◌, ◌*◌, ◌<◌, ◌≤◌, ◌↔◌, ◌^◌, ℤ, pos, neg_ℤ, ◌≤ℤ◌, length, slice_index, IsTrue, IfOk, IfErr, None, Some};
ghost use Rattle.std.specs.Int.RustNames.{unsigned_abs};
ghost use Rattle.rail_specs.specs.Rules.{IsStepKept, step_at, traction_work, brake_work};
ghost use Rattle.rail_specs.specs.Step.{work as work_of};
ghost use Rattle.drive_rules.specs.Verdict.{force_rule, step_rule};

use crate::judge::Rule;
use crate::rules::Rules;
use force_table::SpeedTable;
use rail_base::{StepCost, Traction};
use step_energy::StepRow;

impl Rules {
    /// The most work that the traction does over step i, at the force of the exit speed v1, in 0.5 microjoule.
    pub fn traction_work(&self, i: usize, v1: u16) -> i128
        requires step { i < length self.now.steps }
        requires speed { v1 ≤ self.now.top }
        ensures { result ≡ pos (traction_work self.now i v1) }
    {
        self.parts.rows[i].force_work(self.parts.traction.at(v1)) as i128
    }

    /// The most work that the brakes take over step i, at the force of the entry speed v0, in 0.5 microjoule.
    pub fn brake_work(&self, i: usize, v0: u16) -> i128
        requires step { i < length self.now.steps }
        requires speed { v0 ≤ self.now.top }
        ensures value { result ≡ pos (brake_work self.now i v0) }
        ensures small { result ≤ℤ pos (2 ^ 62) }
    {
        self.parts.rows[i].force_work(self.parts.brake.at(v0)) as i128
    }

    /// The cost of step i's work from v0 to v1, or the first of its rules that these speeds break. `row` is the step's row.
    ///
    /// The rules stand in one list, `step_tests`. They are coded by hand in its order, since each step of each list of speeds comes
    /// here: both speeds take one comparison with the limit and one with the top, and the work is computed once.
    pub(crate) fn step_cost<C: StepCost>(
        &self,
        i: usize,
        row: &StepRow,
        v0: u16,
        v1: u16,
        cost: &C,
    ) -> Result<i128, Rule>
        requires step { i < length self.now.steps }
        requires row { row.now ≡ step_at self.now i }
        ensures kept { IfOk result (λ c. (step_rule self.now i v0 v1 ≡ None) × (c ≡ C.cost cost.now (work_of (step_at self.now i) v0 v1)) × (unsigned_abs c ≤ 2 ^ 62)) }
        ensures broken { IfErr result (λ rule. step_rule self.now i v0 v1 ≡ Some rule) }
    {
        let fastest = v0.max(v1);
        if fastest > self.parts.limits[i] {
            return Err(Rule::Limit);
        }
        if fastest > self.parts.top {
            return Err(Rule::Top);
        }
        self.force_cost(i, row, v0, v1, row.short_work(v0, v1), cost)
    }

    /// The cost of step i's work, or the first rule on forces that it breaks from v0 to v1.
    ///
    /// Of the two tests in `force_tests` one is made: only positive work asks for traction, and only negative work for brakes. Each arm
    /// knows the sign of its work, so that the cost of traction takes no second test.
    fn force_cost<C: StepCost>(
        &self,
        i: usize,
        row: &StepRow,
        v0: u16,
        v1: u16,
        work: i64,
        cost: &C,
    ) -> Result<i128, Rule>
        requires step { i < length self.now.steps }
        requires row { row.now ≡ step_at self.now i }
        requires entry { v0 ≤ self.now.top }
        requires exit { v1 ≤ self.now.top }
        requires known { work ≡ work_of (step_at self.now i) v0 v1 }
        requires small { unsigned_abs work < 2 ^ 62 }
        ensures kept { IfOk result (λ c. (force_rule self.now i v0 v1 ≡ None) × (c ≡ C.cost cost.now work) × (unsigned_abs c ≤ 2 ^ 62)) }
        ensures broken { IfErr result (λ rule. force_rule self.now i v0 v1 ≡ Some rule) }
    {
        if work > 0 {
            if !row.is_pulled(work, self.parts.traction.at(v1)) {
                return Err(Rule::Traction);
            }
            Ok(cost_of_work(work, cost))
        } else {
            if !row.is_held(work, self.parts.brake.at(v0)) {
                return Err(Rule::Brake);
            }
            Ok(cost_of_work(work, cost))
        }
    }

    /// Whether step i from v0 to v1 is within the limit, the top speed and the forces.
    pub fn step_kept(&self, i: usize, v0: u16, v1: u16) -> bool
        requires { i < length self.now.steps }
        ensures { IsTrue result ↔ IsStepKept self.now i v0 v1 }
    {
        self.step_cost(i, self.row(i), v0, v1, &Traction).is_ok()
    }

    /// Whether the traction takes the train over step i from v0 to v1, whatever the limit. Searches for speeds ask for this rule alone.
    pub fn traction_reaches(&self, i: usize, v0: u16, v1: u16) -> bool
        requires step { i < length self.now.steps }
        requires entry { v0 ≤ self.now.top }
        requires exit { v1 ≤ self.now.top }
        ensures { IsTrue result ↔ (work_of (step_at self.now i) v0 v1 ≤ℤ pos (traction_work self.now i v1)) }
    {
        let row = &self.parts.rows[i];
        row.is_pulled(row.short_work(v0, v1), self.parts.traction.at(v1))
    }

    /// Whether the brakes hold the train over step i from v0 to v1, whatever the limit. Searches for speeds ask for this rule alone.
    pub fn brakes_hold(&self, i: usize, v0: u16, v1: u16) -> bool
        requires step { i < length self.now.steps }
        requires entry { v0 ≤ self.now.top }
        requires exit { v1 ≤ self.now.top }
        ensures { IsTrue result ↔ (neg_ℤ (pos (brake_work self.now i v0)) ≤ℤ work_of (step_at self.now i) v0 v1) }
    {
        let row = &self.parts.rows[i];
        row.is_held(row.short_work(v0, v1), self.parts.brake.at(v0))
    }

    /// Whether step i from v0 to v1 needs no traction: its work is at most 0.
    pub fn step_idle(&self, i: usize, v0: u16, v1: u16) -> bool
        requires step { i < length self.now.steps }
        requires entry { v0 ≤ 12000 }
        requires exit { v1 ≤ 12000 }
        ensures { IsTrue result ↔ (work_of (step_at self.now i) v0 v1 ≤ℤ pos 0) }
    {
        self.parts.rows[i].short_work(v0, v1) <= 0
    }
}

/// The cost of work that was computed in 64 bits.
fn cost_of_work<C: StepCost>(work: i64, cost: &C) -> i128
    requires { unsigned_abs work < 2 ^ 62 }
    ensures value { result ≡ C.cost cost.now work }
    ensures small { unsigned_abs result ≤ 2 ^ 62 }
{
    cost.of(work as i128)
}
