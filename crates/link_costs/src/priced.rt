//! The costs of a run's steps, with their times priced.
ghost use Rattle.std.specs.Prelude.{◌≡◌, ℕ, ◌+◌, ◌*◌, ◌^◌, ◌<◌, ◌≤◌, ◌↔◌, ◌+ℤ◌, pos, length, IfSome, IfNone, IsTrue, IsFalse};
ghost use Rattle.std.specs.Int.RustNames.{unsigned_abs};
ghost use Rattle.bound_specs.specs.Prices.{AreFor, step_price};
ghost use Rattle.bound_specs.specs.Cells.{single, IsCell};
ghost use Rattle.rail_specs.specs.Rules.{step_at, IsStepKept};
ghost use Rattle.rail_specs.specs.Step.{work as work_of, lower_time};
ghost use Rattle.bound_specs.specs.Links.{can_drive, can_link};
ghost use Rattle.link_costs.specs.Soundness.{IsPricing, pricing_of};

use crate::links::link_work;
use crate::sums::sum;
use drive_rules::Rules;
use rail_base::{Cell, CellCost, StepCost};
use std::marker::Model;
use step_time_bounds::time_down;
use time_multipliers::Prices;

/// The costs of a run's steps, with their times priced: a step costs its work, and its time, rounded down, at the step's price.
///
/// A link costs at least the work from the fastest speed of its first cell to the slowest of its second, and the time of the fastest
/// speeds of both. It borrows the rules, the cost of work and the prices, and takes no memory. Contracts see all three.
#[derive(Drop)]
pub struct Priced<'a, C: StepCost> {
    rules: &'a Rules,
    cost: &'a C,
    prices: &'a Prices,
}

impl<'a, C: StepCost> Model for Priced<'a, C> {
    ghost use Rattle.link_costs.specs.Soundness.{PricedSteps, IsPricing};

    ghost Value = { PricedSteps C };

    ghost view = { λ p. record { rules = p.rules.now; cost = p.cost.now; prices = p.prices.now } };

    ghost invariant = { λ p. IsPricing (record { cost = C.cost p.cost.now; rules = p.rules.now; prices = p.prices.now }) };
}

impl<'a, C: StepCost> Priced<'a, C> {
    /// The costs of these rules' steps, with prices for the rules' timing points.
    pub fn make(rules: &'a Rules, cost: &'a C, prices: &'a Prices) -> Priced<'a, C>
        requires { AreFor rules.now prices.now }
        ensures { result ≡ record { rules = rules.now; cost = cost.now; prices = prices.now } }
    {
        rules.known();
        prices.known();
        Priced {
            rules,
            cost,
            prices,
        }
    }

    /// What holds of the costs of every run, and when a step can be driven: where it takes time and is kept.
    pub fn known(&self)
        ensures sound { IsPricing (pricing_of C.cost self.now) }
        ensures driven { (i v0 v1 : ℕ) → IsTrue (can_drive self.now.rules i v0 v1) ↔ ((1 ≤ v0 + v1) × IsStepKept self.now.rules i v0 v1) }
    {
        let _ = &self.rules;
    }

    /// The work of step i from v0 to v1, or none where it can't be driven.
    fn driven_work(&self, i: usize, v0: u16, v1: u16) -> Option<i64>
        requires step { i < length self.now.rules.steps }
        requires entry { v0 ≤ 12000 }
        requires exit { v1 ≤ 12000 }
        ensures possible { IfSome result (λ w. IsTrue (can_drive self.now.rules i v0 v1) × (w ≡ work_of (step_at self.now.rules i) v0 v1) × (unsigned_abs w < 2 ^ 62)) }
        ensures impossible { IfNone result (IsFalse (can_drive self.now.rules i v0 v1)) }
    {
        self.work(i, single(v0), single(v1))
    }

    /// The price of a ms of step i.
    fn price(&self, i: usize) -> u64
        ensures value { result ≡ step_price self.now.prices i }
        ensures small { result ≤ 2 ^ 56 }
    {
        self.prices.step_price(i)
    }

    /// The length of step i, m.
    fn metres(&self, i: usize) -> u16
        requires { i < length self.now.rules.steps }
        ensures value { result ≡ (step_at self.now.rules i).metres }
        ensures few { result ≤ 1000 }
    {
        self.rules.row(i).metres()
    }

    /// The cost of work, and of the time of a step of so many metres from v0 to v1 at a price.
    fn charged(&self, price: u64, metres: u16, v0: u16, v1: u16, work: i64) -> i128
        requires price { price ≤ 2 ^ 56 }
        requires metres { metres ≤ 1000 }
        requires moving { 1 ≤ v0 + v1 }
        requires small { unsigned_abs work < 2 ^ 62 }
        ensures value { result ≡ C.cost self.now.cost work +ℤ pos (price * lower_time metres v0 v1) }
        ensures small { unsigned_abs result ≤ 2 ^ 86 }
    {
        sum(
            cost_of_work(self.cost, work),
            time_cost(price, time_down(metres, v0, v1)),
        )
    }

    /// The work from the fastest speed of cell a to the slowest of cell b over step i, or none where the link isn't possible.
    fn work(&self, i: usize, a: Cell, b: Cell) -> Option<i64>
        requires step { i < length self.now.rules.steps }
        requires entry { IsCell a }
        requires exit { IsCell b }
        ensures possible { IfSome result (λ w. IsTrue (can_link self.now.rules i a b) × (w ≡ work_of (step_at self.now.rules i) a.last b.first) × (unsigned_abs w < 2 ^ 62)) }
        ensures impossible { IfNone result (IsFalse (can_link self.now.rules i a b)) }
    {
        link_work(self.rules, i, a, b)
    }
}

/// The cost of work.
fn cost_of_work<C: StepCost>(cost: &C, work: i64) -> i128
    requires { unsigned_abs work < 2 ^ 62 }
    ensures value { result ≡ C.cost cost.now work }
    ensures small { unsigned_abs result ≤ 2 ^ 62 }
{
    cost.of(work as i128)
}

/// A time at a price.
fn time_cost(price: u64, time: u32) -> i128
    requires price { price ≤ 2 ^ 56 }
    requires time { time ≤ 200000000 }
    ensures value { result ≡ pos (price * time) }
    ensures small { unsigned_abs result ≤ 2 ^ 84 }
{
    (price as u128 * time as u128) as i128
}

impl<'a, C: StepCost> CellCost for Priced<'a, C> {
    ghost use Rattle.std.specs.Prelude.{length};
    ghost use Rattle.bound_specs.specs.Links.{priced_cost, low_cost};
    ghost use Rattle.link_costs.specs.Soundness.{IsPricing, pricing_of};
    ghost use Rattle.link_costs.specs.PricedLaws.{priced_costs};

    ghost step_count = { λ p. length p.rules.steps };

    ghost real_cost = { λ p. priced_cost (pricing_of C.cost p) };

    ghost low_cost = { λ p. low_cost (pricing_of C.cost p) };

    ghost is_sound = { λ p. IsPricing (pricing_of C.cost p) };

    fn steps(&self) -> usize {
        self.rules.steps()
    }

    fn real(&self, i: usize, v0: u16, v1: u16) -> Option<i128> {
        let metres = self.metres(i);
        let work = self.driven_work(i, v0, v1)?;
        let price = self.price(i);
        Some(self.charged(price, metres, v0, v1, work))
    }

    fn low(&self, i: usize, a: Cell, b: Cell) -> Option<i128> {
        // read before the first test, so that a loop over cells can keep it at hand
        let metres = self.metres(i);
        let work = self.work(i, a, b)?;
        let price = self.price(i);
        Some(self.charged(price, metres, a.last, b.last, work))
    }

    ghost keeps = { λ p. priced_costs (pricing_of C.cost p) };
}

/// The cell of one speed.
fn single(v: u16) -> Cell
    ensures { result ≡ single v }
{
    Cell { first: v, last: v }
}
