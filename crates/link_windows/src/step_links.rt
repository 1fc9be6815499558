//! The links over one step.
ghost use Rattle.std.specs.Prelude.{◌≡◌, ℕ, ◌*◌, ◌^◌, ◌<◌, ◌≤◌, ◌+◌, ◌+ℤ◌, pos, Some, length, slice_index_or, IsTrue, IsFalse};
ghost use Rattle.std.specs.Int.RustNames.{unsigned_abs};
ghost use Rattle.bound_specs.specs.Cells.{no_cell, IsCell};
ghost use Rattle.bound_specs.specs.Links.{can_link, low_cost};
ghost use Rattle.bound_specs.specs.Prices.{AreFor, step_price};
ghost use Rattle.rail_specs.specs.Rules.{step_at};
ghost use Rattle.rail_specs.specs.Step.{work as work_of, lower_time};
ghost use Rattle.link_costs.specs.Soundness.{IsPricing, pricing_of};
ghost use Rattle.link_windows.specs.Windows.{AreRising, IsWindow, can_begin, is_held, is_reached};

use drive_rules::Rules;
use force_table::SpeedTable;
use link_costs::sum;
use rail_base::{Cell, StepCost};
use std::marker::Model;
use step_energy::StepRow;
use step_time_bounds::time_down;
use time_multipliers::Prices;

/// Places in a list of cells: from the first up to but not including the other.
#[derive(Clone, Copy, PartialEq, Eq, Debug)]
pub struct Window {
    /// The first place.
    pub from: usize,
    /// The place behind the last one.
    pub to: usize,
}

/// The links over one step of a run, with its time priced.
///
/// It borrows the rules, the cost of work and the prices, and keeps at hand what they say of the step. Contracts see all three, and the
/// step.
#[derive(Drop)]
pub struct StepLinks<'a, C: StepCost> {
    rules: &'a Rules,
    cost: &'a C,
    prices: &'a Prices,
    step: usize,
    row: StepRow,
    /// The greatest speed that the step's limit and the top allow, cm/s.
    most: u16,
    /// The price of a ms of the step.
    price: u64,
}

impl<'a, C: StepCost> Model for StepLinks<'a, C> {
    ghost use Rattle.link_windows.specs.Windows.{StepOf, IsStep};

    ghost Value = { StepOf C };

    ghost view = { λ p. record { priced = record { rules = p.rules.now; cost = p.cost.now; prices = p.prices.now }; step = p.step } };

    ghost invariant = { λ p. IsStep (record { cost = C.cost p.cost.now; rules = p.rules.now; prices = p.prices.now }) p.step p.row p.most p.price };
}

impl<'a, C: StepCost> StepLinks<'a, C> {
    /// The links over step i of these rules, with prices for the rules' timing points. It takes no memory.
    pub fn make(rules: &'a Rules, cost: &'a C, prices: &'a Prices, step: usize) -> StepLinks<'a, C>
        requires timings { AreFor rules.now prices.now }
        requires step { step < length rules.now.steps }
        ensures { result ≡ record { priced = record { rules = rules.now; cost = cost.now; prices = prices.now }; step = step } }
    {
        rules.known();
        prices.known();
        StepLinks {
            rules,
            cost,
            prices,
            step,
            row: *rules.row(step),
            most: rules.limit(step).min(rules.top()),
            price: prices.step_price(step),
        }
    }

    /// What holds of the links of every step.
    pub fn known(&self)
        ensures sound { IsPricing (pricing_of C.cost self.now.priced) }
        ensures step { self.now.step < length self.now.priced.rules.steps }
    {
        let _ = &self.rules;
    }

    /// Whether the slowest speed of cell a is within the limit and the top.
    fn is_begun(&self, a: Cell) -> bool
        ensures { result ≡ can_begin self.now.priced.rules self.now.step a }
    {
        a.first <= self.most
    }

    /// Whether traction takes the fastest speed of cell a to the slowest of cell b, which is within the limit and the top.
    fn is_reached(&self, a: Cell, b: Cell) -> bool
        requires entry { IsCell a }
        requires exit { IsCell b }
        ensures { result ≡ is_reached self.now.priced.rules self.now.step a b }
    {
        if b.first > self.most {
            return false;
        }
        let work = self.row.short_work(a.last, b.first);
        self.row.is_pulled(work, self.rules.traction().at(b.first))
    }

    /// Whether the brakes hold the slowest speed of cell a to the fastest of cell b, and their fastest speeds move.
    fn is_held(&self, a: Cell, b: Cell) -> bool
        requires entry { IsCell a }
        requires begun { a.first ≤ self.now.priced.rules.top }
        requires exit { IsCell b }
        ensures { result ≡ is_held self.now.priced.rules self.now.step a b }
    {
        if a.last as u32 + b.last as u32 == 0 {
            return false;
        }
        let work = self.row.short_work(a.first, b.last);
        self.row.is_held(work, self.rules.brake().at(a.first))
    }

    /// The place from which on the cells are held.
    fn first_held(&self, a: Cell, cells: &[Cell]) -> usize
        requires entry { IsCell a }
        requires begun { a.first ≤ self.now.priced.rules.top }
        requires rising { AreRising cells.now }
        ensures within { result ≤ length cells.now }
        ensures before { (b : ℕ) → b < result → IsFalse (is_held self.now.priced.rules self.now.step a (slice_index_or cells.now b no_cell)) }
        ensures behind { (b : ℕ) → result ≤ b → b < length cells.now → IsTrue (is_held self.now.priced.rules self.now.step a (slice_index_or cells.now b no_cell)) }
    {
        let mut low = 0;
        let mut high = cells.len();
        while low < high {
            let middle = low + (high - low) / 2;
            if self.is_held(a, cells[middle]) {
                high = middle;
            } else {
                low = middle + 1;
            }
        }
        low
    }

    /// The place up to which the cells are reached.
    fn first_beyond(&self, a: Cell, cells: &[Cell]) -> usize
        requires entry { IsCell a }
        requires rising { AreRising cells.now }
        ensures within { result ≤ length cells.now }
        ensures before { (b : ℕ) → b < result → IsTrue (is_reached self.now.priced.rules self.now.step a (slice_index_or cells.now b no_cell)) }
        ensures behind { (b : ℕ) → result ≤ b → b < length cells.now → IsFalse (is_reached self.now.priced.rules self.now.step a (slice_index_or cells.now b no_cell)) }
    {
        self.known();
        let mut low = 0;
        let mut high = cells.len();
        while low < high {
            let middle = low + (high - low) / 2;
            if self.is_reached(a, cells[middle]) {
                low = middle + 1;
            } else {
                high = middle;
            }
        }
        low
    }

    /// The places of those cells of the next point, which rise, to which a link from cell a is possible: just these. It takes no memory.
    pub fn window(&self, a: Cell, cells: &[Cell]) -> Window
        requires entry { IsCell a }
        requires rising { AreRising cells.now }
        ensures { IsWindow (can_link self.now.priced.rules self.now.step a) cells.now result.from result.to }
    {
        if !self.is_begun(a) {
            return Window { from: 0, to: 0 };
        }
        let from = self.first_held(a, cells);
        let to = self.first_beyond(a, cells).max(from);
        Window { from, to }
    }

    /// The work of the step between two speeds, in 0.5 microjoule.
    fn work(&self, v0: u16, v1: u16) -> i64
        requires entry { v0 ≤ 12000 }
        requires exit { v1 ≤ 12000 }
        ensures value { result ≡ work_of (step_at self.now.priced.rules self.now.step) v0 v1 }
        ensures small { unsigned_abs result < 2 ^ 62 }
    {
        self.row.short_work(v0, v1)
    }

    /// The cost of work, and of the step's time between two speeds, rounded down, at its price.
    fn charged(&self, v0: u16, v1: u16, work: i64) -> i128
        requires moving { 1 ≤ v0 + v1 }
        requires small { unsigned_abs work < 2 ^ 62 }
        ensures value { result ≡ C.cost self.now.priced.cost work +ℤ pos (step_price self.now.priced.prices self.now.step * lower_time (step_at self.now.priced.rules self.now.step).metres v0 v1) }
        ensures small { unsigned_abs result ≤ 2 ^ 86 }
    {
        let time = time_down(self.row.metres(), v0, v1);
        sum(cost_of_work(self.cost, work), time_cost(self.price, time))
    }

    /// What a link that is possible costs at least, from cell a of the step's first point to cell b of its last, in 0.5 microjoule. It takes
    /// no memory.
    pub fn cost(&self, a: Cell, b: Cell) -> i128
        requires entry { IsCell a }
        requires exit { IsCell b }
        requires possible { IsTrue (can_link self.now.priced.rules self.now.step a b) }
        ensures value { Some result ≡ low_cost (pricing_of C.cost self.now.priced) self.now.step a b }
        ensures small { unsigned_abs result ≤ 2 ^ 86 }
    {
        self.charged(a.last, b.last, self.work(a.last, b.first))
    }
}

/// The cost of work.
fn cost_of_work<C: StepCost>(cost: &C, work: i64) -> i128
    requires { unsigned_abs work < 2 ^ 62 }
    ensures value { result ≡ C.cost cost.now work }
    ensures small { unsigned_abs result ≤ 2 ^ 62 }
{
    cost.of(work as i128)
}

/// A time at a price.
fn time_cost(price: u64, time: u32) -> i128
    requires price { price ≤ 2 ^ 56 }
    requires time { time ≤ 200000000 }
    ensures value { result ≡ pos (price * time) }
    ensures small { unsigned_abs result ≤ 2 ^ 84 }
{
    (price as u128 * time as u128) as i128
}
