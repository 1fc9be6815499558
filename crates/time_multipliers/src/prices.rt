//! The prices of a run's timing points.
ghost use Rattle.std.specs.Prelude.{◌≡◌, ℕ, ◌+◌, ◌*◌, ◌^◌, ◌<◌, ◌≤◌, length, slice_index, IfOk};
ghost use Rattle.bound_specs.specs.Prices.{ArePrices, SumsByParts, step_price};
ghost use Rattle.time_multipliers.specs.Steps.{StepsSumByParts};

use std::alloc::{AllocError, Global};
use std::marker::Model;

/// The most steps whose prices are kept ready: as many as a run has at most.
const MOST_STEPS: usize = 4_000;

/// What each timing point charges for a ms before it, in 0.5 microjoule, in the order of the points.
#[derive(Drop)]
pub struct Prices {
    /// The timing points, in rising order.
    points: Vec<u32>,
    /// What each of them charges.
    values: Vec<u64>,
    /// The price of each step before the last timing point, up to as many steps as are kept ready.
    by_step: Vec<u64>,
}

impl Model for Prices {
    ghost use Rattle.bound_specs.specs.Prices.{Prices as PriceData};

    ghost Value = { PriceData };

    ghost view = { λ p. record { points = p.points.items; values = p.values.items } };

    ghost use Rattle.time_multipliers.specs.Steps.{AreKept};

    ghost invariant = { λ p. AreKept (record { points = p.points.items; values = p.values.items }) p.by_step.items };
}

impl Prices {
    /// The prices of timing points: for each point, in rising order, what it charges for a ms before it, in 0.5 microjoule.
    ///
    /// There are 1 to 64 points, none of them point 0, and each has a price of at most 2^50. `AllocError` comes for want of memory
    /// alone.
    pub fn make(alloc: Global, points: &[u32], values: &[u64]) -> Result<Prices, AllocError>
        requires { ArePrices (record { points = points.now; values = values.now }) }
        ensures { IfOk result (λ prices. prices ≡ record { points = points.now; values = values.now }) }
    {
        let last = points[points.len() - 1] as usize;
        let mut by_step = Vec::new(alloc);
        for i in 0..last.min(MOST_STEPS) {
            by_step.push(price_behind(points, values, i))?;
        }
        Ok(Prices {
            points: Vec::from_slice(alloc, points)?,
            values: Vec::from_slice(alloc, values)?,
            by_step,
        })
    }

    /// What holds of all prices, and that they sum by parts: over any times of steps, what the steps pay at their prices is what the
    /// timing points earn at theirs for the times before them. The times are a list, or any function of the step. It takes no memory.
    pub fn known(&self)
        ensures prices { ArePrices self.now }
        ensures by_parts { SumsByParts self.now }
        ensures by_parts_of_steps { StepsSumByParts self.now }
    {
        let _ = &self.points;
    }

    /// What each timing point charges for a ms, in 0.5 microjoule, in the order of the points. It takes no memory.
    pub fn values(&self) -> &[u64]
        ensures { result.now ≡ self.now.values }
    {
        self.values.as_slice()
    }

    /// The price of a ms of step i, in 0.5 microjoule: the sum of the prices of the timing points behind the step's first point.
    /// It takes no memory, and up to 4,000 steps it is one look-up.
    pub fn step_price(&self, i: usize) -> u64
        ensures value { result ≡ step_price self.now i }
        ensures small { result ≤ 2 ^ 56 }
    {
        match self.by_step.get(i) {
            Some(price) => *price,
            None => self.far_price(i),
        }
    }

    /// The price of a ms of a step past those kept ready, out of the way of the look-up.
    #[cold]
    fn far_price(&self, i: usize) -> u64
        ensures value { result ≡ step_price self.now i }
        ensures small { result ≤ 2 ^ 56 }
    {
        price_behind(&self.points, &self.values, i)
    }
}

/// The price of a ms of step i: the sum of the prices of the timing points behind its first point, which is point i.
fn price_behind(points: &[u32], values: &[u64], i: usize) -> u64
    requires { ArePrices (record { points = points.now; values = values.now }) }
    ensures value { result ≡ step_price (record { points = points.now; values = values.now }) i }
    ensures small { result ≤ 2 ^ 56 }
{
    let mut price = 0;
    for j in 0..points.len() {
        if i < points[j] as usize {
            price += values[j];
        }
    }
    price
}
