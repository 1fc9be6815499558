//! A run as the search sees it: plain numbers, in which any value is allowed.

use rail_base::StepCost;
use std::alloc::{AllocError, Global};

/// The work of one step: `(rise v1 + slope) v1 + base - fall v0^2`, in 0.5 microjoule, speeds in cm/s.
#[derive(Clone, Copy, Debug)]
pub struct StepShape {
    /// The length of the step, m.
    pub length: u32,
    /// What the square of the exit speed is multiplied by.
    pub rise: i64,
    /// What the exit speed is multiplied by.
    pub slope: i64,
    /// The part of the work that no speed changes.
    pub base: i64,
    /// What the square of the entry speed is multiplied by.
    pub fall: i64,
}

/// The step where there is none.
const NO_STEP: StepShape = StepShape {
    length: 0,
    rise: 0,
    slope: 0,
    base: 0,
    fall: 0,
};

/// More than a step takes, ms.
const MOST_TIME: u64 = 1 << 50;

impl StepShape {
    /// The part of the work that the exit speed decides.
    pub fn up(&self, speed: u16) -> i64 {
        let v = speed as i64;
        let linear = self.rise.wrapping_mul(v).wrapping_add(self.slope);
        linear.wrapping_mul(v).wrapping_add(self.base)
    }

    /// The part of the work that the entry speed pays.
    pub fn down(&self, speed: u16) -> i64 {
        let v = speed as i64;
        self.fall.wrapping_mul(v.wrapping_mul(v))
    }

    /// The work of a force over the step, where `per_metre` is its work over 1 m.
    pub fn force(&self, per_metre: i64) -> i64 {
        per_metre.wrapping_mul(self.length as i64)
    }

    /// The time from one speed to another, ms, rounded up.
    pub fn time(&self, entry: u16, exit: u16) -> i64 {
        let sum = (entry as u64 + exit as u64).max(1);
        (200_000 * self.length as u64).div_ceil(sum).min(MOST_TIME) as i64
    }

    /// The time where the speeds have this sum, at a price for each ms: rounded up to ms first, or not.
    pub fn priced_time(&self, price: u64, sum: u64, rounded: bool) -> u64 {
        let sum = sum.max(1);
        let whole = 200_000 * self.length as u64;
        if rounded {
            whole.div_ceil(sum).wrapping_mul(price)
        } else {
            whole.wrapping_mul(price) / sum
        }
    }
}

/// How far energies are shifted to the left or to the right, so that sums of them fit 64 bits and prices are fine.
#[derive(Clone, Copy, Debug)]
pub struct Scale {
    /// How many bits to the left.
    pub left: u32,
    /// How many bits to the right.
    pub right: u32,
}

/// The greatest work of a step in absolute value.
const MOST: i128 = 1 << 62;

impl Scale {
    /// An energy, scaled.
    pub fn of(self, energy: i128) -> i64 {
        let energy = energy.min(MOST).max(-MOST) as i64;
        energy.wrapping_shl(self.left).wrapping_shr(self.right)
    }

    /// A price as it is, from a scaled one: the greatest where it is beyond 64 bits.
    pub fn unscaled(self, price: u64) -> u64 {
        let wide = (price as u128).wrapping_shl(self.right % 64) >> (self.left % 64);
        wide.min(u64::MAX as u128) as u64
    }
}

/// A timing point.
#[derive(Clone, Copy, Debug)]
pub struct Goal {
    /// The number of the point.
    pub point: usize,
    /// The latest time less the time that the train stands before the point, ms.
    pub latest: i64,
}

/// A run as the search sees it.
#[derive(Drop)]
pub struct Course {
    /// The steps, in order.
    pub steps: Vec<StepShape>,
    /// Per point the least speed that a drive has there, cm/s.
    pub low: Vec<u16>,
    /// Per point the greatest.
    pub high: Vec<u16>,
    /// Per step the index of the timing point behind it.
    pub stretch: Vec<u8>,
    /// The timing points, in order.
    pub goals: Vec<Goal>,
    /// The work of the traction over 1 m, by speed.
    pub pull: Vec<i64>,
    /// The work of the brakes over 1 m, by speed.
    pub hold: Vec<i64>,
    /// How energies are scaled.
    pub scale: Scale,
    /// The greatest priced time of a step.
    pub most_time: i64,
}

/// The number of an index, or 0 behind the end.
pub(crate) fn speed_of(speeds: &[u16], index: usize) -> u16 {
    speeds.get(index).copied().unwrap_or(0)
}

impl Course {
    /// A step, or one of length 0 behind the end.
    pub fn step(&self, index: usize) -> StepShape {
        self.steps.get(index).copied().unwrap_or(NO_STEP)
    }

    /// The least speed at a point.
    pub fn low(&self, point: usize) -> u16 {
        speed_of(self.low.as_slice(), point)
    }

    /// The greatest speed at a point.
    pub fn high(&self, point: usize) -> u16 {
        speed_of(self.high.as_slice(), point)
    }

    /// The price of a ms of a step, where each timing point has a price for the steps before it.
    pub fn price(&self, prices: &[u64], step: usize) -> u64 {
        prices.get(self.stretch_of(step)).copied().unwrap_or(0)
    }

    /// The index of the timing point behind a step; behind the last step more than any.
    pub fn stretch_of(&self, step: usize) -> usize {
        self.stretch.get(step).copied().unwrap_or(u8::MAX) as usize
    }

    /// How much time is left at a timing point, ms: less than 0 where the drive is late.
    pub fn room(&self, arrivals: &[i64], goal: usize) -> i64 {
        match self.goals.get(goal) {
            Some(at) => at
                .latest
                .wrapping_sub(arrivals.get(goal).copied().unwrap_or(0)),
            None => i64::MAX,
        }
    }

    /// The work of the traction over 1 m.
    pub fn pull(&self, speed: u16) -> i64 {
        self.pull.get(speed as usize).copied().unwrap_or(0)
    }

    /// The work of the brakes over 1 m.
    pub fn hold(&self, speed: u16) -> i64 {
        self.hold.get(speed as usize).copied().unwrap_or(0)
    }

    /// What a step costs from one speed to another, scaled, or none where the forces don't allow it.
    pub fn step_cost<C: StepCost>(
        &self,
        cost: &C,
        index: usize,
        entry: u16,
        exit: u16,
    ) -> Option<i64> {
        let step = self.step(index);
        let work = step.up(exit).wrapping_sub(step.down(entry));
        if work > step.force(self.pull(exit))
            || work < step.force(self.hold(entry)).wrapping_neg()
            || (entry == 0 && exit == 0)
        {
            return None;
        }
        Some(self.scale.of(cost.of(work as i128)))
    }

    /// What speeds cost, scaled, or none where the forces don't allow them.
    pub fn cost_of<C: StepCost>(&self, cost: &C, speeds: &[u16]) -> Option<i64> {
        let mut sum: i64 = 0;
        for i in 0..self.steps.len() {
            let entry = speed_of(speeds, i);
            let exit = speed_of(speeds, i.saturating_add(1));
            let one = self.step_cost(cost, i, entry, exit)?;
            sum = sum.wrapping_add(one);
        }
        Some(sum)
    }

    /// The time to each timing point without what the train stands, ms, each step's time rounded up.
    pub fn arrivals(&self, alloc: Global, speeds: &[u16]) -> Result<Vec<i64>, AllocError> {
        let mut arrivals = Vec::with_capacity(alloc, self.goals.len())?;
        let mut time: i64 = 0;
        let mut from = 0;
        for goal in &self.goals {
            time = time.wrapping_add(self.time_over(speeds, from, goal.point));
            from = goal.point;
            arrivals.push(time)?;
        }
        Ok(arrivals)
    }

    /// The time over the steps from one up to another, ms, each step's time rounded up.
    fn time_over(&self, speeds: &[u16], from: usize, to: usize) -> i64 {
        let mut time: i64 = 0;
        for i in from..to {
            let entry = speed_of(speeds, i);
            let exit = speed_of(speeds, i.saturating_add(1));
            let one = self.step(i).time(entry, exit);
            time = time.wrapping_add(one);
        }
        time
    }
}
