//! Prices of time by slowness, and the scale of energies.
use speed_windows::{Course, Scale};
use std::alloc::{AllocError, Global};

/// The slowness at which time has the price that the first drive pays on the mean.
pub(crate) const ONE: u64 = 1 << 20;

/// The least slowness.
const LEAST: u64 = 1 << 14;

/// The greatest slowness.
const MOST: u64 = 1 << 28;

/// A slowness within its range.
pub(crate) fn within(slowness: u64) -> u64 {
    slowness.max(LEAST).min(MOST)
}

/// How slowness and price belong together: the price is the first price by the cube of the slowness.
///
/// The time of the cheapest drive is nearly linear in the slowness: where power is `v^3` as that against drag, the price at which `v` is
/// best grows as `v^3`.
#[derive(Clone, Copy, Debug)]
pub(crate) struct Levels {
    /// The price at slowness 1, scaled.
    pub(crate) first: u64,
    /// The greatest price.
    pub(crate) most: u64,
}

impl Levels {
    /// The scaled price of a ms.
    pub(crate) fn price(&self, slowness: u64) -> u64 {
        let slowness = within(slowness) as u128;
        let cube = slowness
            .wrapping_mul(slowness)
            .wrapping_mul(slowness)
            .max(1);
        let price = ((self.first as u128).wrapping_mul(1 << 60) / cube).min(self.most as u128);
        price as u64
    }

    /// The scaled prices of a ms before each timing point.
    pub(crate) fn prices(&self, alloc: Global, slowness: &[u64]) -> Result<Vec<u64>, AllocError> {
        let mut prices = Vec::with_capacity(alloc, slowness.len())?;
        for one in slowness {
            prices.push(self.price(*one))?;
        }
        Ok(prices)
    }
}

/// The greatest sum of works of forces over all steps, scaled.
const MOST_SUM: u128 = 1 << 60;

/// The greatest energy of the first drive, scaled.
const MOST_ENERGY: u128 = 1 << 46;

/// The scale for these amounts: how far they may be shifted so that they stay within bounds.
fn scale_for(sum: u128, energy: u128) -> Scale {
    for right in 0..127u32 {
        if (sum >> right) <= MOST_SUM && (energy >> right) <= MOST_ENERGY {
            return Scale {
                left: if right == 0 { left_for(sum, energy) } else { 0 },
                right,
            };
        }
    }
    Scale { left: 0, right: 63 }
}

/// How far these amounts may be shifted to the left within bounds.
fn left_for(sum: u128, energy: u128) -> u32 {
    for left in 0..46u32 {
        if sum > (MOST_SUM >> (left + 1)) || energy > (MOST_ENERGY >> (left + 1)) {
            return left;
        }
    }
    46
}

/// The sum over the steps of the greatest work of a force.
fn greatest_work(course: &Course) -> u128 {
    let force = course.pull(0).max(course.hold(0)).max(0) as u128;
    let mut metres: u128 = 0;
    for step in &course.steps {
        metres = metres.saturating_add(step.length as u128);
    }
    metres.saturating_mul(force)
}

/// The longest time of a step, ms.
fn longest_time(course: &Course, speeds: &[u16]) -> u64 {
    let mut longest: i64 = 1;
    for i in 0..course.steps.len() {
        let entry = speeds.get(i).copied().unwrap_or(0);
        let exit = speeds.get(i.saturating_add(1)).copied().unwrap_or(0);
        longest = longest.max(course.step(i).time(entry, exit));
    }
    longest.unsigned_abs()
}

/// The longest step, m.
fn longest_step(course: &Course) -> u64 {
    let mut longest = 1;
    for step in &course.steps {
        longest = longest.max(step.length as u64);
    }
    longest
}

/// Sets the scale of energies for a drive of this energy that takes this time, and says how prices go with it.
pub(crate) fn set_levels(course: &mut Course, speeds: &[u16], energy: i128, time: i64) -> Levels {
    let size = energy.unsigned_abs();
    course.scale = scale_for(greatest_work(course), size);
    let most_time = (1u64 << 60) / (course.steps.len() as u64).max(1);
    course.most_time = most_time.min(1 << 60) as i64;
    let scaled = course.scale.of(energy).unsigned_abs();
    let by_length = (1u64 << 62) / longest_step(course).saturating_mul(200_000).max(1);
    let by_time = most_time / longest_time(course, speeds).saturating_mul(4).max(1);
    Levels {
        first: (scaled / time.unsigned_abs().max(1)).max(1),
        most: by_length.min(by_time),
    }
}
