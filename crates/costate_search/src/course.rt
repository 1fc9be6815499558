//! What steps charge the speeds that the search looks at.
ghost use Rattle.std.specs.Prelude.{◌≡◌, ◌+◌, ◌<◌, ◌≤◌, length, slice_index};
ghost use Rattle.costate_search.specs.Course.{IsCourse};
ghost use Rattle.rail_specs.specs.Ranges.{AreRanges, no_narrowing};

use drive_rules::Rules;
use force_table::SpeedTable;
use speed_envelopes::Ranges;
use std::marker::Model;

/// How many speeds of a point are looked at.
pub(crate) const SPEEDS: usize = 45;

/// How far these lie from the speed at which the tangents are taken, cm/s.
const SPREAD: [i32; SPEEDS] = [
    -20_000, -1_600, -1_000, -600, -400, -256, -160, -100, -64, -40, -28, -20, -14, -10, -8, -6,
    -5, -4, -3, -2, -1, 0, 1, 2, 3, 4, 5, 6, 8, 10, 14, 20, 28, 40, 64, 100, 160, 256, 400, 600,
    1_000, 1_600, 2_400, 3_600, 20_000,
];

/// What the speeds of a point that are looked at are charged, in the order of the speeds.
pub(crate) type Charges = [i128; SPEEDS];

/// A run, a speed for each point at which tangents are taken, and for each step its tangent's slope.
#[derive(Drop)]
pub(crate) struct Course<'a> {
    pub(crate) rules: &'a Rules,
    pub(crate) share: u16,
    pub(crate) speeds: &'a [u16],
    pub(crate) ranges: &'a Ranges,
    pub(crate) slopes: &'a [u64],
}

impl<'a> Model for Course<'a> {
    ghost use Rattle.costate_search.specs.Course.{Course as CourseData, IsCourse};

    ghost Value = { CourseData };

    ghost view = { λ c. record { rules = c.rules.now; share = c.share; speeds = c.speeds.now; low = c.ranges.now.low; high = c.ranges.now.high; slopes = c.slopes.now } };

    ghost invariant = { λ c. IsCourse (record { rules = c.rules.now; share = c.share; speeds = c.speeds.now; low = c.ranges.now.low; high = c.ranges.now.high; slopes = c.slopes.now }) };
}

/// A speed between these two, so far from another one.
fn speed_near(speed: u16, spread: i32, low: u16, high: u16) -> u16
    requires { low ≤ high }
    ensures above { low ≤ result }
    ensures below { result ≤ high }
{
    let near = (speed as i32).saturating_add(spread);
    if near < low as i32 {
        low
    } else if near > high as i32 {
        high
    } else {
        near as u16
    }
}

/// A product, which 128 bits always hold at the sizes of charges.
fn times(a: i64, b: i64) -> i128 {
    (a as i128).wrapping_mul(b as i128)
}

impl<'a> Course<'a> {
    /// The course of a run over these rules, with slopes of its steps' tangents.
    #[tactic(auto, using(costate_bound::proofs::Ranges::range_laws))]
    pub(crate) fn make(
        rules: &'a Rules,
        share: u16,
        speeds: &'a [u16],
        ranges: &'a Ranges,
        slopes: &'a [u64],
    ) -> Course<'a>
        requires speeds { length speeds.now ≡ length rules.now.steps + 1 }
        requires ranges { AreRanges rules.now no_narrowing ranges.now.low ranges.now.high }
        requires slopes { length slopes.now ≡ length rules.now.steps }
        ensures { result.rules ≡ rules.now }
    {
        rules.known();
        Course {
            rules,
            share,
            speeds,
            ranges,
            slopes,
        }
    }

    /// What holds of every course.
    pub(crate) fn known(&self)
        ensures { IsCourse self.now }
    {
        let _ = &self.share;
    }

    /// The number of steps.
    pub(crate) fn steps(&self) -> usize
        ensures { result ≡ length self.now.rules.steps }
    {
        self.rules.steps()
    }

    /// Whether the best costates may jump from step i - 1 to step i: where the train stops between them, or the limit changes.
    pub(crate) fn may_jump(&self, i: usize) -> bool
        requires behind { 0 < i }
        requires step { i < length self.now.rules.steps }
    {
        self.known();
        self.ranges.high(i) == 0 || self.rules.limit(i - 1) != self.rules.limit(i)
    }

    /// A speed of point k that is looked at.
    fn speed(&self, k: usize, g: usize) -> u16
        requires point { k ≤ length self.now.rules.steps }
        requires speed { g < 45 }
        ensures { result ≤ self.now.rules.top }
    {
        self.known();
        speed_near(
            self.speeds[k],
            SPREAD[g],
            self.ranges.low(k),
            self.ranges.high(k),
        )
    }

    /// What step i charges its exit speeds at a costate.
    pub(crate) fn exits(&self, i: usize, costate: i32) -> Charges
        requires { i < length self.now.rules.steps }
    {
        self.known();
        let row = self.rules.row(i);
        let above = (costate as i64).saturating_sub(64_000).max(0);
        let fall = 64_000u64.wrapping_mul(self.slopes[i]) as u128;
        let mut charges = [0i128; SPEEDS];
        for g in 0..SPEEDS {
            let v = self.speed(i + 1, g);
            let pull = row.force_work(self.rules.traction().at(v));
            let work = (costate as i128).wrapping_mul(row.up(v));
            charges[g] = work
                .wrapping_sub(times(above, pull))
                .wrapping_sub(fall.wrapping_mul(v as u128) as i128);
        }
        charges
    }

    /// What step i charges its entry speeds at a costate.
    pub(crate) fn entries(&self, i: usize, costate: i32) -> Charges
        requires { i < length self.now.rules.steps }
    {
        self.known();
        let row = self.rules.row(i);
        let least = 64 * self.share.min(1000) as i64;
        let below = least.saturating_sub(costate as i64).max(0);
        let fall = 64_000u64.wrapping_mul(self.slopes[i]) as u128;
        let mut charges = [0i128; SPEEDS];
        for g in 0..SPEEDS {
            let v = self.speed(i, g);
            let hold = row.force_work(self.rules.brake().at(v));
            let work = (costate as i128).wrapping_mul(row.down(v));
            charges[g] = 0i128
                .wrapping_sub(work)
                .wrapping_sub(times(below, hold))
                .wrapping_sub(fall.wrapping_mul(v as u128) as i128);
        }
        charges
    }
}

/// The least sum of two charges of one speed.
pub(crate) fn least_sum(before: &Charges, behind: &Charges) -> i128 {
    let mut least = i128::MAX;
    for g in 0..SPEEDS {
        least = least.min(before[g].wrapping_add(behind[g]));
    }
    least
}
