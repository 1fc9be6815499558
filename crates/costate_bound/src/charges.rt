//! What the steps of a run charge the speeds of their points.
ghost use Rattle.std.specs.Prelude.{◌≡◌, ℕ, ◌+◌, ◌-◌, ◌*◌, ◌^◌, ◌<◌, ◌≤◌, ℤ, pos, neg_ℤ, ◌*ℤ◌, length};
ghost use Rattle.std.specs.Int.RustNames.{unsigned_abs};
ghost use Rattle.costate_bound.specs.Relaxation.{above_full, below_share, costate_at, entry_part, exit_part, part_before, part_behind, point_part, rest, slope, tangent_point};
ghost use Rattle.costate_bound.specs.Terms.{terms_of};

use crate::relaxation::Relaxation;
use force_table::SpeedTable;
use link_costs::{difference, sum};

/// The greatest slope of a tangent.
const MOST_SLOPE: u128 = 1 << 46;

/// What a step's charges are computed from, ready for a loop over speeds.
#[derive(Clone, Copy)]
pub(crate) struct Terms {
    /// The costate.
    pub(crate) costate: i32,
    /// How far it lies above the full costate, 64,000.
    pub(crate) above: u32,
    /// How far it lies below the costate of the share that comes back.
    pub(crate) below: u32,
    /// The slope of the priced time, times the full costate.
    pub(crate) fall: u64,
}

/// How far a costate lies above the full one.
fn above_full(costate: i32) -> u32
    requires { unsigned_abs costate ≤ 2 ^ 22 }
    ensures { result ≡ above_full costate }
{
    (costate - 64_000).max(0) as u32
}

/// How far a costate lies below that of the share that comes back.
fn below_share(share: u16, costate: i32) -> u32
    requires { unsigned_abs costate ≤ 2 ^ 22 }
    ensures { result ≡ below_share share costate }
{
    (64 * share.min(1000) as i32 - costate).max(0) as u32
}

/// A costate's charge of work.
fn weighed(costate: i32, work: i128) -> i128
    requires costate { unsigned_abs costate ≤ 2 ^ 22 }
    requires work { unsigned_abs work ≤ 2 ^ 60 }
    ensures value { result ≡ costate *ℤ work }
    ensures small { unsigned_abs result ≤ 2 ^ 82 }
{
    costate as i128 * work
}

/// A charge the other way.
fn negative(charge: i128) -> i128
    requires { unsigned_abs charge ≤ 2 ^ 82 }
    ensures value { result ≡ neg_ℤ charge }
    ensures small { unsigned_abs result ≤ 2 ^ 82 }
{
    -charge
}

/// A cost, times the full costate.
fn in_full(cost: i128) -> i128
    requires { unsigned_abs cost ≤ 2 ^ 65 }
    ensures value { result ≡ pos 64000 *ℤ cost }
    ensures small { unsigned_abs result ≤ 2 ^ 81 }
{
    64_000 * cost
}

/// What a tangent says at its start: twice the slope, times the sum of the speeds there.
fn twice_along(slope: u64, at: u32) -> i128
    requires slope { slope ≤ 2 ^ 46 }
    requires at { at ≤ 131070 }
    ensures value { result ≡ pos (2 * slope * at) }
    ensures small { unsigned_abs result ≤ 2 ^ 64 }
{
    (2 * slope as u128 * at as u128) as i128
}

/// What a force and time take off a charge: so many times the work of the force, and the fall of the priced time up to a speed.
fn relief(times: u32, work: u64, fall: u64, v: u16) -> i128
    requires times { times ≤ 2 ^ 23 }
    requires work { work ≤ 2 ^ 52 }
    requires fall { fall ≤ 2 ^ 62 }
    requires speed { v ≤ 12000 }
    ensures value { result ≡ pos (times * work + fall * v) }
    ensures small { unsigned_abs result ≤ 2 ^ 77 }
{
    (times as u128 * work as u128 + fall as u128 * v as u128) as i128
}

impl<'a> Relaxation<'a> {
    /// The sum of the two speeds of step i at which the tangent of its time is taken, at least 1.
    fn tangent_point(&self, i: usize) -> u32
        requires { i < length self.now.rules.steps }
        ensures value { result ≡ tangent_point self.now i }
        ensures some { 1 ≤ result }
        ensures small { result ≤ 131070 }
    {
        self.known();
        1u32.max(self.speeds[i] as u32 + self.speeds[i + 1] as u32)
    }

    /// How fast the priced time of step i falls there with the sum of its speeds.
    fn slope(&self, i: usize) -> u64
        requires { i < length self.now.rules.steps }
        ensures value { result ≡ slope self.now i }
        ensures small { result ≤ 2 ^ 46 }
    {
        let at = self.tangent_point(i) as u128;
        let metres = self.rules.row(i).metres() as u128;
        let fall = 200_000 * metres * self.prices.step_price(i) as u128 / (at * at);
        MOST_SLOPE.min(fall) as u64
    }

    /// What step i charges whatever its speeds are.
    pub(crate) fn rest(&self, i: usize) -> i128
        requires { i < length self.now.rules.steps }
        ensures value { result ≡ rest self.now i }
        ensures small { unsigned_abs result ≤ 2 ^ 81 }
    {
        let along = twice_along(self.slope(i), self.tangent_point(i));
        in_full(difference(along, self.prices.step_price(i) as i128))
    }

    /// What the charges of step i are computed from.
    pub(crate) fn terms(&self, i: usize) -> Terms
        requires { i < length self.now.rules.steps }
        ensures { result ≡ terms_of self.now i }
    {
        self.known();
        let costate = self.costates[i];
        Terms {
            costate,
            above: above_full(costate),
            below: below_share(self.share, costate),
            fall: 64_000 * self.slope(i),
        }
    }

    /// What step i charges its exit speed.
    fn exit_part(&self, i: usize, terms: Terms, v: u16) -> i128
        requires step { i < length self.now.rules.steps }
        requires terms { terms ≡ terms_of self.now i }
        requires speed { v ≤ self.now.rules.top }
        ensures value { result ≡ exit_part self.now i v }
        ensures small { unsigned_abs result ≤ 2 ^ 83 }
    {
        self.known();
        let row = self.rules.row(i);
        let pull = row.force_work(self.rules.traction().at(v)) as u64;
        difference(
            weighed(terms.costate, row.up(v)),
            relief(terms.above, pull, terms.fall, v),
        )
    }

    /// What step i charges its entry speed.
    fn entry_part(&self, i: usize, terms: Terms, v: u16) -> i128
        requires step { i < length self.now.rules.steps }
        requires terms { terms ≡ terms_of self.now i }
        requires speed { v ≤ self.now.rules.top }
        ensures value { result ≡ entry_part self.now i v }
        ensures small { unsigned_abs result ≤ 2 ^ 83 }
    {
        self.known();
        let row = self.rules.row(i);
        let hold = row.force_work(self.rules.brake().at(v)) as u64;
        difference(
            negative(weighed(terms.costate, row.down(v))),
            relief(terms.below, hold, terms.fall, v),
        )
    }

    /// What the step before point k charges speed v there.
    fn part_before(&self, k: usize, before: Terms, v: u16) -> i128
        requires point { k ≤ length self.now.rules.steps }
        requires before { 1 ≤ k → before ≡ terms_of self.now (k - 1) }
        requires speed { v ≤ self.now.rules.top }
        ensures value { result ≡ part_before self.now k v }
        ensures small { unsigned_abs result ≤ 2 ^ 83 }
    {
        if k == 0 {
            0
        } else {
            self.exit_part(k - 1, before, v)
        }
    }

    /// What the step behind point k charges speed v there.
    fn part_behind(&self, k: usize, behind: Terms, v: u16) -> i128
        requires behind { k < length self.now.rules.steps → behind ≡ terms_of self.now k }
        requires speed { v ≤ self.now.rules.top }
        ensures value { result ≡ part_behind self.now k v }
        ensures small { unsigned_abs result ≤ 2 ^ 83 }
    {
        if k < self.rules.steps() {
            self.entry_part(k, behind, v)
        } else {
            0
        }
    }

    /// What speed v at point k is charged.
    pub(crate) fn point_part(&self, k: usize, before: Terms, behind: Terms, v: u16) -> i128
        requires point { k ≤ length self.now.rules.steps }
        requires before { 1 ≤ k → before ≡ terms_of self.now (k - 1) }
        requires behind { k < length self.now.rules.steps → behind ≡ terms_of self.now k }
        requires speed { v ≤ self.now.rules.top }
        ensures value { result ≡ point_part self.now k v }
        ensures small { unsigned_abs result ≤ 2 ^ 84 }
    {
        sum(
            self.part_before(k, before, v),
            self.part_behind(k, behind, v),
        )
    }
}
