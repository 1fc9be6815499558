//! The bound: each point at the least that a speed there is charged.
ghost use Rattle.std.specs.Prelude.{◌≡◌, ℕ, ◌+◌, ◌-◌, ◌*◌, ◌^◌, ◌<◌, ◌≤◌, ℤ, pos, length, slice_index};
ghost use Rattle.std.specs.Int.{int_div_euclid, int_min};
ghost use Rattle.std.specs.Int.RustNames.{unsigned_abs};
ghost use Rattle.rail_specs.specs.Cost.{int_sum_below, IsBound};
ghost use Rattle.rail_specs.specs.Ranges.{AreRanges, no_narrowing};
ghost use Rattle.costate_bound.specs.Costs.{CoversWork};
ghost use Rattle.costate_bound.specs.Relaxation.{costate_bound, least_from, least_part, point_part, rest};
ghost use Rattle.costate_bound.specs.Terms.{terms_of};

use crate::charges::Terms;
use crate::relaxation::Relaxation;
use link_costs::{difference, slack_charge, sum};
use speed_envelopes::Ranges;

/// What a step's charges are computed from where there is no step.
const NO_TERMS: Terms = Terms {
    costate: 0,
    above: 0,
    below: 0,
    fall: 0,
};

/// The lesser of two charges.
fn lesser(a: i128, b: i128) -> i128
    requires first { unsigned_abs a ≤ 2 ^ 84 }
    requires second { unsigned_abs b ≤ 2 ^ 84 }
    ensures value { result ≡ int_min a b }
    ensures small { unsigned_abs result ≤ 2 ^ 84 }
{
    a.min(b)
}

/// What charges come to, by the full costate, rounded down.
fn by_full(charges: i128) -> i128
    requires { unsigned_abs charges ≤ 2 ^ 97 }
    ensures value { result ≡ int_div_euclid charges (pos 64000) }
    ensures small { unsigned_abs result ≤ 2 ^ 97 }
{
    charges.div_euclid(64_000)
}

impl<'a> Relaxation<'a> {
    /// The least that the speeds from `low` up to `high` are charged at point k.
    #[tactic(auto, using(crate::proofs::Sums::nexts))]
    fn least_charge(&self, k: usize, before: Terms, behind: Terms, low: u16, high: u16) -> i128
        requires point { k ≤ length self.now.rules.steps }
        requires before { 1 ≤ k → before ≡ terms_of self.now (k - 1) }
        requires behind { k < length self.now.rules.steps → behind ≡ terms_of self.now k }
        requires order { low ≤ high }
        requires top { high ≤ self.now.rules.top }
        ensures value { result ≡ least_from (point_part self.now k) low (high - low) }
        ensures small { unsigned_abs result ≤ 2 ^ 84 }
    {
        let mut least = self.point_part(k, before, behind, low);
        for v in low..high {
            least = lesser(least, self.point_part(k, before, behind, v + 1));
        }
        least
    }

    /// What the charges of the step before point k are computed from.
    fn terms_before(&self, k: usize) -> Terms
        requires { k ≤ length self.now.rules.steps }
        ensures { 1 ≤ k → result ≡ terms_of self.now (k - 1) }
    {
        if k == 0 { NO_TERMS } else { self.terms(k - 1) }
    }

    /// What the charges of the step behind point k are computed from.
    fn terms_behind(&self, k: usize) -> Terms
        ensures { k < length self.now.rules.steps → result ≡ terms_of self.now k }
    {
        if k < self.rules.steps() {
            self.terms(k)
        } else {
            NO_TERMS
        }
    }

    /// The least that a speed of a drive is charged at point k.
    #[tactic(auto, using(crate::proofs::Ranges::range_laws))]
    fn least_part(&self, ranges: &Ranges, k: usize) -> i128
        requires ranges { AreRanges self.now.rules no_narrowing ranges.now.low ranges.now.high }
        requires point { k ≤ length self.now.rules.steps }
        ensures value { result ≡ least_part self.now ranges.now.low ranges.now.high k }
        ensures small { unsigned_abs result ≤ 2 ^ 84 }
    {
        self.known();
        let before = self.terms_before(k);
        let behind = self.terms_behind(k);
        self.least_charge(k, before, behind, ranges.low(k), ranges.high(k))
    }

    /// The least charges of all points together.
    #[tactic(auto, using(crate::proofs::Sums::nexts))]
    fn least_parts(&self, ranges: &Ranges) -> i128
        requires { AreRanges self.now.rules no_narrowing ranges.now.low ranges.now.high }
        ensures value { result ≡ int_sum_below (least_part self.now ranges.now.low ranges.now.high) (length self.now.rules.steps + 1) }
        ensures small { unsigned_abs result ≤ 2 ^ 96 }
    {
        let mut parts = 0;
        for k in 0..self.rules.points() {
            parts = sum(parts, self.least_part(ranges, k));
        }
        parts
    }

    /// What the steps charge whatever their speeds are.
    #[tactic(auto, using(crate::proofs::Sums::nexts))]
    fn rests(&self) -> i128
        ensures value { result ≡ int_sum_below (rest self.now) (length self.now.rules.steps) }
        ensures small { unsigned_abs result ≤ 2 ^ 93 }
    {
        let mut rests = 0;
        for i in 0..self.rules.steps() {
            rests = sum(rests, self.rest(i));
        }
        rests
    }

    /// The least charges of all points and what the steps charge besides, by the full costate, less the priced slack.
    fn charged(&self, ranges: &Ranges) -> i128
        requires { AreRanges self.now.rules no_narrowing ranges.now.low ranges.now.high }
        ensures value { result ≡ costate_bound self.now ranges.now.low ranges.now.high }
        ensures small { unsigned_abs result ≤ 2 ^ 98 }
    {
        self.known();
        let charges = sum(self.least_parts(ranges), self.rests());
        difference(by_full(charges), slack_charge(self.prices, self.rules))
    }

    /// The bound, in 0.5 microjoule, where drives have these ranges of speeds. It takes no memory.
    ///
    /// No drive on time, its step times rounded down, costs less, whatever the prices, the costates and the speeds of the tangents are, under
    /// each cost that charges work at least itself, and at least the share of it that comes back (weak duality, with the work of each step
    /// relaxed by its costate, and its time by a tangent).
    pub fn bound(&self, ranges: &Ranges) -> i128
        requires { AreRanges self.now.rules no_narrowing ranges.now.low ranges.now.high }
        ensures value { result ≡ costate_bound self.now ranges.now.low ranges.now.high }
        ensures bounds { (cost : ℤ → ℤ) → CoversWork self.now.share cost → IsBound cost self.now.rules result }
        ensures small { unsigned_abs result ≤ 2 ^ 98 }
    {
        self.known();
        self.charged(ranges)
    }
}
