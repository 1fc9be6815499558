//! What a bound by costates is computed from.
ghost use Rattle.std.specs.Prelude.{◌≡◌, ℕ, ◌+◌, ◌^◌, ◌≤◌, length, All};
ghost use Rattle.std.specs.Int.RustNames.{unsigned_abs};
ghost use Rattle.bound_specs.specs.Prices.{AreFor};
ghost use Rattle.costate_bound.specs.Relaxation.{IsRelaxation};
ghost use Rattle.time_multipliers.specs.Steps.{StepsSumByParts};

use drive_rules::Rules;
use std::marker::Model;
use time_multipliers::Prices;

/// The rules of a run, the share of braking work that comes back, in per mille, a price for each timing point, for each point the speed at
/// which tangents are taken, cm/s, and for each step its costate.
///
/// It borrows them all and takes no memory. Contracts see all five.
#[derive(Drop)]
pub struct Relaxation<'a> {
    pub(crate) rules: &'a Rules,
    pub(crate) share: u16,
    pub(crate) prices: &'a Prices,
    pub(crate) speeds: &'a [u16],
    pub(crate) costates: &'a [i32],
}

impl<'a> Model for Relaxation<'a> {
    ghost use Rattle.costate_bound.specs.Relaxation.{Relaxation as RelaxationData, IsRelaxation};

    ghost Value = { RelaxationData };

    ghost view = { λ x. record { rules = x.rules.now; share = x.share; prices = x.prices.now; speeds = x.speeds.now; costates = x.costates.now } };

    ghost invariant = { λ x. IsRelaxation (record { rules = x.rules.now; share = x.share; prices = x.prices.now; speeds = x.speeds.now; costates = x.costates.now }) };
}

impl<'a> Relaxation<'a> {
    /// The relaxation of these rules, where braking gives back this share of its work, in per mille, at prices for the rules' timing points,
    /// with a speed for each point and a costate, from -2^22 to 2^22, for each step. A share above 1,000 counts as 1,000. Any speeds and
    /// costates will do; those of a drive near the best give the best bound.
    #[tactic(auto, using(crate::proofs::Ranges::small_costates))]
    pub fn make(
        rules: &'a Rules,
        share: u16,
        prices: &'a Prices,
        speeds: &'a [u16],
        costates: &'a [i32],
    ) -> Relaxation<'a>
        requires prices { AreFor rules.now prices.now }
        requires speeds { length speeds.now ≡ length rules.now.steps + 1 }
        requires costates { length costates.now ≡ length rules.now.steps }
        requires small { All (λ s. unsigned_abs s ≤ 2 ^ 22) costates.now }
        ensures { result ≡ record { rules = rules.now; share = share; prices = prices.now; speeds = speeds.now; costates = costates.now } }
    {
        rules.known();
        prices.known();
        Relaxation {
            rules,
            share,
            prices,
            speeds,
            costates,
        }
    }

    /// What holds of every relaxation, and that its prices sum by parts.
    pub fn known(&self)
        ensures whole { IsRelaxation self.now }
        ensures by_parts { StepsSumByParts self.now.prices }
    {
        self.prices.known();
    }
}
