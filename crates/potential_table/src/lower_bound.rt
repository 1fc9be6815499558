//! The bound that potentials and prices give.
ghost use Rattle.std.specs.Prelude.{◌≡◌, ℕ, ◌+◌, ◌^◌, ◌<◌, ◌≤◌, ℤ, ◌-ℤ◌, length, option_map, IfSome};
ghost use Rattle.std.specs.Int.RustNames.{unsigned_abs};
ghost use Rattle.bound_specs.specs.Chains.{value_at, values_of};
ghost use Rattle.bound_specs.specs.Prices.{AreFor, priced_slack};
ghost use Rattle.potential_table.specs.Bounds.{GivesBound};

use crate::table::Potentials;
use drive_rules::Rules;
use link_costs::{difference, slack_charge};
use time_multipliers::Prices;

/// The potential of the first point's cell less what the prices charge for the slack of the timing points, in 0.5 microjoule, or
/// none where there is no chain from that cell. It takes no memory.
///
/// Where the potentials are those of cells that cover the rules, under a cost of work and these prices, it is a bound: every drive on
/// time, its step times rounded down, costs at least this (weak duality).
pub fn bound(potentials: &Potentials, prices: &Prices, rules: &Rules) -> Option<i128>
    requires prices { AreFor rules.now prices.now }
    requires points { length potentials.now ≡ length rules.now.steps + 1 }
    requires start { length (values_of potentials.now 0) ≡ 1 }
    ensures value { result ≡ option_map (λ p. p -ℤ priced_slack rules.now prices.now) (value_at potentials.now 0 0) }
    ensures bounds { IfSome result (GivesBound rules.now prices.now potentials.now) }
    ensures small { IfSome result (λ b. unsigned_abs b ≤ 2 ^ 99) }
{
    rules.known();
    prices.known();
    let slack = slack_charge(prices, rules);
    let potential = potentials.of(0, 0)?;
    Some(difference(potential, slack))
}
