//! What prices charge for the slack of timing points.
ghost use Rattle.std.specs.Prelude.{◌≡◌, ℕ, ◌*◌, ◌^◌, ◌<◌, ◌≤◌, ◌*ℤ◌, pos, length, slice_index};
ghost use Rattle.std.specs.Int.RustNames.{unsigned_abs};
ghost use Rattle.rail_specs.specs.Times.{slack_of};
ghost use Rattle.bound_specs.specs.Prices.{AreFor, priced_slack};

use crate::sums::sum;
use drive_rules::Rules;
use time_multipliers::Prices;

/// What the prices charge for the slack of all timing points, in 0.5 microjoule. It takes no memory.
#[tactic(auto, using(crate::proofs::BoundLemmas::timing_count))]
pub fn slack_charge(prices: &Prices, rules: &Rules) -> i128
    requires { AreFor rules.now prices.now }
    ensures value { result ≡ priced_slack rules.now prices.now }
    ensures small { unsigned_abs result ≤ 2 ^ 92 }
{
    prices.known();
    let values = prices.values();
    let mut charge = 0;
    for j in 0..rules.timings().len() {
        charge = sum(charge, slack_price(values[j], rules.slack(j)));
    }
    charge
}

/// A timing point's slack at its price.
fn slack_price(value: u64, slack: i64) -> i128
    requires value { value ≤ 2 ^ 50 }
    requires slack { unsigned_abs slack ≤ 28972800000 }
    ensures value { result ≡ pos value *ℤ slack }
    ensures small { unsigned_abs result ≤ 2 ^ 85 }
{
    value as i128 * slack as i128
}
