//! Prices of steps on worked numbers.
use std::alloc::{AllocError, Global};
use time_multipliers::Prices;

/// The prices have these values, and each of these steps its price.
fn has_prices(prices: Result<Prices, AllocError>, values: &[u64], steps: &[(usize, u64)]) -> bool {
    match prices {
        Ok(prices) => {
            prices.known();
            prices.values() == values
                && steps
                    .iter()
                    .all(|(i, price)| prices.step_price(*i) == *price)
        }
        Err(_) => false,
    }
}

#[test]
fn two_prices(rt: HostRuntime) {
    let prices = Prices::make(rt.alloc(), &[1, 2], &[5, 7]);
    assert!(rt; has_prices(prices, &[5, 7], &[(0, 12), (1, 7), (2, 0), (4000, 0)]));
}

#[test]
fn one_price(rt: HostRuntime) {
    let prices = Prices::make(rt.alloc(), &[3], &[1 << 50]);
    assert!(rt; has_prices(prices, &[1 << 50], &[(0, 1 << 50), (2, 1 << 50), (3, 0)]));
}

#[test]
fn far_point(rt: HostRuntime) {
    let prices = Prices::make(rt.alloc(), &[2, 5000], &[6, 9]);
    assert!(rt;
        has_prices(
            prices,
            &[6, 9],
            &[
                (1, 15),
                (3999, 9),
                (4000, 9),
                (4500, 9),
                (4999, 9),
                (5000, 0)
            ]
        )
    );
}
