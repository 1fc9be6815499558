//! Prices on worked numbers: two level steps of 100 m from rest to rest in 50 s.
use crate::routes::{TWO_STEPS, rules_of};
use drive_rules::Rules;
use potential_table::prices_for;
use price_rounds::find_prices;
use rail_base::Traction;
use speed_cells::Cells;
use std::alloc::{AllocError, Global};

/// The price of the route's timing point on these cells, and their chain value at it; none where something doesn't fit.
fn priced(
    alloc: Global,
    rules: &Rules,
    cells: &Cells,
) -> Result<Option<(u64, Option<i128>)>, AllocError> {
    if cells.points() != rules.points() || cells.of(0) != 1 || rules.timings().len() != 1 {
        return Ok(None);
    }
    let given = prices_for(alloc, rules, &[7])?;
    let found = find_prices(alloc, rules, &Traction, cells, &given)?;
    match found.prices.values() {
        [price] => Ok(Some((*price, found.value))),
        _ => Ok(None),
    }
}

#[test]
fn the_best_price_of_one_timing_point(rt: HostRuntime) {
    let alloc = rt.alloc();
    let Ok(rules) = rules_of(alloc, TWO_STEPS) else {
        panic!(rt; "the route is refused");
    };
    let Ok(mut cells) = Cells::whole(alloc, &[(0, 0), (1, 1000), (0, 0)]) else {
        panic!(rt; "no memory for cells");
    };
    assert!(rt; cells.split(1, 0).is_ok());
    let Ok(found) = priced(alloc, &rules, &cells) else {
        panic!(rt; "no memory for prices");
    };
    assert!(rt; found == Some((62_750_000, Some(2_082_510_000_000))));
}
