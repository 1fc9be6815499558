//! Worked numbers: two level steps of 100 m from rest to rest in 50 s.
ghost use Rattle.std.specs.Prelude.{◌≡◌, ◌<◌, ◌≤◌, ◌+◌, ◌^◌, length, slice_index};
ghost use Rattle.bound_specs.specs.Cells.{cells_of};

use crate::routes::{TWO_STEPS, rules_of};
use drive_rules::Rules;
use potential_table::{
    Front, Potentials, Priced, best_price, best_valued, bound, finer_cells_bound_more, potentials,
    prices_for,
};
use rail_base::{Cell, CellCost, Traction};
use speed_cells::Cells;
use std::alloc::{AllocError, Global};

/// The potentials of the cells, point by point, where the middle has two cells and the price is 62,750,000.
const PRICED: &[Option<i128>] = &[
    Some(5_220_010_000_000),
    Some(2_510_000_000_000),
    Some(1_255_000_000_000),
    Some(0),
];

/// The potentials of three points' cells with one price, point by point, and their bound; none where something doesn't fit.
fn dual(
    alloc: Global,
    rules: &Rules,
    cells: &Cells,
    price: u64,
) -> Result<Option<(Vec<Option<i128>>, Option<i128>)>, AllocError>
    requires { price ≤ 2 ^ 50 }
{
    if cells.points() != rules.points() || cells.of(0) != 1 || rules.timings().len() != 1 {
        return Ok(None);
    }
    let prices = prices_for(alloc, rules, &[price])?;
    let cost = Priced::make(rules, &Traction, &prices);
    let potentials = potentials(alloc, cells, &cost)?;
    let mut values = Vec::new(alloc);
    for k in 0..cells.points() {
        for c in 0..cells.of(k) {
            values.push(potentials.of(k, c))?;
        }
    }
    let bound = bound(&potentials, &prices, rules);
    Ok(Some((values, bound)))
}

#[test]
fn one_cell_a_point(rt: HostRuntime) {
    let alloc = rt.alloc();
    let Ok(rules) = rules_of(alloc, TWO_STEPS) else {
        panic!(rt; "the route is refused");
    };
    let Ok(cells) = Cells::whole(alloc, &[(0, 0), (1, 1000), (0, 0)]) else {
        panic!(rt; "no memory for cells");
    };
    let Ok(Some((values, bound))) = dual(alloc, &rules, &cells, 0) else {
        panic!(rt; "no memory for potentials");
    };
    const VALUES: &[Option<i128>] = &[Some(200_010_000_000), Some(0), Some(0)];
    assert!(rt; values.as_slice() == VALUES);
    assert!(rt; bound == Some(200_010_000_000));
}

#[test]
fn two_cells_in_the_middle(rt: HostRuntime) {
    let alloc = rt.alloc();
    let Ok(rules) = rules_of(alloc, TWO_STEPS) else {
        panic!(rt; "the route is refused");
    };
    let Ok(mut cells) = Cells::whole(alloc, &[(0, 0), (1, 1000), (0, 0)]) else {
        panic!(rt; "no memory for cells");
    };
    assert!(rt; cells.split(1, 0).is_ok());
    let Ok(Some((values, bound))) = dual(alloc, &rules, &cells, 62_750_000) else {
        panic!(rt; "no memory for potentials");
    };
    assert!(rt; values.as_slice() == PRICED);
    assert!(rt; bound == Some(2_082_510_000_000));
}

#[test]
fn no_chain_from_the_start(rt: HostRuntime) {
    let alloc = rt.alloc();
    let Ok(rules) = rules_of(alloc, TWO_STEPS) else {
        panic!(rt; "the route is refused");
    };
    // from rest the traction reaches 1000, and no more
    let Ok(cells) = Cells::whole(alloc, &[(0, 0), (1001, 1100), (0, 0)]) else {
        panic!(rt; "no memory for cells");
    };
    let Ok(Some((values, bound))) = dual(alloc, &rules, &cells, 0) else {
        panic!(rt; "no memory for potentials");
    };
    const VALUES: &[Option<i128>] = &[None, None, Some(0)];
    assert!(rt; values.as_slice() == VALUES);
    assert!(rt; bound == None);
}

#[test]
fn steps_and_links(rt: HostRuntime) {
    let alloc = rt.alloc();
    let Ok(rules) = rules_of(alloc, TWO_STEPS) else {
        panic!(rt; "the route is refused");
    };
    if rules.steps() != 2 || rules.timings().len() != 1 {
        panic!(rt; "the route has other steps");
    }
    let Ok(prices) = prices_for(alloc, &rules, &[1000]) else {
        panic!(rt; "no memory for prices");
    };
    let cost = Priced::make(&rules, &Traction, &prices);
    assert!(rt; cost.steps() == 2);
    assert!(rt; cost.real(0, 0, 800) == Some(6_600_000_000_000 + 25_000_000));
    assert!(rt; cost.real(0, 0, 0) == None);
    assert!(rt; cost.real(1, 800, 0) == Some(25_000_000));
    let slow = Cell {
        first: 1,
        last: 500,
    };
    let rest = Cell { first: 0, last: 0 };
    assert!(rt; cost.low(0, rest, slow) == Some(200_010_000_000 + 40_000_000));
    assert!(rt; cost.low(1, slow, rest) == Some(40_000_000));
    assert!(rt; cost.low(0, rest, rest) == None);
}

/// The values of all cells, point by point, after the middle point's only cell is split and the first two steps are renewed; none
/// where something doesn't fit.
fn renewed(
    alloc: Global,
    rules: &Rules,
    price: u64,
) -> Result<Option<Vec<Option<i128>>>, AllocError>
    requires { price ≤ 2 ^ 50 }
{
    let mut cells = Cells::whole(alloc, &[(0, 0), (1, 1000), (0, 0)])?;
    if cells.points() != rules.points() || rules.timings().len() != 1 {
        return Ok(None);
    }
    let prices = prices_for(alloc, rules, &[price])?;
    let cost = Priced::make(rules, &Traction, &prices);
    let mut found = potentials(alloc, &cells, &cost)?;
    cells.split(1, 0)?;
    if rules.points() != 3 || found.width(2) != cells.of(2) {
        return Ok(None);
    }
    found.renew(&cells, &Front::make(&cost, 2))?;
    let mut values = Vec::new(alloc);
    for k in 0..cells.points() {
        for c in 0..found.width(k) {
            values.push(found.of(k, c))?;
        }
    }
    Ok(Some(values))
}

#[test]
fn renewed_after_a_split(rt: HostRuntime) {
    let alloc = rt.alloc();
    let Ok(rules) = rules_of(alloc, TWO_STEPS) else {
        panic!(rt; "the route is refused");
    };
    let Ok(Some(free)) = renewed(alloc, &rules, 0) else {
        panic!(rt; "no memory for potentials");
    };
    const FREE: &[Option<i128>] = &[Some(200_010_000_000), Some(0), Some(0), Some(0)];
    assert!(rt; free.as_slice() == FREE);
    let Ok(Some(priced)) = renewed(alloc, &rules, 62_750_000) else {
        panic!(rt; "no memory for potentials");
    };
    assert!(rt; priced.as_slice() == PRICED);
}

/// The best price on three points' cells and their bound at it; none where something doesn't fit.
fn best(
    alloc: Global,
    rules: &Rules,
    cells: &Cells,
) -> Result<Option<(u64, Option<i128>)>, AllocError> {
    if cells.points() != rules.points() || cells.of(0) != 1 || rules.timings().len() != 1 {
        return Ok(None);
    }
    let prices = prices_for(alloc, rules, &[7])?;
    let alone = best_price(alloc, rules, &Traction, cells, &prices, 0)?;
    let found = best_valued(alloc, rules, &Traction, cells, &prices, 0)?;
    match (alone.values(), found.prices.values()) {
        ([price], [again]) if *price == *again => Ok(Some((*price, found.value))),
        _ => Ok(None),
    }
}

#[test]
fn best_prices(rt: HostRuntime) {
    let alloc = rt.alloc();
    let Ok(rules) = rules_of(alloc, TWO_STEPS) else {
        panic!(rt; "the route is refused");
    };
    let Ok(mut cells) = Cells::whole(alloc, &[(0, 0), (1, 1000), (0, 0)]) else {
        panic!(rt; "no memory for cells");
    };
    let Ok(whole) = best(alloc, &rules, &cells) else {
        panic!(rt; "no memory for potentials");
    };
    assert!(rt; whole == Some((0, Some(200_010_000_000))));
    assert!(rt; cells.split(1, 0).is_ok());
    let Ok(split) = best(alloc, &rules, &cells) else {
        panic!(rt; "no memory for potentials");
    };
    assert!(rt; split == Some((62_750_000, Some(2_082_510_000_000))));
}
