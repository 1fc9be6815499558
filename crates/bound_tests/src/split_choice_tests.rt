//! The choice among the cells of two level steps of 100 m, from rest to rest in 50 s.
use crate::routes::{TWO_STEPS, rules_of};
use drive_rules::Rules;
use potential_table::{Priced, potentials, prices_for};
use rail_base::Traction;
use speed_cells::Cells;
use split_choice::{Choice, choose};
use std::alloc::{AllocError, Global};

/// At most five of these cells, at a price of 1000; none where something doesn't fit.
fn chosen(alloc: Global, rules: &Rules, cells: &Cells) -> Result<Option<Choice>, AllocError> {
    if cells.points() != rules.points() || rules.timings().len() != 1 {
        return Ok(None);
    }
    let prices = prices_for(alloc, rules, &[1000])?;
    let cost = Priced::make(rules, &Traction, &prices);
    let table = potentials(alloc, cells, &cost)?;
    let motion = rules.row(0).down(1);
    Ok(Some(choose(alloc, cells, &cost, &table, motion, 5)?))
}

#[test]
fn the_wide_cells_of_the_middle(rt: HostRuntime) {
    let alloc = rt.alloc();
    let Ok(rules) = rules_of(alloc, TWO_STEPS) else {
        panic!(rt; "the route is refused");
    };
    let Ok(mut cells) = Cells::whole(alloc, &[(0, 0), (1, 1000), (0, 0)]) else {
        panic!(rt; "no memory for cells");
    };
    assert!(rt; cells.split(1, 0).is_ok());
    let Ok(Some(choice)) = chosen(alloc, &rules, &cells) else {
        panic!(rt; "no memory for a choice");
    };
    let mut places = Vec::new(alloc);
    for place in choice.places.iter() {
        assert!(rt; places.push((place.point, place.cell)).is_ok());
    }
    assert!(rt; places.as_slice() == [(1, 1), (1, 0)].as_slice());
    assert!(rt; choice.last == 1);
}
