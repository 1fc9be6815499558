//! Grids of marks and steps, and the spans that have none.
use distance_grid::{Grid, GridFault};
use std::alloc::Global;

/// The places of a grid, as far as they are those that are wanted.
fn has_places(grid: Result<Grid, GridFault>, wanted: &[u32]) -> bool {
    match grid {
        Ok(grid) => grid.places() == wanted && grid.into_places().as_slice() == wanted,
        Err(_) => false,
    }
}

#[test]
fn places_between(rt: HostRuntime) {
    let alloc = rt.alloc();
    assert!(rt; has_places(Grid::make(alloc, &[], 100, 0, 200), &[0, 100, 200]));
    assert!(rt;
        has_places(
            Grid::make(alloc, &[40, 100, 40], 100, 0, 200),
            &[0, 40, 100, 200]
        )
    );
    assert!(rt;
        has_places(
            Grid::make(alloc, &[900, 0, 50, 61, 230], 100, 50, 230),
            &[50, 61, 100, 200, 230]
        )
    );
    assert!(rt; has_places(Grid::make(alloc, &[0, 5], 1000, 5, 6), &[5, 6]));
}

#[test]
fn spans_and_counts(rt: HostRuntime) {
    for (from, to, steps, fault) in [
        (0, 400_000, 4000, None),
        (0, 400_001, 0, Some(GridFault::TooManySteps)),
        (0, 0, 0, Some(GridFault::BadSpan)),
        (1, 0, 0, Some(GridFault::BadSpan)),
        (600_000, 1_000_000, 4000, None),
    ] {
        match Grid::make(rt.alloc(), &[], 100, from, to) {
            Ok(grid) => {
                assert!(rt; None == fault);
                assert!(rt; grid.places().len() == steps + 1);
            }
            Err(found) => assert!(rt; Some(found) == fault),
        }
    }
}
