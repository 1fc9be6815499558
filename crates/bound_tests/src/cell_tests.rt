//! Cells that are split.
use speed_cells::{Cell, Cells};

#[test]
fn cells_are_split(rt: HostRuntime) {
    let Ok(mut cells) = Cells::whole(rt.alloc(), &[(0, 0), (1, 1000), (0, 0)]) else {
        panic!(rt; "the cells of three points cannot be made");
    };
    assert!(rt; (cells.points(), cells.of(1), cells.count()) == (3, 1, 3));
    assert!(rt;
        cells.cell(1, 0)
            == Cell {
                first: 1,
                last: 1000
            }
    );
    assert!(rt; cells.split(1, 0).is_ok());
    assert!(rt; (cells.points(), cells.of(1), cells.count()) == (3, 2, 4));
    assert!(rt;
        cells.cell(1, 0)
            == Cell {
                first: 1,
                last: 500
            }
    );
    assert!(rt;
        cells.cell(1, 1)
            == Cell {
                first: 501,
                last: 1000
            }
    );
    assert!(rt; cells.cell(2, 0) == Cell { first: 0, last: 0 });
    const CASES: &[(u16, Option<usize>)] = &[
        (0, None),
        (1, Some(0)),
        (500, Some(0)),
        (501, Some(1)),
        (1000, Some(1)),
        (1001, None),
    ];
    for &(v, cell) in CASES {
        assert!(rt; cells.cell_of(1, v) == cell, "at {v}");
    }
}

#[test]
fn single_speeds(rt: HostRuntime) {
    let Ok(mut cells) = Cells::whole(rt.alloc(), &[(7, 8)]) else {
        panic!(rt; "the cells of one point cannot be made");
    };
    assert!(rt; !cells.all_single());
    assert!(rt; cells.split(0, 0).is_ok());
    assert!(rt; cells.all_single());
    assert!(rt; cells.cell(0, 0) == Cell { first: 7, last: 7 });
    assert!(rt; cells.cell(0, 1) == Cell { first: 8, last: 8 });
}
