//! Cells that are split.
use cell_splitting::{Place, split_chosen, split_evenly, split_rest};
use speed_cells::Cells;
use std::test::Fail;

/// From one cell of the speeds 0, 1 to 9 and 0: two even halvings, then a chosen one, then all that are left.
#[test]
fn cells_are_split(rt: HostRuntime) -> Result<(), Fail> {
    let mut cells = Cells::whole(rt.alloc(), [(0, 0), (1, 9), (0, 0)].as_slice())?;
    split_evenly(&mut cells, 7)?;
    assert!(rt; cells.count() == 6);
    assert!(rt; cells.points() == 3);
    let chosen = [Place { point: 1, cell: 0 }, Place { point: 0, cell: 0 }];
    split_chosen(&mut cells, chosen.as_slice(), 1, 5)?;
    assert!(rt; cells.count() == 7);
    split_rest(&mut cells, 100)?;
    assert!(rt; cells.count() == 11);
    assert!(rt; cells.all_single());
    Ok(())
}
