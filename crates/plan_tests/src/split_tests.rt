//! Which cells a plan has.

use crate::plans::plan_with;
use crate::routes::three_steps;
use speed_cells::Cells;
use std::test::Fail;

/// Whether a point has a cell that begins at a speed.
fn begins_at(cells: &Cells, point: usize, speed: u16) -> bool {
    if point >= cells.points() {
        return false;
    }
    for c in 0..cells.of(point) {
        if cells.cell(point, c).first == speed {
            return true;
        }
    }
    false
}

/// Half of four splits is enough to halve the cells of both points between the ends.
#[test]
fn the_even_cells_come_first(rt: HostRuntime) -> Result<(), Fail> {
    let alloc = rt.alloc();
    let rules = three_steps(alloc)?.expect(&rt, "rules");
    for tolerance in [0, 10] {
        let plan = plan_with(alloc, &rules, 4, tolerance, &mut Vec::new(alloc))?.expect(
            &rt, "a plan",
        );
        assert!(rt; plan.splits <= 4);
        assert!(rt; plan.cells.points() == 4);
        for point in [1, 2] {
            assert!(rt; plan.met || begins_at(&plan.cells, point, 501), "{point}");
        }
    }
    Ok(())
}
