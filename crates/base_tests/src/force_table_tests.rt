//! Tables of rows, and the rows that are none.
use force_table::{ForceTable, SpeedTable, TableFault};

#[test]
fn forces_lie_between_rows(rt: HostRuntime) {
    let alloc = rt.alloc();
    let Ok(table) = ForceTable::make(alloc, &[(0, 300), (3, 200)]) else {
        panic!(rt; "a table of two rows is refused");
    };
    let Ok(copy) = table.copy(alloc) else {
        panic!(rt; "a table cannot be copied");
    };
    assert!(rt; table.top() == 3);
    assert!(rt; copy.top() == 3);
    for (speed, force) in [(0, 300), (1, 266), (2, 233), (3, 200)] {
        assert!(rt; table.at(speed) == force, "at {speed}");
        assert!(rt; copy.at(speed) == force, "at {speed}");
    }
}

#[test]
fn faults_are_named(rt: HostRuntime) {
    const CASES: &[(&[(u16, u32)], TableFault)] = &[
        (&[], TableFault::Empty),
        (&[(1, 300), (1, 400)], TableFault::Start),
        (&[(0, 300), (0, 200)], TableFault::Order(2)),
        (&[(0, 300), (3, 200), (2, 400)], TableFault::Order(3)),
        (
            &[(0, 51_000), (500, 50_000), (1000, 50_001)],
            TableFault::Rises(3),
        ),
        (&[(0, 1), (5, 2), (5, 1)], TableFault::Rises(2)),
    ];
    for &(rows, fault) in CASES {
        let refused = ForceTable::make(rt.alloc(), rows).err();
        assert!(rt; refused == Some(fault));
    }
}
