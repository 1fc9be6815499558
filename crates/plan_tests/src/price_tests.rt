//! Drives, prices and bounds of short routes.

use crate::plans::{Seen, seen_plan};
use crate::routes::{LEVEL, route, three_steps, two_steps};
use drive_rules::Judged;
use phase_composer::{Composed, compose};
use rail_base::Traction;
use std::test::Fail;

/// The greatest number of splits, the default of the words and the tolerance that these have.
const SPLITS: u32 = 2_000;

const TOLERANCE: u32 = 10;

#[test]
fn prices_and_splits_raise_the_bound(rt: HostRuntime) -> Result<(), Fail> {
    let alloc = rt.alloc();
    let cases: [(u32, i128, u64, usize); 2] = [
        (0, 200_010_000_000, 0, 3),
        (1, 2_082_510_000_000, 62_750_000, 4),
    ];
    for (splits, bound, price, cells) in cases {
        let speeds = Vec::from_slice(alloc, &[0, 800, 0])?;
        let wanted = Seen {
            speeds,
            energy: 6_600_000_000_000,
            bound,
            price,
            cells,
            splits,
            met: false,
        };
        assert!(rt; seen_plan(alloc, two_steps(alloc, 50)?, splits, TOLERANCE)? == Some(wanted));
    }
    Ok(())
}

#[test]
fn the_bound_meets_the_energy(rt: HostRuntime) -> Result<(), Fail> {
    let alloc = rt.alloc();
    let found = seen_plan(alloc, two_steps(alloc, 50)?, SPLITS, TOLERANCE)?.expect(&rt, "a plan");
    assert!(rt; found.speeds.as_slice() == [0, 800, 0].as_slice());
    assert!(rt; found.energy == 6_600_000_000_000);
    assert!(rt; found.bound >= 6_534_000_000_000 && found.bound <= found.energy);
    assert!(rt; found.met);

    let fast = seen_plan(alloc, two_steps(alloc, 40)?, SPLITS, 0)?.expect(&rt, "a plan");
    assert!(rt; fast.speeds.as_slice() == [0, 1000, 0].as_slice());
    assert!(rt; fast.energy == 10_200_000_000_000);
    assert!(rt; fast.bound == 10_200_000_000_000);
    assert!(rt; fast.met);
    Ok(())
}

/// A speed that is on time with times rounded down alone costs less than the drive, so no bound is above its cost.
#[test]
fn times_rounded_down_keep_the_gap_open(rt: HostRuntime) -> Result<(), Fail> {
    let alloc = rt.alloc();
    let found = seen_plan(alloc, two_steps(alloc, 67)?, SPLITS, 3)?.expect(&rt, "a plan");
    assert!(rt; found.speeds.as_slice() == [0, 598, 0].as_slice());
    assert!(rt; found.energy == 3_776_040_000_000);
    assert!(rt; found.bound <= 3_764_090_000_000);
    assert!(rt; !found.met);
    assert!(rt; found.splits == 999);
    assert!(rt; found.cells == 1002);
    Ok(())
}

/// Downhill no energy is asked for.
#[test]
fn downhill_the_bound_is_0(rt: HostRuntime) -> Result<(), Fail> {
    let alloc = rt.alloc();
    let steep = "100 -200 1000";
    let rules = route(alloc, 51_000, 70, &[steep, steep])?;
    let found = seen_plan(alloc, rules, 0, TOLERANCE)?.expect(&rt, "a plan");
    let middle = found.speeds.get(1).copied().unwrap_or(0);
    assert!(rt; middle >= 572 && middle <= 610, "{middle}");
    assert!(rt; found.energy == 0);
    assert!(rt; found.bound == 0);
    assert!(rt; found.cells == 3);
    assert!(rt; found.met);
    Ok(())
}

#[test]
fn without_a_drive_on_time_there_is_no_plan(rt: HostRuntime) -> Result<(), Fail> {
    let alloc = rt.alloc();
    const CASES: &[(u32, u32, &[&str])] = &[
        (51_000, 39, &[LEVEL, LEVEL]),
        (18_821, 67, &[LEVEL, LEVEL]),
        (51_000, 50, &["100 600 1000", "100 600 1000"]),
    ];
    for &(traction, latest, steps) in CASES {
        let rules = route(alloc, traction, latest, steps)?;
        assert!(rt;
            seen_plan(alloc, rules, SPLITS, TOLERANCE)? == None,
            "within {latest} s"
        );
    }
    Ok(())
}

/// The family's best alone: over three steps 0, 834, 834, 0.
#[test]
fn the_best_of_the_family(rt: HostRuntime) -> Result<(), Fail> {
    let alloc = rt.alloc();
    const CASES: &[(bool, &[u16], i128)] = &[
        (false, &[0, 800, 0], 6_600_000_000_000),
        (true, &[0, 834, 834, 0], 7_355_560_000_000),
    ];
    for &(three, speeds, energy) in CASES {
        let made = if three {
            three_steps(alloc)?
        } else {
            two_steps(alloc, 50)?
        };
        let rules = made.expect(&rt, "rules");
        let Composed::Best(drive) = compose(alloc, &rules, &Traction)? else {
            panic!(rt; "no drive is on time");
        };
        assert!(rt; drive.speeds() == speeds);
        assert!(rt; rules.judge(speeds, &Traction) == Judged::Kept { cost: energy });
    }
    Ok(())
}
