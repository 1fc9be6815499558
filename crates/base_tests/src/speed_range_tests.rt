//! Ranges and greatest drives on small routes, against answers from a search over all lists of speeds.

ghost use Rattle.std.specs.Prelude.{◌≤◌};

use crate::small_rules::route_rules;
use drive_rules::Rules;
use rail_specs::Narrow;
use speed_envelopes::{Ranges, greatest_drive, greatest_from, greatest_under, ranges};
use std::alloc::{AllocError, Global};
use std::process::Abort;
use std::test::Fail;

/// Two level steps of 100 m to a stop.
const LEVEL: &[u8] =
    b"route 1\ntrain 1000 1000 1000 0 0\ntop 1000\ntraction 51000\nbrake 100000\nlatest 50\nstep 100 0 1000\nstep 100 0 1000\nend\n";

/// A heavy train with next to no force: one pass forward and one back leave 15 at point 2, where no drive has more than 14.
const HEAVY: &[u8] =
    b"route 1\ntrain 5000 5000 1000 0 0\ntop 40\ntraction 10\nbrake 1000\nlatest 50\nstep 20 -5 40\nstep 1 30 40\nstep 3 0 40\nend\n";

/// A heavier train with no brakes: one pass forward and one back leave 9 at point 1, and there is no drive.
const HEAVIER: &[u8] =
    b"route 1\ntrain 20000 20000 10 0 0\ntop 20\ntraction 1000\nbrake 0\nlatest 50\nstep 20 0 30\nstep 1 5 20\nend\n";

/// A hill that a weak train climbs by the speed that it brings, after a fall that its weak brakes cannot hold.
const HILL: &[u8] =
    b"route 1\ntrain 1000 1000 1000 0 0\ntop 300\ntraction 10000\nbrake 2000\nlatest 50\nstep 20 -100 300\nstep 20 0 200\nstep 50 100 200\nstep 10 200 200\nend\n";

/// A route, the cap and the steps without traction, and the least and the greatest speeds: none where there is no drive.
const RANGES: &[(&[u8], (u16, u32, u32), &[u16], &[u16])] = &[
    (LEVEL, (12_000, 0, 0), &[0, 1, 0], &[0, 1000, 0]),
    (LEVEL, (800, 0, 0), &[0, 1, 0], &[0, 800, 0]),
    (LEVEL, (0, 0, 0), &[], &[]),
    (LEVEL, (12_000, 0, 2), &[], &[]),
    (LEVEL, (12_000, 1, 2), &[0, 142, 0], &[0, 1000, 0]),
    (HEAVY, (12_000, 0, 0), &[0, 28, 11, 0], &[0, 29, 14, 0]),
    (HEAVY, (28, 0, 0), &[0, 28, 11, 0], &[0, 28, 12, 0]),
    (HEAVY, (27, 0, 0), &[], &[]),
    (HEAVIER, (12_000, 0, 0), &[], &[]),
    (
        HILL,
        (12_000, 0, 0),
        &[0, 166, 172, 146, 0],
        &[0, 200, 200, 178, 0],
    ),
    (
        HILL,
        (190, 0, 0),
        &[0, 166, 172, 146, 0],
        &[0, 190, 190, 167, 0],
    ),
    (
        HILL,
        (12_000, 0, 1),
        &[0, 166, 172, 146, 0],
        &[0, 187, 200, 178, 0],
    ),
];

/// Compares the speeds at each point with these.
fn compare_points(rt: &impl Abort, found: &Ranges, low: &[u16], high: &[u16]) {
    assert!(rt; found.points() == low.len() && found.points() == high.len());
    for k in 0..found.points() {
        assert!(rt; found.low(k) == low[k]);
        assert!(rt; found.high(k) == high[k]);
    }
}

/// Compares pairs of speeds with these.
fn compare_pairs(rt: &impl Abort, pairs: &[(u16, u16)], low: &[u16], high: &[u16]) {
    assert!(rt; pairs.len() == low.len() && pairs.len() == high.len());
    for k in 0..pairs.len() {
        assert!(rt; pairs[k] == (low[k], high[k]));
    }
}

/// Compares ranges with these speeds in each form in which they are given.
fn compare_forms(
    rt: &impl Abort,
    alloc: Global,
    found: &Ranges,
    low: &[u16],
    high: &[u16],
) -> Result<(), AllocError> {
    assert!(rt; found.least(alloc)?.speeds() == low);
    assert!(rt; found.greatest(alloc)?.speeds() == high);
    compare_points(rt, found, low, high);
    compare_pairs(rt, &found.pairs(alloc)?, low, high);
    Ok(())
}

/// Compares the ranges of a route with these speeds: none where there is no drive.
fn compare_ranges(
    rt: &impl Abort,
    alloc: Global,
    rules: &Rules,
    narrow: &Narrow,
    low: &[u16],
    high: &[u16],
) -> Result<(), AllocError> {
    match ranges(alloc, rules, narrow)? {
        Some(found) => compare_forms(rt, alloc, &found, low, high)?,
        None => assert!(rt; high.len() == 0),
    }
    Ok(())
}

/// Compares the greatest drive under a narrowing, begun from that under none, with these speeds.
fn compare_greatest(
    rt: &impl Abort,
    alloc: Global,
    rules: &Rules,
    narrow: &Narrow,
    high: &[u16],
) -> Result<(), AllocError>
    requires { narrow.now.cap ≤ 12000 }
{
    let none = Narrow::none();
    let Some(plain) = greatest_drive(alloc, rules)? else {
        assert!(rt; high.len() == 0);
        return Ok(());
    };
    let Some(known) = greatest_under(alloc, rules, &none)? else {
        assert!(rt; high.len() == 0);
        return Ok(());
    };
    assert!(rt; known.speeds() == plain.speeds());
    match greatest_from(alloc, rules, narrow, &none, &known)? {
        Some(found) => assert!(rt; found.speeds() == high),
        None => assert!(rt; high.len() == 0),
    }
    Ok(())
}

#[test]
fn ranges_and_greatest_drives_are_exact(rt: HostRuntime) -> Result<(), Fail> {
    let alloc = rt.alloc();
    for &(text, (cap, idle_from, idle_to), low, high) in RANGES {
        let rules = route_rules(alloc, text)?;
        let narrow = Narrow {
            cap: cap.min(12_000),
            idle_from,
            idle_to,
        };
        compare_ranges(&rt, alloc, &rules, &narrow, low, high)?;
        compare_greatest(&rt, alloc, &rules, &narrow, high)?;
    }
    Ok(())
}
