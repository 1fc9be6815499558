//! The work of steps on worked numbers.
ghost use Rattle.std.specs.Prelude.{◌≡◌, ◌<◌, ◌≤◌};
ghost use Rattle.rail_specs.specs.Step.{IsInRange};

use std::marker::Brand;
use std::sync::ledger::{Blank, Ledger};
use step_energy::{StepNumbers, StepRow, Steps};

/// A level step of 100 m, with a constant resistance of 1,000 N.
const LEVEL: StepNumbers = StepNumbers {
    mass: 1000,
    inertia: 1000,
    a: 1000,
    b: 0,
    c: 0,
    metres: 100,
    gradient: 0,
};

/// The row of a step, with a counter of its own.
fn row_with<L: Ledger>(numbers: StepNumbers, blank: Blank) -> Option<StepRow>
    requires in_range { IsInRange numbers }
    requires name { blank.name ≡ L.name }
    requires parts { blank.parts ≡ L.parts }
    requires some { 0 < L.parts }
{
    let mut steps = Steps::<L>::new(blank);
    StepRow::make(numbers, &mut steps).ok()
}

fn row(numbers: StepNumbers) -> Option<StepRow>
    requires { IsInRange numbers }
{
    row_with::<Brand>(numbers, Blank::new(1))
}

#[test]
fn work_of_a_level_step(rt: HostRuntime) {
    let Some(row) = row(LEVEL) else {
        panic!(rt; "a level step without drag is refused");
    };
    // speed at the entry, speed at the exit, work
    const WORKS: &[(u16, u16, i128)] = &[
        (0, 800, 6_600_000_000_000),
        (800, 0, -6_200_000_000_000),
        (0, 1000, 10_200_000_000_000),
        (0, 0, 200_000_000_000),
        (142, 0, -1_640_000_000),
        (141, 0, 1_190_000_000),
    ];
    for &(v0, v1, work) in WORKS {
        assert!(rt; row.work(v0, v1) == work);
        assert!(rt; row.short_work(v0, v1) as i128 == work);
        assert!(rt; row.up(v1) - row.down(v0) == work);
    }
    assert!(rt; row.metres() == 100);
    assert!(rt; row.force_work(51_000) == 10_200_000_000_000);
}

#[test]
fn forces_over_a_level_step(rt: HostRuntime) {
    let Some(row) = row(LEVEL) else {
        panic!(rt; "a level step without drag is refused");
    };
    // 1,000 N do 200,000,000,000 over the step: a work, whether they pull it, whether they hold it
    const FORCES: &[(i64, bool, bool)] = &[
        (200_000_000_000, true, true),
        (200_000_000_001, false, true),
        (-200_000_000_000, true, true),
        (-200_000_000_001, true, false),
    ];
    for &(work, pulled, held) in FORCES {
        assert!(rt; row.is_pulled(work, 1000) == pulled);
        assert!(rt; row.is_held(work, 1000) == held);
    }
}

#[test]
fn work_uphill_and_in_the_wind(rt: HostRuntime) {
    let hill = StepNumbers {
        gradient: 600,
        ..LEVEL
    };
    let wind = StepNumbers {
        b: 3,
        c: 5,
        ..LEVEL
    };
    let (Some(uphill), Some(windy)) = (row(hill), row(wind)) else {
        panic!(rt; "a step with a small drag is refused");
    };
    assert!(rt; uphill.work(0, 1) == 11_972_010_000_000);
    // 10^7 * (20^2 - 10^2) + 100 * (2 * 10^9 + 2000 * 3 * 20 + 5 * (10^2 + 20^2))
    assert!(rt; windy.work(10, 20) == 203_012_250_000);
}

#[test]
fn drag_below_the_kinetic_energy(rt: HostRuntime) {
    for (metres, made) in [(100, false), (99, true)] {
        let numbers = StepNumbers {
            inertia: 1,
            c: 100,
            metres,
            ..LEVEL
        };
        assert!(rt; row(numbers).is_some() == made, "{metres} m");
    }
}
