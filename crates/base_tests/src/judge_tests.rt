//! The judge and the readers of rules on worked numbers.

use crate::small_rules::{joined_rules, route_rules};
use drive_rules::{Drive, Judged, Rule, Rules};
use force_table::SpeedTable;
use rail_base::{Regained, Traction};
use std::alloc::Global;

/// The route of two level steps with the traction that just suffices for 1,000 cm/s.
const ROUTE: &[u8] =
    b"route 1\ntrain 1000 1000 1000 0 0\ntop 1000\ntraction 51000\nbrake 100000\nlatest 50\nstep 100 0 1000\nstep 100 0 1000\nend\n";

/// The same with 1 N less.
const WEAK_ROUTE: &[u8] =
    b"route 1\ntrain 1000 1000 1000 0 0\ntop 1000\ntraction 50999\nbrake 100000\nlatest 50\nstep 100 0 1000\nstep 100 0 1000\nend\n";

/// The same with a traction that reaches 597 cm/s, and more time.
const SLOW_ROUTE: &[u8] =
    b"route 1\ntrain 1000 1000 1000 0 0\ntop 1000\ntraction 18821\nbrake 100000\nlatest 67\nstep 100 0 1000\nstep 100 0 1000\nend\n";

/// What the rules of a route, and a copy of them, say of speeds, where both say the same.
fn judged_alike(alloc: Global, text: &[u8], speeds: &[u16]) -> Option<Judged> {
    let Ok(rules) = route_rules(alloc, text) else {
        return None;
    };
    let drive = Drive::make(alloc, speeds).ok()?;
    let judged = rules.judge(drive.speeds(), &Traction);
    let copy = rules.copy(alloc).ok()?;
    if copy.judge(speeds, &Traction) == judged {
        Some(judged)
    } else {
        None
    }
}

#[test]
fn judges_the_route_of_two_steps(rt: HostRuntime) {
    const CASES: &[(&[u8], &[u16], Judged)] = &[
        (
            ROUTE,
            &[0, 800, 0],
            Judged::Kept {
                cost: 6_600_000_000_000,
            },
        ),
        (
            ROUTE,
            &[0, 1000, 0],
            Judged::Kept {
                cost: 10_200_000_000_000,
            },
        ),
        (ROUTE, &[0, 0, 0], Judged::Broken(Rule::Standing, 1)),
        (ROUTE, &[0, 1001, 0], Judged::Broken(Rule::Limit, 0)),
        (ROUTE, &[0, 799, 0], Judged::Broken(Rule::Late, 2)),
        (ROUTE, &[0, 800], Judged::Broken(Rule::Length, 0)),
        (ROUTE, &[1, 0, 65_535], Judged::Broken(Rule::Start, 0)),
        (ROUTE, &[0, 65_535, 1], Judged::Broken(Rule::Stop, 2)),
        (WEAK_ROUTE, &[0, 1000, 0], Judged::Broken(Rule::Traction, 0)),
        (SLOW_ROUTE, &[0, 598, 0], Judged::Broken(Rule::Traction, 0)),
    ];
    for &(text, speeds, judged) in CASES {
        assert!(rt; judged_alike(rt.alloc(), text, speeds) == Some(judged));
    }
}

#[test]
fn judges_what_braking_gives_back(rt: HostRuntime) {
    let Ok(rules) = route_rules(rt.alloc(), ROUTE) else {
        panic!(rt; "the route cannot be read");
    };
    assert!(rt; rules.length() == 0);
    for (cost, energy) in [
        (Regained::nothing(), 6_600_000_000_000),
        (Regained { share: 500 }, 3_500_000_000_000),
        (Regained { share: 60_000 }, 400_000_000_000),
    ] {
        assert!(rt; rules.judge(&[0, 800, 0], &cost) == Judged::Kept { cost: energy });
    }
}

/// Whether the readers give the parts of the joined rules.
fn reads_as_joined(rules: &Rules) -> bool {
    if rules.steps() != 4 || rules.timings().len() != 1 || rules.top() != 1000 {
        return false;
    }
    let places = (rules.points(), rules.place(0), rules.place(4));
    let points = (rules.stop(1), rules.stop(2), rules.dwell(1), rules.dwell(2));
    let forces = (rules.traction().at(1000), rules.brake().at(0));
    let works = (
        rules.row(1).work(800, 0),
        rules.traction_work(0, 1000),
        rules.brake_work(1, 800),
    );
    places == (5, 0, 400)
        && points == (false, true, 0, 30_000)
        && forces == (51_000, 100_000)
        && works == (-6_200_000_000_000, 10_200_000_000_000, 20_000_000_000_000)
        && (rules.start(), rules.limit(1), rules.length()) == (0, 1000, 50)
        && rules.slack(0) == 100_000
}

#[test]
fn reads_and_judges_the_joined_rules(rt: HostRuntime) {
    let alloc = rt.alloc();
    let Some(rules) = joined_rules(alloc) else {
        panic!(rt; "the rules cannot be made");
    };
    assert!(rt; reads_as_joined(&rules));
    let Ok(copy) = rules.copy(alloc) else {
        panic!(rt; "the rules cannot be copied");
    };
    assert!(rt; reads_as_joined(&copy));
    // 25 s for each step, and 30 s at the middle
    let kept = Judged::Kept {
        cost: 13_200_000_000_000,
    };
    assert!(rt; rules.judge(&[0, 800, 0, 800, 0], &Traction) == kept);
    assert!(rt; rules.judge(&[0, 799, 0, 800, 0], &Traction) == Judged::Broken(Rule::Late, 4));
}

#[test]
fn steps_are_kept_and_idle(rt: HostRuntime) {
    let Ok(rules) = route_rules(rt.alloc(), ROUTE) else {
        panic!(rt; "the route cannot be read");
    };
    assert!(rt; rules.steps() == 2 && rules.top() == 1000);
    // speeds of a step, whether it is kept, whether it is idle
    const CASES: &[(u16, u16, bool, bool)] = &[
        (0, 1000, true, false),
        (1000, 0, true, true),
        (1000, 1001, false, false),
        (142, 0, true, true),
        (141, 0, true, false),
    ];
    for &(v0, v1, kept, idle) in CASES {
        let found = (rules.step_kept(0, v0, v1), rules.step_idle(0, v0, v1));
        assert!(rt; found == (kept, idle), "from {v0} to {v1}");
    }
    assert!(rt; rules.traction_reaches(0, 0, 1000) && rules.brakes_hold(0, 1000, 0));
}
