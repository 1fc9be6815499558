//! The search on a small route, against the least of all drives on time, which a search over every list of speeds found.

ghost use Rattle.std.specs.Prelude.{◌≡◌, ◌<◌, IfSome};
ghost use Rattle.phase_composer.specs.Best.{IsKeptDrive};

use crate::routes::rules_of;
use drive_rules::{Drive, Judged, Rules};
use drive_search::search_drive;
use phase_composer::Kept;
use rail_base::{StepCost, Traction};
use std::alloc::Global;
use std::test::Fail;

/// Four level steps of 100 m to a stop.
const ROUTE: &str =
    "route 1\ntrain 1000 1000 1000 0 0\ntop 1000\ntraction 51000\nbrake 100000\nlatest 90\nstep 100 0 1000\nstep 100 0 1000\nstep 100 0 1000\nstep 100 0 1000\nend\n";

/// A drive with its cost, where it is on time.
fn kept_of<C: StepCost>(rules: &Rules, cost: &C, drive: Drive) -> Option<Kept>
    ensures { IfSome result (λ kept. IsKeptDrive (C.cost cost.now) rules.now kept.drive kept.cost) }
{
    match rules.judge(drive.speeds(), cost) {
        Judged::Kept { cost } => Some(Kept { drive, cost }),
        Judged::Broken(..) => None,
    }
}

#[test]
fn finds_the_least_drive(rt: HostRuntime) -> Result<(), Fail> {
    let alloc = rt.alloc();
    let rules = rules_of(alloc, ROUTE.as_bytes())?;
    let fast = Drive::make(alloc, &[0, 1000, 1000, 1000, 0])?;
    let mut best = kept_of(&rules, &Traction, fast).ok_or("late")?;
    let prices = search_drive(alloc, &rules, &Traction, &mut best)?;
    assert!(rt; best.cost == 4_853_390_000_000);
    assert!(rt; prices.len() == 1);
    Ok(())
}
