//! Joined rules over tables of files and setups.

ghost use Rattle.std.specs.Prelude.{◌≡◌, ◌<◌, ◌≤◌, IfSome};
ghost use Rattle.line_file.specs.Shape.{IsLine, IsService};
ghost use Rattle.train_file.specs.Shape.{IsTrain};
ghost use Rattle.joined_rules.specs.Joined.{IsSetup};

use force_table::{ForceTable, SpeedTable};
use joined_rules::{RulesFault, Setup, Stretch, join};
use line_file::{Line, Service, read_line, read_service};
use rule_parts::Parts;
use std::alloc::Global;
use std::marker::Brand;
use std::sync::ledger::{Blank, Ledger};
use step_energy::Steps;
use train_file::Train;

/// A level line of 200 m with one limit, and one of 400 m.
const LINE: &[u8] = b"kind,from,to,value\nlimit,0,200,36\ngradient,0,200,0\n";

const LONG_LINE: &[u8] = b"kind,from,to,value\nlimit,0,400,36\ngradient,0,400,0\n";

/// A stretch that lowers no limit.
const NO_STRETCH: Stretch = Stretch {
    from: 0,
    to: 1_000_000,
    limit: 12_000,
};

/// A train of so many metres with constant forces.
fn train_with(alloc: Global, c: u32, metres: u32) -> Option<Train>
    requires drag { c ≤ 10000000 }
    requires short { metres ≤ 1000 }
    ensures { IfSome result IsTrain }
{
    let traction = ForceTable::make(alloc, &[(0, 51_000), (1000, 51_000)]).ok()?;
    let brake = ForceTable::make(alloc, &[(0, 100_000), (1000, 100_000)]).ok()?;
    traction.top();
    brake.top();
    Some(Train {
        version: 1,
        mass: 1000,
        inertia: 1000,
        a: 1000,
        b: 0,
        c,
        length: metres,
        regeneration: 0,
        traction,
        brake,
    })
}

/// Steps of 100 m from a place, speed and clock on, with one stretch.
fn setup_at(
    alloc: Global,
    service: &Service,
    place: u32,
    speed: u16,
    clock: u32,
    stretch: Stretch,
) -> Option<Setup>
    requires { IsService service.now }
    ensures { IfSome result (IsSetup service.now) }
{
    let calls = service.calls.items();
    let is_on_service = calls[0].place <= place && place < calls[calls.len() - 1].place;
    let is_stretch = stretch.from < stretch.to && 1 <= stretch.limit && stretch.limit <= 12_000;
    if !is_on_service || !is_stretch || speed > 12_000 || clock > 172_800 {
        return None;
    }
    let mut setup = Setup::fresh(alloc, 100, service);
    setup.place = place;
    setup.speed = speed;
    setup.clock = clock;
    setup.stretches.push(stretch).ok()?;
    Some(setup)
}

/// Joins with a counter of its own.
fn join_with<L: Ledger>(
    alloc: Global,
    line: &Line,
    train: &Train,
    service: &Service,
    setup: &Setup,
    blank: Blank,
) -> Result<Parts, RulesFault>
    requires name { blank.name ≡ L.name }
    requires parts { blank.parts ≡ L.parts }
    requires some { 0 < L.parts }
    requires line { IsLine line.now }
    requires train { IsTrain train.now }
    requires service { IsService service.now }
    requires setup { IsSetup service.now setup.now }
{
    let mut steps = Steps::<L>::new(blank);
    join(alloc, line, train, service, setup, &mut steps)
}

/// Joins files and a setup.
fn join_files(
    alloc: Global,
    line: &Line,
    train: &Train,
    service: &Service,
    setup: &Setup,
) -> Result<Parts, RulesFault>
    requires line { IsLine line.now }
    requires train { IsTrain train.now }
    requires service { IsService service.now }
    requires setup { IsSetup service.now setup.now }
{
    join_with::<Brand>(alloc, line, train, service, setup, Blank::new(1))
}

/// Joins two texts, a train with this drag and length, and a setup.
fn join_texts(
    alloc: Global,
    line: &[u8],
    c: u32,
    metres: u32,
    service: &[u8],
    place: u32,
    speed: u16,
    clock: u32,
    stretch: Stretch,
) -> Option<Result<Parts, RulesFault>>
    requires drag { c ≤ 10000000 }
    requires short { metres ≤ 1000 }
{
    let Ok(line) = read_line(alloc, line) else {
        return None;
    };
    let Ok(service) = read_service(alloc, service) else {
        return None;
    };
    let train = train_with(alloc, c, metres)?;
    let setup = setup_at(alloc, &service, place, speed, clock, stretch)?;
    let rules = join_files(alloc, &line, &train, &service, &setup);
    Some(rules)
}

/// Whether the rules have these places, limits, stops, dwells and timing points.
fn has(
    parts: &Parts,
    places: &[u32],
    limits: &[u16],
    stops: &[bool],
    dwells: &[u32],
    timings: &[(u32, i64)],
) -> bool {
    parts.places.as_slice() == places
        && parts.limits.as_slice() == limits
        && parts.stops.as_slice() == stops
        && parts.dwells.as_slice() == dwells
        && parts.timings.len() == timings.len()
        && parts
            .timings
            .iter()
            .zip(timings)
            .all(|(t, wanted)| t.point == wanted.0 && t.latest == wanted.1)
}

#[test]
fn joins_the_example(rt: HostRuntime) {
    let service: &[u8] = b"place,name,dwell,latest\n0,A,,\n200,B,,50\n";
    let Some(Ok(rules)) = join_texts(rt.alloc(), LINE, 0, 0, service, 0, 0, 0, NO_STRETCH) else {
        panic!(rt; "the example cannot be joined");
    };
    assert!(rt;
        has(
            &rules,
            &[0, 100, 200],
            &[1000, 1000],
            &[false, false, true],
            &[0, 0, 0],
            &[(2, 50_000)]
        )
    );
}

#[test]
fn joins_from_a_place_on(rt: HostRuntime) {
    let line: &[u8] = b"kind,from,to,value\nlimit,0,240,36\nlimit,240,400,18\ngradient,0,400,0\n";
    let service: &[u8] =
        b"place,name,dwell,latest\n0,A,7,\n100,M,20,30\n200,B,30,70\n400,C,9,110\n";
    let stretch = Stretch {
        from: 210,
        to: 240,
        limit: 700,
    };
    let Some(Ok(rules)) = join_texts(rt.alloc(), line, 0, 0, service, 100, 900, 20, stretch) else {
        panic!(rt; "the example cannot be joined");
    };
    assert!(rt;
        has(
            &rules,
            &[100, 200, 240, 300, 400],
            &[1000, 700, 500, 500],
            &[false, true, false, false, true],
            &[0, 30_000, 0, 0, 0],
            &[(1, 50_000), (4, 90_000)]
        )
    );
}

#[test]
fn limits_hold_until_the_tail_is_out(rt: HostRuntime) {
    let line: &[u8] =
        b"kind,from,to,value\nlimit,0,50,9\nlimit,50,100,18\nlimit,100,600,36\ngradient,0,600,0\n";
    let service: &[u8] = b"place,name,dwell,latest\n0,A,,\n600,B,,300\n";
    let stretch = Stretch {
        from: 130,
        to: 160,
        limit: 700,
    };
    let Some(Ok(rules)) = join_texts(rt.alloc(), line, 0, 150, service, 120, 900, 0, stretch) else {
        panic!(rt; "the example cannot be joined");
    };
    // The tail leaves 50 at 200, 100 at 250 and 160 at 310.
    assert!(rt; rules.train_length == 150);
    assert!(rt;
        has(
            &rules,
            &[120, 200, 300, 400, 500, 600],
            &[250, 500, 700, 1000, 1000],
            &[false, false, false, false, false, true],
            &[0, 0, 0, 0, 0, 0],
            &[(5, 300_000)]
        )
    );
}

#[test]
fn refuses_in_order(rt: HostRuntime) {
    let far: &[u8] = b"place,name,dwell,latest\n0,A,,\n200,B,30,\n500,C,,110\n";
    let close: &[u8] = b"place,name,dwell,latest\n0,A,,\n40,X,20,\n200,B,,50\n";
    let near: &[u8] = b"place,name,dwell,latest\n0,A,,\n200,B,30,\n300,C,,110\n";
    let apart: &[u8] = b"place,name,dwell,latest\n0,A,,\n200,B,30,\n400,C,,110\n";
    // drag, service, speed, refusal
    let cases: [(u32, &[u8], u16, Option<RulesFault>); 6] = [
        (0, far, 0, Some(RulesFault::Outside(3))),
        (0, close, 0, Some(RulesFault::StopsTooClose(2))),
        (0, close, 1, None),
        (0, near, 0, Some(RulesFault::StopsTooClose(3))),
        (100_000, apart, 0, Some(RulesFault::DragTooGreat(0))),
        (99_999, apart, 0, None),
    ];
    for (c, service, speed, wanted) in cases {
        let fault = match join_texts(
            rt.alloc(),
            LONG_LINE,
            c,
            0,
            service,
            0,
            speed,
            0,
            NO_STRETCH,
        ) {
            Some(Ok(_)) => None,
            Some(Err(fault)) => Some(fault),
            None => Some(RulesFault::NoMemory),
        };
        assert!(rt; fault == wanted);
    }
}
