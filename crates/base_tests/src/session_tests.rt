//! Events of a session on a small example: 200 m of a level line, from one call to another.
ghost use Rattle.std.specs.Prelude.{◌≡◌, ◌<◌};

use crate::small_rules::{line_of, service_of, train_of};
use advice_session::{Event, Session, SessionFault};
use std::alloc::Global;
use std::marker::Brand;
use std::sync::ledger::{Blank, Ledger};
use step_energy::Steps;

const LINE: &[u8] = b"kind,from,to,value\nlimit,0,200,36\ngradient,0,200,0\n";

const TRAIN: &[u8] =
    b"mass = 1000\ninertia = 1000\na = 1000\nb = 0\nc = 0\ntraction = [[0, 51000], [1000, 51000]]\nbrake = [[0, 100000], [1000, 100000]]\n";

const SERVICE: &[u8] = b"place,name,dwell,latest\n0,A,,\n200,B,,50\n";

/// The session of the example at its start.
fn started<L: Ledger>(alloc: Global, steps: &mut Steps<L>) -> Option<Session> {
    let line = line_of(alloc, LINE)?;
    let train = train_of(alloc, TRAIN)?;
    let service = service_of(alloc, SERVICE)?;
    match Session::start(alloc, &line, &train, &service, 100, steps) {
        Ok(session) => Some(session),
        Err(_) => None,
    }
}

/// The limit of the first step, cm/s.
fn first_limit(session: &Session) -> u16 {
    let rules = session.rules();
    rules.steps();
    rules.limit(0)
}

/// Whether a work site lowers the limit while it stands, and is refused as it should be.
fn is_work_site_kept<L: Ledger>(alloc: Global, blank: Blank) -> Option<bool>
    requires name { blank.name ≡ L.name }
    requires parts { blank.parts ≡ L.parts }
    requires some { 0 < L.parts }
{
    let mut steps = Steps::<L>::new(blank);
    let mut session = started(alloc, &mut steps)?;
    let stands = session.restrict("works", 0, 100, 700, &mut steps).is_ok();
    let lowered = first_limit(&session) == 700;
    let taken = session.restrict("works", 0, 100, 700, &mut steps);
    let lifted = session.lift("works", &mut steps).is_ok();
    let raised = first_limit(&session) == 1_000;
    let gone = session.lift("works", &mut steps);
    let later = session.latest(200, 60, &mut steps).is_ok();
    let answers = taken == Err(SessionFault::NameTaken) && gone == Err(SessionFault::NoSuchName);
    Some(stands && lowered && lifted && raised && later && answers)
}

fn counted_work_site(alloc: Global) -> Option<bool> {
    is_work_site_kept::<Brand>(alloc, Blank::new(1))
}

#[test]
fn work_site(rt: HostRuntime) {
    assert!(rt; counted_work_site(rt.alloc()) == Some(true));
}

/// Whether a train goes on from place to place, and never back.
fn is_under_way<L: Ledger>(alloc: Global, blank: Blank) -> Option<bool>
    requires name { blank.name ≡ L.name }
    requires parts { blank.parts ≡ L.parts }
    requires some { 0 < L.parts }
{
    let mut steps = Steps::<L>::new(blank);
    let mut session = started(alloc, &mut steps)?;
    let stands = session.restrict("works", 0, 200, 800, &mut steps).is_ok();
    let event = Event::At {
        place: 50,
        speed: 900,
        clock: 10,
    };
    let between = session.apply(&event, &mut steps).is_ok();
    let lowered = first_limit(&session) == 800;
    let behind = session.at(40, 0, 20, &mut steps);
    let on_a_point = session.at(100, 900, 20, &mut steps).is_ok();
    let lifted = session.lift("works", &mut steps).is_ok();
    let close = session.at(100, 0, 20, &mut steps);
    let nowhere = session.latest(150, 60, &mut steps);
    let answers = behind == Err(SessionFault::Behind)
        && close == Err(SessionFault::StopsTooClose)
        && nowhere == Err(SessionFault::Outside);
    Some(stands && between && lowered && on_a_point && lifted && answers)
}

fn counted_way(alloc: Global) -> Option<bool> {
    is_under_way::<Brand>(alloc, Blank::new(1))
}

#[test]
fn under_way(rt: HostRuntime) {
    assert!(rt; counted_way(rt.alloc()) == Some(true));
}
