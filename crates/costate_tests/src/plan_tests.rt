//! The commands `plan` and `route`.

use crate::check_tests::{LINE, SERVICE, TRAIN};
use crate::runs::{Ended, run_words};
use std::alloc::{AllocError, Global};
use std::test::Fail;

/// The report of the run over these files, to be there in 50 s.
const PLAN: &str =
    "advice 1\ngap met\nenergy 6600000000000\nkilojoules 3300\nbound 6598955599328\nphase 0 100 part 0 800\nphase 100 200 brake 800 0\ntime 200 50000 50000\ncostate 1\npoints 3\nenergy 6600000000000\nbound 6598955599328\nprices 253652353\nspeeds 0 800 0\ncostates 64000 0\nend\n";

/// What `plan` leaves over these files and this service.
fn plan_ended(alloc: Global, service: &str) -> Result<Ended, AllocError> {
    let files = [("l", LINE), ("t", TRAIN), ("s", service)];
    run_words(alloc, &["plan", "l", "t", "s"], &files)
}

#[test]
fn a_plan_is_advice_and_a_certificate(rt: HostRuntime) -> Result<(), Fail> {
    let got = plan_ended(rt.alloc(), SERVICE)?;
    assert!(rt; got.text.as_str() == PLAN);
    assert!(rt; got.status == 0);
    Ok(())
}

#[test]
fn a_service_that_no_drive_keeps_is_late(rt: HostRuntime) -> Result<(), Fail> {
    let got = plan_ended(rt.alloc(), "place,name,dwell,latest\n0,A,,\n200,B,,39\n")?;
    assert!(rt; got.text.as_str() == "advice 1\nlate 200 40000 39000\n");
    assert!(rt; got.status == 5);
    Ok(())
}

#[test]
fn downhill_the_bound_meets_the_energy(rt: HostRuntime) -> Result<(), Fail> {
    let alloc = rt.alloc();
    let route =
        "route 1\ntrain 1000 1000 1000 0 0\ntop 1000\ntraction 51000\nbrake 100000\nlatest 50\nstep 100 -600 1000\nstep 100 -600 1000\nend\n";
    let got = run_words(alloc, &["route", "r", "--tolerance", "0"], &[("r", route)])?;
    assert!(rt;
        got.text
            .as_str()
            .starts_with("advice 1\ngap met\nenergy 0\nkilojoules 0\nbound 0\n")
    );
    assert!(rt; got.status == 0);
    Ok(())
}

/// By 300 steps of 10 m the bound comes within 50 per mille of the energy.
#[test]
fn many_short_steps(rt: HostRuntime) -> Result<(), Fail> {
    let line = "kind,from,to,value\nlimit,0,3000,36\ngradient,0,3000,0\n";
    let service = "place,name,dwell,latest\n0,A,,\n3000,B,,400\n";
    let files = [("l", line), ("t", TRAIN), ("s", service)];
    let words = ["plan", "l", "t", "s", "--step", "10", "--tolerance", "50"];
    let got = run_words(rt.alloc(), &words, &files)?;
    assert!(rt; got.text.as_str().starts_with("advice 1\ngap met\n"));
    assert!(rt; got.status == 0);
    Ok(())
}
