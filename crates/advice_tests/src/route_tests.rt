//! The command `route`.

use crate::runs::{
    Ended, advice_part, plain, put_file, run_words, run_words_offered, run_words_twice,
};
use std::alloc::{AllocError, Global};
use std::test::Fail;

/// A level step of 100 m with a limit of 1,000 cm/s.
const LEVEL: &str = "100 0 1000";

/// The text of a route with this traction in N, this latest time in s, and these steps.
fn route_of(
    alloc: Global,
    traction: u32,
    latest: u32,
    steps: &[&str],
) -> Result<String, AllocError> {
    let mut text = format!(in alloc;
        "route 1\ntrain 1000 1000 1000 0 0\ntop 1000\ntraction {traction}\nbrake 100000\nlatest {latest}\n"
    )?;
    for step in steps {
        text.push_str("step ")?;
        text.push_str(*step)?;
        text.push_str("\n")?;
    }
    text.push_str("end\n")?;
    Ok(text)
}

/// What `route` leaves over a file with these bytes.
fn route_ended(alloc: Global, text: &[u8]) -> Result<Ended, AllocError> {
    let mut setting = plain(alloc);
    put_file(alloc, &mut setting.files, "a.route", text)?;
    run_words(alloc, &["route", "a.route"], setting)
}

#[test]
fn routes_are_answered(rt: HostRuntime) -> Result<(), Fail> {
    let alloc = rt.alloc();
    const CASES: &[(u32, u32, &[&str], u8, &str)] = &[
        (
            51_000,
            50,
            &[LEVEL, LEVEL],
            0,
            "advice 1\ngap met\nenergy 6600000000000\nkilojoules 3300\nbound 6599679787200\ncells 1002\nsplits 999\nphase 0 100 part 0 800\nphase 100 200 brake 800 0\ntime 200 50000 50000\n",
        ),
        (
            51_000,
            50,
            &["100 -600 1000", "100 -600 1000"],
            0,
            "advice 1\ngap met\nenergy 0\nkilojoules 0\nbound 0\ncells 920\nsplits 917\nphase 0 200 brake 0 0\ntime 200 43574 50000\n",
        ),
        (
            51_000,
            39,
            &[LEVEL, LEVEL],
            5,
            "advice 1\nlate 200 40000 39000\n",
        ),
        (
            18_821,
            67,
            &[LEVEL, LEVEL],
            5,
            "advice 1\nlate 200 67002 67000\n",
        ),
        (
            51_000,
            50,
            &["100 600 1000", "100 600 1000"],
            4,
            "advice 1\nno drive\n",
        ),
        (
            51_000,
            60,
            &[LEVEL, LEVEL, LEVEL],
            0,
            "advice 1\ngap met\nenergy 7255840000000\nkilojoules 3628\nbound 7224408070205\ncells 643\nsplits 639\nphase 0 200 part 0 828\nphase 200 300 brake 828 0\ntime 300 59991 60000\n",
        ),
        (51_000, 50, &[LEVEL], 3, "refused route range 8\n"),
    ];
    for &(traction, latest, steps, status, text) in CASES {
        let route = route_of(alloc, traction, latest, steps)?;
        let got = route_ended(alloc, route.as_bytes())?;
        assert!(rt; got.status == status, "{route}");
        assert!(rt; advice_part(got.text.as_str()) == text, "{route}");
    }
    Ok(())
}

/// A box that is handed to the program is asked: its offer costs less than each member of the family, and the report's drive at most as much.
#[test]
fn a_better_offer_is_printed(rt: HostRuntime) -> Result<(), Fail> {
    let alloc = rt.alloc();
    let route = route_of(alloc, 51_000, 60, &[LEVEL, LEVEL, LEVEL])?;
    let mut setting = plain(alloc);
    put_file(alloc, &mut setting.files, "a.route", route.as_bytes())?;
    let got = run_words_offered(alloc, &["route", "a.route"], setting, &[0, 840, 828, 0])?;
    let (_, behind) = got
        .text
        .as_str()
        .split_once("\nenergy ")
        .expect(&rt, "an energy");
    let (energy, _) = behind.split_once("\n").expect(&rt, "a line behind it");
    let energy = energy.parse::<u64>().expect(&rt, "a number");
    assert!(rt; energy <= 7_256_000_000_000, "{energy}");
    Ok(())
}

/// The steps of a route, and the status and the report of its plan.
fn phased(case: u32) -> (&'static [&'static str], u8, &'static str) {
    match case {
        // The last limit is lower than the rest.
        0 => (
            &[LEVEL, LEVEL, "100 0 989"],
            0,
            "advice 1\ngap met\nenergy 7255840000000\nkilojoules 3628\nbound 7219788965516\ncells 643\nsplits 639\nphase 0 200 part 0 828\nphase 200 300 brake 828 0\ntime 300 59991 60000\n",
        ),
        // Up to a speed below the limit, with less traction than there is; 2,324.445 kJ.
        _ => (
            &["100 0 999", "100 0 999"],
            0,
            "advice 1\ngap met\nenergy 4648890000000\nkilojoules 2325\nbound 4644446666660\ncells 1001\nsplits 998\nphase 0 100 part 0 667\nphase 100 200 brake 667 0\ntime 200 59972 60000\n",
        ),
    }
}

#[test]
fn part_traction_and_begun_kilojoules_are_told(rt: HostRuntime) -> Result<(), Fail> {
    let alloc = rt.alloc();
    for case in 0..2 {
        let (steps, status, text) = phased(case);
        let route = route_of(alloc, 51_000, 60, steps)?;
        let got = route_ended(alloc, route.as_bytes())?;
        assert!(rt; got.status == status);
        assert!(rt; advice_part(got.text.as_str()) == text);
    }
    Ok(())
}

/// A route has 4,000 steps at most.
#[test]
fn routes_of_too_many_steps_are_refused(rt: HostRuntime) -> Result<(), Fail> {
    let alloc = rt.alloc();
    let steps = vec![in alloc; LEVEL; 4_001]?;
    let route = route_of(alloc, 51_000, 50, steps.as_slice())?;
    let got = route_ended(alloc, route.as_bytes())?;
    assert!(rt; got.status == 3);
    assert!(rt; got.text.as_str() == "refused route too-many-steps\n");
    Ok(())
}

/// The first run's fault is none of the second's.
#[test]
fn a_fault_of_an_earlier_run_is_not_told_again(rt: HostRuntime) -> Result<(), Fail> {
    let alloc = rt.alloc();
    let route = route_of(alloc, 51_000, 39, &[LEVEL, LEVEL])?;
    let mut failing = plain(alloc);
    put_file(alloc, &mut failing.files, "a.route", route.as_bytes())?;
    failing.failing_fetches.push(1)?;
    let got = run_words_twice(alloc, &["route", "a.route"], failing)?;
    assert!(rt; got.status == 5);
    assert!(rt; got.text.as_str() == "read fault route\nadvice 1\nlate 200 40000 39000\n");
    Ok(())
}

#[test]
fn files_that_are_no_routes_are_refused(rt: HostRuntime) -> Result<(), Fail> {
    let alloc = rt.alloc();
    const CASES: &[(&[u8], &str)] = &[
        (b"", "refused route form 1\n"),
        (b"route 2\n", "refused route form 1\n"),
        (b"\x00\xff\xfe\n\n", "refused route form 1\n"),
        (
            b"route 1\ntrain 0 1000 1000 0 0\n",
            "refused route range 2\n",
        ),
    ];
    for &(bytes, text) in CASES {
        let got = route_ended(alloc, bytes)?;
        assert!(rt; got.status == 3);
        assert!(rt; got.text.as_str() == text);
    }
    let long = vec![in alloc; b'\n'; 1_048_577]?;
    let got = route_ended(alloc, long.as_slice())?;
    assert!(rt; got.status == 3);
    assert!(rt; got.text.as_str() == "refused route too-long\n");
    let whole = vec![in alloc; b'\n'; 1_048_576]?;
    let got = route_ended(alloc, whole.as_slice())?;
    assert!(rt; got.text.as_str() == "refused route form 1\n");
    Ok(())
}

#[test]
fn words_that_ask_for_nothing_are_answered_by_the_usage(rt: HostRuntime) -> Result<(), Fail> {
    let alloc = rt.alloc();
    const CASES: &[&[&str]] = &[
        &[],
        &["route"],
        &["--help"],
        &["help"],
        &["route", "a", "b"],
        &["Route", "a"],
        &["route", "a", "--help"],
        &["route", "a", "-h"],
        &["route", "a", "--splits", "50001"],
        &["route", "a", "--tolerance"],
        &["route", "a", "--tolerance", "1001"],
        &["route", "a", "--tolerance", "+1"],
        &["route", "a", "--tolerance", ""],
        &["route", "a", "--tol", "1"],
        &["route", "a", "--tolerance=1", "--tolerance=1"],
        &["route", "-5"],
    ];
    for &words in CASES {
        let got = run_words(alloc, words, plain(alloc))?;
        assert!(rt; got.status == 2);
        assert!(rt;
            got.text.as_str()
                == "usage: advice route FILE [--splits N] [--tolerance N]\n       advice plan LINE TRAIN SERVICE [--step N] [--splits N] [--tolerance N]\n       advice check LINE TRAIN SERVICE REPORT [--step N]\n       advice session LINE TRAIN SERVICE EVENTS [--step N] [--splits N] [--tolerance N]\n       advice sample N [--splits N] [--tolerance N]\n"
        );
    }
    Ok(())
}

#[test]
fn faults_are_told(rt: HostRuntime) -> Result<(), Fail> {
    let alloc = rt.alloc();
    let absent = run_words(alloc, &["route", "absent"], plain(alloc))?;
    assert!(rt; absent.status == 6);
    assert!(rt; absent.text.as_str() == "read fault route\n");

    let route = route_of(alloc, 51_000, 50, &[LEVEL, LEVEL])?;
    let mut failing = plain(alloc);
    put_file(alloc, &mut failing.files, "a.route", route.as_bytes())?;
    failing.failing_fetches.push(1)?;
    let failed = run_words(alloc, &["route", "a.route"], failing)?;
    assert!(rt; failed.status == 6);

    let mut short = plain(alloc);
    put_file(alloc, &mut short.files, "a.route", route.as_bytes())?;
    short.piece = 10;
    short.failing_puts.push(2)?;
    let broken = run_words(alloc, &["route", "a.route"], short)?;
    assert!(rt; broken.status == 7);
    assert!(rt; broken.text.as_str() == "advice 1\ng");

    let mut full = plain(alloc);
    put_file(alloc, &mut full.files, "a.route", route.as_bytes())?;
    full.room = 12;
    let filled = run_words(alloc, &["route", "a.route"], full)?;
    assert!(rt; filled.status == 7);
    assert!(rt; filled.text.as_str() == "advice 1\ngap");
    Ok(())
}

#[test]
fn options_stand_anywhere(rt: HostRuntime) -> Result<(), Fail> {
    let alloc = rt.alloc();
    let route = route_of(alloc, 51_000, 50, &[LEVEL, LEVEL])?;
    const CASES: &[(&[&str], u8)] = &[
        (
            &["route", "a.route", "--tolerance", "1000", "--splits", "0"],
            0,
        ),
        (&["route", "--tolerance=1000", "--splits=0", "a.route"], 0),
        (
            &[
                "route",
                "--splits=0",
                "--tolerance",
                "0000001000",
                "--",
                "a.route",
            ],
            0,
        ),
        (&["route", "--splits=0", "--", "a.route"], 1),
        (&["route", "a.route", "--tolerance=0"], 1),
    ];
    for &(words, status) in CASES {
        let mut setting = plain(alloc);
        put_file(alloc, &mut setting.files, "a.route", route.as_bytes())?;
        let got = run_words(alloc, words, setting)?;
        assert!(rt; got.status == status, "{}", words[1]);
    }
    Ok(())
}
