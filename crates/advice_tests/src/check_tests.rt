//! The command `check`, and trains that regain energy.

use crate::runs::{Ended, advice_part, plain, put_file, run_words};
use std::alloc::{AllocError, Global};
use std::test::Fail;

pub const LINE: &str = "kind,from,to,value\nlimit,0,200,36\ngradient,0,200,0\n";

pub const TRAIN: &str =
    "mass = 1000\ninertia = 1000\na = 1000\nb = 0\nc = 0\ntraction = [[0, 51000], [1000, 51000]]\nbrake = [[0, 100000], [1000, 100000]]\n";

/// The same train, half of whose work of braking is given back.
const REGAINING: &str =
    "version = 2\nregeneration = 500\nmass = 1000\ninertia = 1000\na = 1000\nb = 0\nc = 0\ntraction = [[0, 51000], [1000, 51000]]\nbrake = [[0, 100000], [1000, 100000]]\n";

pub const SERVICE: &str = "place,name,dwell,latest\n0,A,,\n200,B,,50\n";

/// The report of a plan without a split.
pub const REPORT: &str =
    "advice 1\ngap open\nenergy 6600000000000\nkilojoules 3300\nbound 200010000000\ncells 3\nsplits 0\nphase 0 100 part 0 800\nphase 100 200 brake 800 0\ntime 200 50000 50000\ncertificate 1\npoints 3\nenergy 6600000000000\nbound 200010000000\nprices 0\npoint 0 0 0=200010000000\npoint 800 1000 1=0\npoint 0 0 0=0\nend\n";

/// What a run with these words leaves over a line, this train, a service and this report.
fn ended(
    alloc: Global,
    train: &str,
    service: &str,
    report: &str,
    words: &[&str],
) -> Result<Ended, AllocError> {
    let mut setting = plain(alloc);
    put_file(alloc, &mut setting.files, "l", LINE.as_bytes())?;
    put_file(alloc, &mut setting.files, "t", train.as_bytes())?;
    put_file(alloc, &mut setting.files, "s", service.as_bytes())?;
    put_file(alloc, &mut setting.files, "r", report.as_bytes())?;
    run_words(alloc, words, setting)
}

#[test]
fn a_report_carries_its_certificate(rt: HostRuntime) -> Result<(), Fail> {
    let alloc = rt.alloc();
    let got = ended(
        alloc,
        TRAIN,
        SERVICE,
        "",
        &["plan", "l", "t", "s", "--splits", "0"],
    )?;
    assert!(rt; got.status == 1);
    assert!(rt; got.text.as_str() == REPORT);
    Ok(())
}

#[test]
fn what_a_plan_prints_is_certified(rt: HostRuntime) -> Result<(), Fail> {
    let alloc = rt.alloc();
    for train in [TRAIN, REGAINING] {
        let planned = ended(alloc, train, SERVICE, "", &["plan", "l", "t", "s"])?;
        let got = ended(
            alloc,
            train,
            SERVICE,
            planned.text.as_str(),
            &["check", "l", "t", "s", "r"],
        )?;
        assert!(rt; got.status == 0);
        assert!(rt; got.text.as_str().starts_with("certified energy "));
    }
    Ok(())
}

#[test]
fn certificates_are_refused_by_what_fails_first(rt: HostRuntime) -> Result<(), Fail> {
    let alloc = rt.alloc();
    const CASES: &[(&str, &str, u8, &str)] = &[
        (
            "",
            "",
            0,
            "certified energy 6600000000000 bound 200010000000\n",
        ),
        ("1=0\n", "1=1\n", 9, "refused certificate potential 1 0 0\n"),
        ("end\n", "", 9, "refused certificate form 9\n"),
        (
            "bound 200010000000\nprices",
            "bound 1\nprices",
            9,
            "refused certificate number bound\n",
        ),
        (
            "points 3\n",
            "points 1\n",
            9,
            "refused certificate range 2\n",
        ),
        (
            "point 800 ",
            "point 799 ",
            9,
            "refused certificate drive late 2\n",
        ),
        (
            "certificate 1\n",
            "certificate 2\n",
            9,
            "refused certificate form 1\n",
        ),
    ];
    for &(old, new, status, text) in CASES {
        let report = REPORT.replace(alloc, old, new)?;
        let got = ended(
            alloc,
            TRAIN,
            SERVICE,
            report.as_str(),
            &["check", "l", "t", "s", "r"],
        )?;
        assert!(rt; got.status == status, "{new}");
        assert!(rt; got.text.as_str() == text, "{new}");
    }
    Ok(())
}

/// The first certificate of a report counts, and what stands before it isn't read.
#[test]
fn of_two_certificates_the_first_is_checked(rt: HostRuntime) -> Result<(), Fail> {
    let alloc = rt.alloc();
    let wrong = REPORT.replace(alloc, "energy 6600000000000\nbound", "energy 1\nbound")?;
    let both = format!(in alloc; "{wrong}{REPORT}")?;
    let got = ended(
        alloc,
        TRAIN,
        SERVICE,
        both.as_str(),
        &["check", "l", "t", "s", "r"],
    )?;
    assert!(rt; got.status == 9);
    assert!(rt; got.text.as_str() == "refused certificate form 10\n");
    let behind = format!(in alloc; "any words\n{REPORT}")?;
    let found = ended(
        alloc,
        TRAIN,
        SERVICE,
        behind.as_str(),
        &["check", "l", "t", "s", "r"],
    )?;
    assert!(rt; found.status == 0);
    Ok(())
}

#[test]
fn what_ends_a_check_before_the_certificate(rt: HostRuntime) -> Result<(), Fail> {
    let alloc = rt.alloc();
    const CASES: &[(&str, &[&str], u8, &str)] = &[
        (
            SERVICE,
            &["check", "l", "t", "s", "absent"],
            6,
            "read fault report\n",
        ),
        (
            "place,name,dwell,latest\n0,A,,\n201,B,,50\n",
            &["check", "l", "t", "s", "r"],
            3,
            "refused rules outside 2\n",
        ),
        (
            SERVICE,
            &["check", "l", "t", "t", "r"],
            3,
            "refused service bad-header\n",
        ),
    ];
    for &(service, words, status, text) in CASES {
        let got = ended(alloc, TRAIN, service, "no report", words)?;
        assert!(rt; got.status == status, "{text}");
        assert!(rt; got.text.as_str() == text);
    }
    for words in [
        ["check", "l", "t", "s"].as_slice(),
        ["check", "l", "t", "s", "r", "--splits", "1"].as_slice(),
        ["check", "l", "t", "s", "r", "--step", "9"].as_slice(),
    ] {
        let got = ended(alloc, TRAIN, SERVICE, REPORT, words)?;
        assert!(rt; got.status == 2);
    }
    Ok(())
}

#[test]
fn a_train_regains_energy(rt: HostRuntime) -> Result<(), Fail> {
    let alloc = rt.alloc();
    let got = ended(
        alloc,
        REGAINING,
        SERVICE,
        "",
        &["plan", "l", "t", "s", "--splits", "0"],
    )?;
    assert!(rt; got.status == 1);
    assert!(rt;
        advice_part(got.text.as_str())
            == "advice 1\ngap open\nenergy 3500000000000\nkilojoules 1750\nregeneration 500\ntraction 6600000000000\nbound -4699990000000\ncells 3\nsplits 0\nphase 0 100 part 0 800\nphase 100 200 brake 800 0\ntime 200 50000 50000\n"
    );
    // A train that gives nothing back has another energy.
    let other = ended(
        alloc,
        REGAINING,
        SERVICE,
        REPORT,
        &["check", "l", "t", "s", "r"],
    )?;
    assert!(rt; other.status == 9);
    assert!(rt; other.text.as_str() == "refused certificate number energy\n");
    Ok(())
}

/// Downhill all that braking takes is given back: every drive costs the same, and less than nothing.
#[test]
fn an_energy_below_zero(rt: HostRuntime) -> Result<(), Fail> {
    let alloc = rt.alloc();
    let train =
        "version = 2\nregeneration = 1000\nmass = 1000\ninertia = 1000\na = 1000\nb = 0\nc = 0\ntraction = [[0, 51000], [1000, 51000]]\nbrake = [[0, 100000], [1000, 100000]]\n";
    let mut setting = plain(alloc);
    put_file(
        alloc,
        &mut setting.files,
        "l",
        b"kind,from,to,value\nlimit,0,200,36\ngradient,0,200,-200\n",
    )?;
    put_file(alloc, &mut setting.files, "t", train.as_bytes())?;
    put_file(
        alloc,
        &mut setting.files,
        "s",
        b"place,name,dwell,latest\n0,A,,\n200,B,,70\n",
    )?;
    let got = run_words(alloc, &["plan", "l", "t", "s"], setting)?;
    assert!(rt; got.status == 0);
    assert!(rt;
        got.text.as_str().starts_with(
            "advice 1\ngap met\nenergy -7448000000000\nkilojoules -3724\nregeneration 1000\ntraction 6276000000000\nbound -7"
        )
    );
    Ok(())
}

#[test]
fn versions_of_train_files(rt: HostRuntime) -> Result<(), Fail> {
    let alloc = rt.alloc();
    const CASES: &[(&str, u8, &str)] = &[
        ("version = 3\n", 3, "refused train out-of-range version\n"),
        ("version = 2\n", 3, "refused train missing regeneration\n"),
        ("version = 1\nregeneration = \"x\"\n", 1, REPORT),
    ];
    for &(front, status, text) in CASES {
        let train = format!(in alloc; "{front}{TRAIN}")?;
        let got = ended(
            alloc,
            train.as_str(),
            SERVICE,
            "",
            &["plan", "l", "t", "s", "--splits", "0"],
        )?;
        assert!(rt; got.status == status, "{front}");
        assert!(rt; got.text.as_str() == text, "{front}");
    }
    Ok(())
}
