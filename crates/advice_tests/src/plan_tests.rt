//! The command `plan`.

use crate::runs::{Ended, advice_part, plain, put_file, run_words};
use std::alloc::{AllocError, Global};
use std::test::Fail;

const USAGE: &str =
    "usage: advice route FILE [--splits N] [--tolerance N]\n       advice plan LINE TRAIN SERVICE [--step N] [--splits N] [--tolerance N]\n       advice check LINE TRAIN SERVICE REPORT [--step N]\n       advice session LINE TRAIN SERVICE EVENTS [--step N] [--splits N] [--tolerance N]\n       advice sample N [--splits N] [--tolerance N]\n";

const LINE: &str = "kind,from,to,value\nlimit,0,200,36\ngradient,0,200,0\n";

const TRAIN: &str =
    "mass = 1000\ninertia = 1000\na = 1000\nb = 0\nc = 0\ntraction = [[0, 51000], [1000, 51000]]\nbrake = [[0, 100000], [1000, 100000]]\n";

const SERVICE: &str = "place,name,dwell,latest\n0,A,,\n200,B,,50\n";

/// What `plan` leaves over three files with these texts, with these further words.
fn plan_ended<'a>(
    alloc: Global,
    line: &str,
    train: &str,
    service: &str,
    more: &[&'a str],
) -> Result<Ended, AllocError> {
    let mut setting = plain(alloc);
    put_file(alloc, &mut setting.files, "l", line.as_bytes())?;
    put_file(alloc, &mut setting.files, "t", train.as_bytes())?;
    put_file(alloc, &mut setting.files, "s", service.as_bytes())?;
    let mut words: Vec<&'a str> = Vec::new(alloc);
    for word in ["plan", "l", "t", "s"] {
        words.push(word)?;
    }
    for word in more {
        words.push(*word)?;
    }
    run_words(alloc, words.as_slice(), setting)
}

#[test]
fn files_are_joined_and_planned(rt: HostRuntime) -> Result<(), Fail> {
    let alloc = rt.alloc();
    const LONG: &str = "kind,from,to,value\nlimit,0,400,36\ngradient,0,400,0\n";
    const CASES: &[(&str, &str, u8, &str)] = &[
        (
            LINE,
            SERVICE,
            0,
            "advice 1\ngap met\nenergy 6600000000000\nkilojoules 3300\nbound 6599679787200\ncells 1002\nsplits 999\nphase 0 100 part 0 800\nphase 100 200 brake 800 0\ntime 200 50000 50000\n",
        ),
        (
            LONG,
            "place,name,dwell,latest\n0,A,,\n200,B,30,\n400,C,,110\n",
            0,
            "advice 1\ngap met\nenergy 20400000000000\nkilojoules 10200\nbound 20320080000000\ncells 515\nsplits 510\nphase 0 100 power 0 1000\nphase 100 200 brake 1000 0\nphase 200 300 power 0 1000\nphase 300 400 brake 1000 0\ntime 400 110000 110000\n",
        ),
        (
            LONG,
            "place,name,dwell,latest\n0,A,,\n200,B,30,\n400,C,,109\n",
            5,
            "advice 1\nlate 400 110000 109000\n",
        ),
        (
            LINE,
            "place,name,dwell,latest\n0,A,,\n100,M,,20\n200,B,,200\n",
            0,
            "advice 1\ngap met\nenergy 10200000000000\nkilojoules 5100\nbound 10200000000000\ncells 1002\nsplits 999\nphase 0 100 power 0 1000\nphase 100 200 brake 1000 0\ntime 100 20000 20000\ntime 200 40000 200000\n",
        ),
    ];
    for &(line, service, status, text) in CASES {
        let got = plan_ended(alloc, line, TRAIN, service, &[])?;
        assert!(rt; got.status == status, "{service}");
        assert!(rt; advice_part(got.text.as_str()) == text, "{service}");
    }
    Ok(())
}

#[test]
fn a_limit_holds_until_the_tail_is_out(rt: HostRuntime) -> Result<(), Fail> {
    let alloc = rt.alloc();
    let line = "kind,from,to,value\nlimit,0,100,18\nlimit,100,300,36\ngradient,0,300,0\n";
    const LONG_TRAIN: &str =
        "length = 100\nmass = 1000\ninertia = 1000\na = 1000\nb = 0\nc = 0\ntraction = [[0, 51000], [1000, 51000]]\nbrake = [[0, 100000], [1000, 100000]]\n";
    // The short train runs at 500 and then 1000 cm/s, the long one at 500 cm/s all the way.
    const CASES: &[(&str, &str, &str)] = &[
        (
            TRAIN,
            "place,name,dwell,latest\n0,A,,\n300,B,,73\n",
            "advice 1\nlate 300 73334 73000\n",
        ),
        (
            LONG_TRAIN,
            "place,name,dwell,latest\n0,A,,\n300,B,,99\n",
            "advice 1\nlate 300 100000 99000\n",
        ),
    ];
    for &(train, service, text) in CASES {
        let got = plan_ended(alloc, line, train, service, &[])?;
        assert!(rt; got.status == 5, "{service}");
        assert!(rt; got.text.as_str() == text, "{service}");
    }
    Ok(())
}

#[test]
fn line_files_are_refused_by_their_role(rt: HostRuntime) -> Result<(), Fail> {
    let alloc = rt.alloc();
    const CASES: &[(&str, &str)] = &[
        ("", "refused line bad-header\n"),
        ("kind,from,to,value\n", "refused line no-sections\n"),
        (
            "kind,from,to,value\nlimit,0,100,36\nlimit,101,200,36\n",
            "refused line gap 2\n",
        ),
    ];
    for &(line, text) in CASES {
        let got = plan_ended(alloc, line, TRAIN, SERVICE, &[])?;
        assert!(rt; got.status == 3, "{line}");
        assert!(rt; got.text.as_str() == text, "{line}");
    }
    Ok(())
}

#[test]
fn train_files_are_refused_by_their_role(rt: HostRuntime) -> Result<(), Fail> {
    let alloc = rt.alloc();
    const CASES: &[(&str, &str)] = &[
        (
            "version = 2\nregeneration = 500\nlength = 1001\nmass = 1000\ninertia = 1000\na = 1000\nb = 0\nc = 0\n",
            "refused train out-of-range length\n",
        ),
        (
            "mass = 1000\ninertia = 1000\na = 1000\nb = 0\nc = 0\ntraction = [[0, 51000], [500, 50000], [1000, 50001]]\nbrake = [[0, 100000], [1000, 100000]]\n",
            "refused train table-rises traction 3\n",
        ),
        ("mass = 1.5\n", "refused train wrong-kind mass\n"),
    ];
    for &(train, text) in CASES {
        let got = plan_ended(alloc, LINE, train, SERVICE, &[])?;
        assert!(rt; got.status == 3, "{train}");
        assert!(rt; got.text.as_str() == text, "{train}");
    }
    Ok(())
}

#[test]
fn service_files_are_refused_by_their_role_or_the_rules(rt: HostRuntime) -> Result<(), Fail> {
    let alloc = rt.alloc();
    const CASES: &[(&str, &str)] = &[
        (
            "place,name,dwell,latest\n0,A,,\n200,B,,\n",
            "refused service no-final-latest\n",
        ),
        (
            "place,name,dwell,latest\n0,A,,\n40,X,20,\n200,B,,50\n",
            "refused rules stops-too-close 2\n",
        ),
        (
            "place,name,dwell,latest\n0,A,,\n201,B,,50\n",
            "refused rules outside 2\n",
        ),
    ];
    for &(service, text) in CASES {
        let got = plan_ended(alloc, LINE, TRAIN, service, &[])?;
        assert!(rt; got.status == 3, "{service}");
        assert!(rt; got.text.as_str() == text, "{service}");
    }
    Ok(())
}

#[test]
fn files_are_read_in_the_order_of_the_words(rt: HostRuntime) -> Result<(), Fail> {
    let alloc = rt.alloc();
    let absent = run_words(alloc, &["plan", "absent.csv", "t", "s"], plain(alloc))?;
    assert!(rt; absent.status == 6);
    assert!(rt; absent.text.as_str() == "read fault line\n");
    let mut half = plain(alloc);
    put_file(alloc, &mut half.files, "l", LINE.as_bytes())?;
    let no_train = run_words(alloc, &["plan", "l", "t", "s"], half)?;
    assert!(rt; no_train.text.as_str() == "read fault train\n");
    for words in [
        ["plan", "a", "b"].as_slice(),
        ["plan", "a", "b", "c", "--step", "9"].as_slice(),
    ] {
        let got = run_words(alloc, words, plain(alloc))?;
        assert!(rt; got.status == 2);
        assert!(rt; got.text.as_str() == USAGE);
    }
    let wide = plan_ended(
        alloc,
        LINE,
        TRAIN,
        SERVICE,
        &["--step=1000", "--tolerance=1000"],
    )?;
    assert!(rt; wide.text.as_str() == "refused rules stops-too-close 2\n");
    Ok(())
}

/// The 40 km files: CRLF ends and quoted names.
#[test]
fn forty_kilometres_are_planned(rt: HostRuntime) -> Result<(), Fail> {
    let alloc = rt.alloc();
    let line =
        "\"kind\",\"from\",\"to\",\"value\"\r\nlimit,0,2000,60\r\nlimit,2000,38000,100\r\nlimit,38000,40000,60\r\ngradient,0,15000,30\r\ngradient,15000,25000,-40\r\ngradient,25000,40000,0\r\n";
    let train =
        "mass = 4000\ninertia = 4200\na = 4000\nb = 30\nc = 800\ntraction = [[0, 250000], [1500, 250000], [4000, 100000]]\nbrake = [[0, 300000], [4000, 300000]]\n";
    let service =
        "place,name,dwell,latest\r\n0,\"Alder\",,\r\n12000,\"Birch\",60,\r\n27000,\"Cedar Halt\",60,\r\n40000,\"Dale\",,2400\r\n";
    let got = plan_ended(alloc, line, train, service, &["--step", "200"])?;
    assert!(rt; got.status == 1);
    assert!(rt; got.text.as_str().starts_with("advice 1\ngap open\nenergy "));
    let (mut points, mut stands) = (0u32, 0u32);
    for line in got.text.as_str().split('\n') {
        if line.starts_with("point ") {
            points = points.saturating_add(1);
        }
        if line.starts_with("point 0 ") {
            stands = stands.saturating_add(1);
        }
    }
    assert!(rt; points == 201, "points");
    assert!(rt; stands == 4, "calls");
    Ok(())
}

/// Joined rules have 4,000 steps at most.
#[test]
fn rules_of_too_many_steps_are_refused(rt: HostRuntime) -> Result<(), Fail> {
    let alloc = rt.alloc();
    let line = "kind,from,to,value\nlimit,0,40010,36\ngradient,0,40010,0\n";
    let service = "place,name,dwell,latest\n0,A,,\n40010,B,,9000\n";
    let got = plan_ended(alloc, line, TRAIN, service, &["--step", "10"])?;
    assert!(rt; got.status == 3);
    assert!(rt; got.text.as_str() == "refused rules too-many-steps\n");
    Ok(())
}
