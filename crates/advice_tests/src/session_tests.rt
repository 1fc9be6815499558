//! The command `session`: events one after another, over two level steps of 100 m.

use crate::check_tests::{LINE, REPORT, SERVICE, TRAIN};
use crate::runs::{Ended, plain, put_file, run_words};
use std::alloc::{AllocError, Global};
use std::test::Fail;

/// What a session with these options over these events leaves, where the fetches of these numbers fail.
fn ended(alloc: Global, splits: &str, events: &str, fails: &[u32]) -> Result<Ended, AllocError> {
    let mut setting = plain(alloc);
    put_file(alloc, &mut setting.files, "l", LINE.as_bytes())?;
    put_file(alloc, &mut setting.files, "t", TRAIN.as_bytes())?;
    put_file(alloc, &mut setting.files, "s", SERVICE.as_bytes())?;
    put_file(alloc, &mut setting.files, "e", events.as_bytes())?;
    setting.failing_fetches = Vec::from_slice(alloc, fails)?;
    let words = ["session", "l", "t", "s", "e", "--splits", splits];
    run_words(alloc, &words, setting)
}

/// A work site makes the train late, and once it is lifted, the plan is that of a run without it.
#[test]
fn a_work_site(rt: HostRuntime) -> Result<(), Fail> {
    let alloc = rt.alloc();
    let events =
        "restrict works 0 100 700\nadvise\nlift works\nadvise\nlift works\nrestrict works 0 100 700\nrestrict works 0 50 700\nend\n";
    let got = ended(alloc, "0", events, &[])?;
    assert!(rt; got.status == 0);
    let wanted = format!(in alloc;
        "ok\nadvice 1\nlate 200 57144 50000\nok\n{REPORT}refused no-such-name\nok\nrefused name-taken\n"
    )?;
    assert!(rt; got.text.as_str() == wanted.as_str());
    Ok(())
}

/// A train under way, for which a work site leaves no drive, coasts to its stop.
#[test]
fn a_train_under_way(rt: HostRuntime) -> Result<(), Fail> {
    let alloc = rt.alloc();
    let events =
        "at 50 900 10\nrestrict works 0 200 800\nadvise\nlift works\nadvise\nat 40 0 20\nlatest 150 60\nend\n";
    let got = ended(alloc, "2000", events, &[])?;
    assert!(rt; got.status == 0);
    let text = got.text.as_str();
    assert!(rt;
        text.starts_with(
            "ok\nok\nadvice 1\nno drive\nok\nadvice 1\ngap met\nenergy 0\nkilojoules 0\nbound 0\n"
        )
    );
    assert!(rt; text.ends_with("end\nrefused behind\nrefused outside\n"));
    Ok(())
}

/// A file of events that isn't one, and one that can't be read.
#[test]
fn events_that_are_refused(rt: HostRuntime) -> Result<(), Fail> {
    let alloc = rt.alloc();
    const CASES: &[(&str, &[u32], u8, &str)] = &[
        ("advise\nhalt\nend\n", &[], 3, "refused events form 2\n"),
        ("advise\n", &[], 3, "refused events form 2\n"),
        ("end\n", &[4], 6, "read fault events\n"),
    ];
    for &(events, fails, status, text) in CASES {
        let got = ended(alloc, "0", events, fails)?;
        assert!(rt; got.status == status);
        assert!(rt; got.text.as_str() == text);
    }
    Ok(())
}
