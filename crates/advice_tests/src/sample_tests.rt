//! Runs over samples.
use crate::runs::{plain, run_words, run_words_twice};
use std::test::Fail;

#[test]
fn a_sample_has_one_summary(rt: HostRuntime) -> Result<(), Fail> {
    let alloc = rt.alloc();
    let words: &[&str] = &["sample", "1", "--splits", "0"];
    let once = run_words(alloc, words, plain(alloc))?;
    assert!(rt; once.status == 0 || once.status == 1);
    assert!(rt; once.text.as_str().starts_with("sample 1\npoints 401\ngap "));
    let twice = run_words_twice(alloc, words, plain(alloc))?;
    assert!(rt; twice.status == once.status);
    assert!(rt; twice.text.len() == 2 * once.text.len());
    assert!(rt; twice.text.as_str().starts_with(once.text.as_str()));
    assert!(rt; twice.text.as_str().ends_with(once.text.as_str()));
    Ok(())
}

#[test]
fn numbers_are_printed_in_their_shortest_spelling(rt: HostRuntime) -> Result<(), Fail> {
    let alloc = rt.alloc();
    let zeros = run_words(alloc, &["sample", "007", "--splits", "0"], plain(alloc))?;
    assert!(rt; zeros.text.as_str().starts_with("sample 7\npoints 401\n"));
    let plainly = run_words(alloc, &["sample", "--splits=0", "7"], plain(alloc))?;
    assert!(rt; zeros.text.as_str() == plainly.text.as_str());
    Ok(())
}

#[test]
fn words_of_no_sample_are_answered_by_the_usage(rt: HostRuntime) -> Result<(), Fail> {
    let alloc = rt.alloc();
    const CASES: &[&[&str]] = &[
        &["sample"],
        &["sample", "1", "2"],
        &["sample", "-1"],
        &["sample", "one"],
        &["sample", "4294967296"],
        &["sample", "00000000001"],
        &["sample", "1", "--step", "100"],
    ];
    for &words in CASES {
        let got = run_words(alloc, words, plain(alloc))?;
        assert!(rt; got.status == 2);
        assert!(rt; got.text.as_str().starts_with("usage: "));
        assert!(rt;
            got.text
                .as_str()
                .ends_with("advice sample N [--splits N] [--tolerance N]\n")
        );
    }
    Ok(())
}
