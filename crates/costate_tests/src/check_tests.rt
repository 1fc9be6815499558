//! The command `check`.

use crate::runs::run_words;
use std::test::Fail;

pub const LINE: &str = "kind,from,to,value\nlimit,0,200,36\ngradient,0,200,0\n";

pub const TRAIN: &str =
    "mass = 1000\ninertia = 1000\na = 1000\nb = 0\nc = 0\ntraction = [[0, 51000], [1000, 51000]]\nbrake = [[0, 100000], [1000, 100000]]\n";

pub const SERVICE: &str = "place,name,dwell,latest\n0,A,,\n200,B,,50\n";

/// A certificate whose bound was computed by hand.
const REPORT: &str =
    "costate 1\npoints 3\nenergy 6600000000000\nbound 6599488000000\nprices 256000000\nspeeds 0 800 0\ncostates 64000 0\nend\n";

#[test]
fn certificates_hold_or_are_refused_by_what_fails_first(rt: HostRuntime) -> Result<(), Fail> {
    let alloc = rt.alloc();
    const CASES: &[(&str, &str, u8, &str)] = &[
        (
            "",
            "",
            0,
            "certified energy 6600000000000 bound 6599488000000\n",
        ),
        (
            "bound 6599488000000",
            "bound 6599487999999",
            9,
            "refused certificate number bound\n",
        ),
        (
            "energy 66",
            "energy 67",
            9,
            "refused certificate number energy\n",
        ),
        (
            "speeds 0 800",
            "speeds 0 799",
            9,
            "refused certificate drive late 2\n",
        ),
        (
            "costates 64000 0",
            "costates 64000",
            9,
            "refused certificate range 7\n",
        ),
    ];
    for &(old, new, status, text) in CASES {
        let report = REPORT.replace(alloc, old, new)?;
        let files = [
            ("l", LINE),
            ("t", TRAIN),
            ("s", SERVICE),
            ("r", report.as_str()),
        ];
        let got = run_words(alloc, &["check", "l", "t", "s", "r"], &files)?;
        assert!(rt; got.text.as_str() == text, "{new}");
        assert!(rt; got.status == status, "{new}");
    }
    Ok(())
}
