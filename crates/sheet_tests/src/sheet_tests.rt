//! Reports that are shown, and reports that are refused.

use crate::runs::run_words;
use std::test::Fail;

const LINE: &str = "kind,from,to,value\nlimit,0,200,36\ngradient,0,200,0\n";

const TRAIN: &str =
    "mass = 1000\ninertia = 1000\na = 1000\nb = 0\nc = 0\ntraction = [[0, 51000], [1000, 51000]]\nbrake = [[0, 100000], [1000, 100000]]\n";

/// A name that a picture must not take for its own signs.
const SERVICE: &str = "place,name,dwell,latest\n0,A&B <1>,,\n200,C,,50\n";

/// A certificate whose bound was computed by hand.
const REPORT: &str =
    "costate 1\npoints 3\nenergy 6600000000000\nbound 6599488000000\nprices 256000000\nspeeds 0 800 0\ncostates 64000 0\nend\n";

/// The same drive with a bound by cells, as `advice` prints it.
const REPORT_BY_CELLS: &str =
    "certificate 1\npoints 3\nenergy 6600000000000\nbound 200010000000\nprices 0\npoint 0 0 0=200010000000\npoint 800 1000 1=0\npoint 0 0 0=0\nend\n";

/// The timetable of the drive: 50 s, and 6.6 MJ of energy, which are 0.917 kWh.
const TIMETABLE: &str =
    "       km    arrival  departure     latest      slack  call\n    0.000              00:00:00                        A&B <1>\n    0.200   00:00:50              00:00:50   00:00:00  C\n\nrunning time    00:00:50\nenergy              0.92 kWh        3300 kJ\nbound               0.91 kWh        3299 kJ\ncould be saved      0.01 per cent at most\nhold               0.000 km\npower              0.000 km\ncoast              0.000 km\nbrake              0.100 km\npart               0.100 km\n";

#[test]
fn a_drive_is_shown_in_each_form(rt: HostRuntime) -> Result<(), Fail> {
    let alloc = rt.alloc();
    let files = [
        ("l", LINE),
        ("t", TRAIN),
        ("s", SERVICE),
        ("r", REPORT),
        ("c", REPORT_BY_CELLS),
    ];
    let timetable = run_words(alloc, &["l", "t", "s", "r"], &files)?;
    assert!(rt; timetable.text.as_str() == TIMETABLE);
    assert!(rt; timetable.status == 0);
    let points = run_words(alloc, &["l", "t", "s", "c", "--form", "points"], &files)?;
    assert!(rt;
        points
            .text
            .as_str()
            .ends_with("\n200,0,0.000,50.000,,,,,0.92\n")
    );
    let picture = run_words(alloc, &["l", "t", "s", "c", "--form", "svg"], &files)?;
    assert!(rt;
        picture
            .text
            .as_str()
            .contains(">A&amp;B &lt;1&gt; 00:00:00<")
    );
    assert!(rt; !picture.text.as_str().contains("<1>"));
    let usage = run_words(alloc, &["l", "t", "s", "c", "--form", "pdf"], &files)?;
    assert!(rt; usage.status == 2);
    Ok(())
}

#[test]
fn reports_are_shown_or_refused_as_a_check_refuses_them(rt: HostRuntime) -> Result<(), Fail> {
    let alloc = rt.alloc();
    let cases = [
        ("energy 66", "energy 67", "number energy"),
        ("speeds 0 800 0", "speeds 0 799 0", "drive late 2"),
        ("speeds 0 800 0", "speeds 0 1001 0", "drive limit 0"),
        ("points 3", "points 2", "range 6"),
        ("prices 256000000", "prices 256000000 0", "number prices"),
        ("costate 1\n", "", "form 1"),
    ];
    for (old, new, words) in cases {
        let report = REPORT.replace(alloc, old, new)?;
        let files = [
            ("l", LINE),
            ("t", TRAIN),
            ("s", SERVICE),
            ("r", report.as_str()),
        ];
        let got = run_words(alloc, &["l", "t", "s", "r"], &files)?;
        let wanted = format!(in alloc; "refused certificate {words}\n")?;
        assert!(rt; got.text == wanted);
        assert!(rt; got.status == 9);
    }
    Ok(())
}
