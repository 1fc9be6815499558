//! Costate certificates of a short run, each with one place changed.

use crate::routes::{SLOWER_TWO_STEPS, rules_of};
use costate_bound::costs_cover_work;
use costate_checker::{Field, Refused, check};
use costate_text::{CertFault, read, write};
use drive_rules::{Rule, Rules};
use rail_base::Traction;
use std::alloc::Global;
use std::process::Abort;
use std::test::Fail;

/// The lines of a certificate behind its title, and how it is answered; none where it is certified.
const CASES: &[(&str, Option<Refused>)] = &[
    (
        "points 3\nenergy 3776040000000\nbound 3764035312412\nprices 106744794\nspeeds 0 598 0\ncostates 64000 0\n",
        None,
    ),
    (
        "points 3\nenergy 3776040000000\nbound 3764035312411\nprices 106744794\nspeeds 0 598 0\ncostates 64000 0\n",
        Some(Refused::Number(Field::Bound)),
    ),
    (
        "points 3\nenergy 3776040000000\nbound 3764248802000\nprices 106744794\nspeeds 0 598 0\ncostates 64000 0\n",
        Some(Refused::Number(Field::Bound)),
    ),
    (
        "points 3\nenergy 3776040000001\nbound 3764035312412\nprices 106744794\nspeeds 0 598 0\ncostates 64000 0\n",
        Some(Refused::Number(Field::Energy)),
    ),
    (
        "points 3\nenergy 3776040000000\nbound 3764035312412\nprices 106744794 0\nspeeds 0 598 0\ncostates 64000 0\n",
        Some(Refused::Number(Field::Prices)),
    ),
    (
        "points 4\nenergy 3776040000000\nbound 3764035312412\nprices 106744794\nspeeds 0 598 598 0\ncostates 64000 0 0\n",
        Some(Refused::Number(Field::Points)),
    ),
    (
        "points 3\nenergy 3776040000000\nbound 3764035312412\nprices 106744794\nspeeds 0 597 0\ncostates 64000 0\n",
        Some(Refused::Drive(Rule::Late, 2)),
    ),
    (
        "points 3\nenergy 3776040000000\nbound 3764035312412\nprices 106744794\nspeeds 0 1001 0\ncostates 64000 0\n",
        Some(Refused::Drive(Rule::Limit, 0)),
    ),
    (
        "points 3\nenergy 3776040000000\nbound 3764035312412\nprices 106744794\nspeeds 0 598 0\ncostates 64001 0\n",
        Some(Refused::Number(Field::Bound)),
    ),
    (
        "points 3\nenergy 3776040000000\nbound 0\nprices 0\nspeeds 0 598 0\ncostates 0 0\n",
        None,
    ),
    (
        "points 3\nenergy 3776040000000\nbound -2136921815408\nprices 256000000\nspeeds 0 598 0\ncostates 70000 -5000\n",
        None,
    ),
    (
        "points 3\nenergy 3776040000000\nbound -11140046815408\nprices 256000000\nspeeds 0 598 0\ncostates 64000 64000\n",
        None,
    ),
];

/// The lines of a text behind its title, and why it is refused.
const TEXTS: &[(&str, CertFault)] = &[
    ("points 1\n", CertFault::Range(2)),
    (
        "points 3\nenergy 1\nbound 0\nprices 0\nspeeds 0 598\n",
        CertFault::Range(6),
    ),
    (
        "points 3\nenergy 1\nbound 0\nprices 0\nspeeds 0 598 00\n",
        CertFault::Form(6),
    ),
    (
        "points 3\nenergy 1\nbound 0\nprices 0\nspeeds\n",
        CertFault::Form(6),
    ),
    (
        "points 3\nenergy 1\nbound 0\nprices 0\nspeeds 0 12001 0\n",
        CertFault::Range(6),
    ),
    (
        "points 3\nenergy 1\nbound 0\nprices 0\nspeeds 0 1 0\ncostates 4194305 0\n",
        CertFault::Range(7),
    ),
    (
        "points 3\nenergy 1\nbound 0\nprices 0\nspeeds 0 1 0\ncostates 0 0 0\n",
        CertFault::Range(7),
    ),
    (
        "points 3\nenergy 1\nbound 0\nprices 0\nspeeds 0 1 0\ncostates 4194304 -4194304\nend\n",
        CertFault::Form(9),
    ),
];

/// The answer to a certificate with these lines.
fn answer(rt: &impl Abort, alloc: Global, rules: &Rules, lines: &str) -> Option<Refused> {
    let text = format!(in alloc; "costate 1\n{lines}end\n").expect(rt, "the text fits");
    let certificate = read(alloc, text.as_bytes())
        .ok()
        .expect(rt, "the text is a certificate");
    costs_cover_work();
    check(alloc, rules, &Traction, 0, &certificate).err()
}

/// Why a text with these lines is refused.
fn fault_of(rt: &impl Abort, alloc: Global, lines: &str) -> Option<CertFault> {
    let text = format!(in alloc; "costate 1\n{lines}end\n").expect(rt, "the text fits");
    read(alloc, text.as_bytes()).err()
}

#[test]
fn hostile_certificates(rt: HostRuntime) -> Result<(), Fail> {
    let alloc = rt.alloc();
    let rules = rules_of(alloc, SLOWER_TWO_STEPS)?;
    for &(lines, refused) in CASES {
        assert!(rt; answer(&rt, alloc, &rules, lines) == refused, "{lines}");
    }
    for &(lines, fault) in TEXTS {
        assert!(rt; fault_of(&rt, alloc, lines) == Some(fault), "{lines}");
    }
    Ok(())
}

#[test]
fn one_text(rt: HostRuntime) -> Result<(), Fail> {
    let text =
        b"costate 1\npoints 2\nenergy 66\nbound -20\nprices 0\nspeeds 0 5\ncostates -7\nend\n";
    let certificate = read(rt.alloc(), text.as_slice())
        .ok()
        .ok_or("the text is a certificate")?;
    let written = write(rt.alloc(), &certificate)?;
    assert!(rt; written.as_slice() == text.as_slice());
    Ok(())
}
