//! Certificates of a short run: one that holds, and others that are changed in some places.

use crate::routes::{TWO_STEPS, rules_of};
use certificate_checker::{Field, Refused, check};
use drive_rules::{Rule, Rules};
use dual_certificate::{CertFault, read};
use rail_base::Traction;
use std::alloc::Global;
use std::process::Abort;
use std::test::Fail;

/// How a text is answered: by `read`, and by `check` where it is a certificate.
#[derive(Clone, Copy, PartialEq, Eq, Debug)]
enum Outcome {
    /// The certificate holds.
    Certified,
    /// The text isn't one of a certificate.
    Malformed(CertFault),
    /// The certificate doesn't hold.
    Refused(Refused),
}

/// A certificate behind its first line, which is `certificate 1`, and the answer. The first holds; each other one differs from it in one line,
/// or in as many as another one that holds needs.
const CASES: &[(&str, Outcome)] = &[
    (
        "points 3\nenergy 6600000000000\nbound 200010000000\nprices 0\npoint 0 0 0=200010000000\npoint 800 1000 1=0\npoint 0 0 0=0\nend\n",
        Outcome::Certified,
    ),
    (
        "points 3\nenergy 6600000000000\nbound 200010000000\nprices 0\npoint 0 0 0=200010000000\npoint 800 1000 1=1\npoint 0 0 0=0\nend\n",
        Outcome::Refused(Refused::Potential(1, 0, 0)),
    ),
    (
        "points 3\nenergy 6600000000000\nbound 200010000000\nprices 0\npoint 0 0 0=200010000000\npoint 800 1000 1=0\npoint 0 0 0=0\n",
        Outcome::Malformed(CertFault::Form(9)),
    ),
    (
        "points 3\nenergy 6600000000000\nbound 1\nprices 0\npoint 0 0 0=200010000000\npoint 800 1000 1=0\npoint 0 0 0=0\nend\n",
        Outcome::Refused(Refused::Number(Field::Bound)),
    ),
    (
        "points 2\nenergy 6600000000000\nbound 200010000000\nprices 0\npoint 0 0 0=200010000000\npoint 0 0 0=0\nend\n",
        Outcome::Refused(Refused::Number(Field::Points)),
    ),
    (
        "points 4\nenergy 6600000000000\nbound 200010000000\nprices 0\npoint 0 0 0=200010000000\npoint 800 1000 1=0\npoint 0 0 0=0\nend\n",
        Outcome::Malformed(CertFault::Form(9)),
    ),
    (
        "points 1\nenergy 6600000000000\nbound 200010000000\nprices 0\npoint 0 0 0=200010000000\npoint 800 1000 1=0\npoint 0 0 0=0\nend\n",
        Outcome::Malformed(CertFault::Range(2)),
    ),
    (
        "points 3\nenergy 06600000000000\nbound 200010000000\nprices 0\npoint 0 0 0=200010000000\npoint 800 1000 1=0\npoint 0 0 0=0\nend\n",
        Outcome::Malformed(CertFault::Form(3)),
    ),
    (
        "points 3\nenergy 6600000000001\nbound 200010000000\nprices 0\npoint 0 0 0=200010000000\npoint 800 1000 1=0\npoint 0 0 0=0\nend\n",
        Outcome::Refused(Refused::Number(Field::Energy)),
    ),
    (
        "points 3\nenergy 6600000000000\nbound 1267650600228229401496703205377\nprices 0\npoint 0 0 0=200010000000\npoint 800 1000 1=0\npoint 0 0 0=0\nend\n",
        Outcome::Malformed(CertFault::Range(4)),
    ),
    (
        "points 3\nenergy 6600000000000\nbound 1267650600228229401496703205376\nprices 0\npoint 0 0 0=200010000000\npoint 800 1000 1=0\npoint 0 0 0=0\nend\n",
        Outcome::Refused(Refused::Number(Field::Bound)),
    ),
    (
        "points 3\nenergy 6600000000000\nbound 200010000000\nprices 1125899906842625\npoint 0 0 0=200010000000\npoint 800 1000 1=0\npoint 0 0 0=0\nend\n",
        Outcome::Malformed(CertFault::Range(5)),
    ),
    (
        "points 3\nenergy 6600000000000\nbound 200010000000\nprices 0 0\npoint 0 0 0=200010000000\npoint 800 1000 1=0\npoint 0 0 0=0\nend\n",
        Outcome::Refused(Refused::Number(Field::Prices)),
    ),
    (
        "points 3\nenergy 6600000000000\nbound 200010000000\nprices 0\npoint 0 0 0=200010000000\npoint 799 1000 1=0\npoint 0 0 0=0\nend\n",
        Outcome::Refused(Refused::Drive(Rule::Late, 2)),
    ),
    (
        "points 3\nenergy 6600000000000\nbound 200010000000\nprices 0\npoint 0 0 0=200010000000\npoint 1001 1000 1=0\npoint 0 0 0=0\nend\n",
        Outcome::Refused(Refused::Drive(Rule::Limit, 0)),
    ),
    (
        "points 3\nenergy 6600000000000\nbound 200010000000\nprices 0\npoint 0 0 0=200010000000\npoint 800 999 1=0\npoint 0 0 0=0\nend\n",
        Outcome::Refused(Refused::Cells(1)),
    ),
    (
        "points 3\nenergy 6600000000000\nbound 200010000000\nprices 0\npoint 0 0 0=200010000000\npoint 800 1000 2=0\npoint 0 0 0=0\nend\n",
        Outcome::Refused(Refused::Cells(1)),
    ),
    (
        "points 3\nenergy 6600000000000\nbound 200010000000\nprices 0\npoint 0 0 0=200010000000\npoint 800 1000 1=0 1=0\npoint 0 0 0=0\nend\n",
        Outcome::Malformed(CertFault::Range(7)),
    ),
    (
        "points 3\nenergy 6600000000000\nbound 200010000000\nprices 0\npoint 0 0 0=200010000001\npoint 800 1000 1=0\npoint 0 0 0=0\nend\n",
        Outcome::Refused(Refused::Potential(0, 0, 0)),
    ),
    (
        "points 3\nenergy 6600000000000\nbound 200010000000\nprices 0\npoint 0 0 0=-\npoint 800 1000 1=0\npoint 0 0 0=0\nend\n",
        Outcome::Refused(Refused::Potential(0, 0, 0)),
    ),
    (
        "points 3\nenergy 6600000000000\nbound 200010000000\nprices 0\npoint 0 0 0=200010000000\npoint 800 1000 1=-\npoint 0 0 0=0\nend\n",
        Outcome::Refused(Refused::Potential(1, 0, 0)),
    ),
    (
        "points 3\nenergy 6600000000000\nbound 200010000000\nprices 0\npoint 0 0 0=200010000000\npoint 800 1000 1=0\npoint 0 0 0=1\nend\n",
        Outcome::Refused(Refused::Potential(2, 0, 0)),
    ),
    (
        "points 3\nenergy 6600000000000\nbound 0\nprices 0\npoint 0 0 0=0\npoint 800 1000 1=0\npoint 0 0 0=0\nend\n",
        Outcome::Certified,
    ),
    (
        "points 3\nenergy 6600000000000\nbound 200010000000\nprices 0\npoint 0 0 0=200010000000\npoint 800 1000 1=0 500=0\npoint 0 0 0=0\nend\n",
        Outcome::Certified,
    ),
    (
        "points 3\nenergy 6600000000000\nbound 200009990000\nprices 1\npoint 0 0 0=200010040000\npoint 800 1000 1=20000\npoint 0 0 0=0\nend\n",
        Outcome::Certified,
    ),
];

/// The answer to a certificate with these lines behind its first.
fn answer(rt: &impl Abort, alloc: Global, rules: &Rules, lines: &str) -> Outcome {
    let text = format!(in alloc; "certificate 1\n{lines}").expect(rt, "the text fits");
    match read(alloc, text.as_bytes()) {
        Err(fault) => Outcome::Malformed(fault),
        Ok(certificate) => match check(alloc, rules, &Traction, &certificate) {
            Err(refused) => Outcome::Refused(refused),
            Ok(()) => Outcome::Certified,
        },
    }
}

#[test]
fn hostile_certificates(rt: HostRuntime) -> Result<(), Fail> {
    let alloc = rt.alloc();
    let rules = rules_of(alloc, TWO_STEPS)?;
    for &(lines, expected) in CASES {
        assert!(rt; answer(&rt, alloc, &rules, lines) == expected, "{lines}");
    }
    Ok(())
}
