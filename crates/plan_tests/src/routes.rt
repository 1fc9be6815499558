//! Rules of short routes.
ghost use Rattle.std.specs.Prelude.{◌≡◌, ◌<◌};

use drive_rules::{Rules, read_route};
use std::alloc::{AllocError, Global};
use std::marker::Brand;
use std::sync::ledger::{Blank, Ledger};
use step_energy::Steps;

/// A level step of 100 m with a limit of 1,000 cm/s.
pub(crate) const LEVEL: &str = "100 0 1000";

/// The rules of a route's text, with a counter of their own.
fn rules_with<L: Ledger>(alloc: Global, text: &[u8], blank: Blank) -> Option<Rules>
    requires name { blank.name ≡ L.name }
    requires parts { blank.parts ≡ L.parts }
    requires some { 0 < L.parts }
{
    let mut steps = Steps::<L>::new(blank);
    read_route(alloc, text, &mut steps).ok()
}

/// The rules of a route's text, or none where it is refused.
fn rules(alloc: Global, text: &[u8]) -> Option<Rules> {
    rules_with::<Brand>(alloc, text, Blank::new(1))
}

/// The rules of a train of 100 tonnes with this traction in N over these steps, from rest to rest within so many seconds. None where the
/// route is refused.
pub(crate) fn route(
    alloc: Global,
    traction: u32,
    latest: u32,
    steps: &[&str],
) -> Result<Option<Rules>, AllocError> {
    let mut text = format!(in alloc;
        "route 1\ntrain 1000 1000 1000 0 0\ntop 1000\ntraction {traction}\nbrake 100000\nlatest {latest}\n"
    )?;
    for step in steps {
        text.push_str("step ")?;
        text.push_str(*step)?;
        text.push_str("\n")?;
    }
    text.push_str("end\n")?;
    Ok(rules(alloc, text.as_bytes()))
}

/// The rules of two level steps within so many seconds.
pub(crate) fn two_steps(alloc: Global, latest: u32) -> Result<Option<Rules>, AllocError> {
    route(alloc, 51_000, latest, &[LEVEL, LEVEL])
}

/// The rules of three level steps within 60 s.
pub(crate) fn three_steps(alloc: Global) -> Result<Option<Rules>, AllocError> {
    route(alloc, 51_000, 60, &[LEVEL, LEVEL, LEVEL])
}
