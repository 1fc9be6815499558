//! The rules of short routes.
ghost use Rattle.std.specs.Prelude.{◌≡◌, ◌<◌};

use drive_rules::{RouteFault, Rules, read_route};
use std::alloc::Global;
use std::marker::Brand;
use std::sync::ledger::{Blank, Ledger};
use step_energy::Steps;

/// Two level steps of 100 m, from rest to rest in 50 s.
pub(crate) const TWO_STEPS: &[u8] =
    b"route 1\ntrain 1000 1000 1000 0 0\ntop 1000\ntraction 51000\nbrake 100000\nlatest 50\nstep 100 0 1000\nstep 100 0 1000\nend\n";

/// The same, in 67 s.
pub(crate) const SLOWER_TWO_STEPS: &[u8] =
    b"route 1\ntrain 1000 1000 1000 0 0\ntop 1000\ntraction 51000\nbrake 100000\nlatest 67\nstep 100 0 1000\nstep 100 0 1000\nend\n";

/// The rules of a route's text, counted by this counter.
fn counted_rules<L: Ledger>(alloc: Global, text: &[u8], blank: Blank) -> Result<Rules, RouteFault>
    requires name { blank.name ≡ L.name }
    requires parts { blank.parts ≡ L.parts }
    requires some { 0 < L.parts }
{
    let mut steps = Steps::<L>::new(blank);
    read_route(alloc, text, &mut steps)
}

/// The rules of a route's text, with a counter of their own.
pub(crate) fn rules_of(alloc: Global, text: &[u8]) -> Result<Rules, RouteFault> {
    counted_rules::<Brand>(alloc, text, Blank::new(1))
}
