//! The rules of two small runs: of two level steps, and of a level line of 400 m with a call in its middle.
ghost use Rattle.std.specs.Prelude.{◌≡◌, ◌<◌, IfSome};
ghost use Rattle.line_file.specs.Shape.{IsLine, IsService};
ghost use Rattle.train_file.specs.Shape.{IsTrain};

use drive_rules::{RouteFault, Rules, Setup, read_route};
use line_file::{Line, Service, read_line, read_service};
use std::alloc::Global;
use std::marker::Brand;
use std::sync::ledger::{Blank, Ledger};
use step_energy::Steps;
use train_file::{Train, read_train};

/// A level line of 400 m with a limit of 1,000 cm/s.
pub const LINE: &[u8] = b"kind,from,to,value\nlimit,0,400,36\ngradient,0,400,0\n";

/// A train of 50 m.
const TRAIN: &[u8] =
    b"mass = 1000\ninertia = 1000\na = 1000\nb = 0\nc = 0\nlength = 50\ntraction = [[0, 51000], [1000, 51000]]\nbrake = [[0, 100000], [1000, 100000]]\n";

/// A call of 30 s in the middle, and one at the end after at most 130 s.
const SERVICE: &[u8] = b"place,name,dwell,latest\n0,A,,\n200,B,30,\n400,C,,130\n";

/// The line of a text, if it is one.
pub fn line_of(alloc: Global, text: &[u8]) -> Option<Line>
    ensures { IfSome result IsLine }
{
    match read_line(alloc, text) {
        Ok(line) => Some(line),
        Err(_) => None,
    }
}

/// The train of a text, if it is one.
pub fn train_of(alloc: Global, text: &[u8]) -> Option<Train>
    ensures { IfSome result IsTrain }
{
    match read_train(alloc, text) {
        Ok(train) => Some(train),
        Err(_) => None,
    }
}

/// The service of a text, if it is one.
pub fn service_of(alloc: Global, text: &[u8]) -> Option<Service>
    ensures { IfSome result IsService }
{
    match read_service(alloc, text) {
        Ok(service) => Some(service),
        Err(_) => None,
    }
}

/// The rules of the line in steps of 100 m, with a counter of its own.
fn joined_with<L: Ledger>(alloc: Global, blank: Blank) -> Option<Rules>
    requires name { blank.name ≡ L.name }
    requires parts { blank.parts ≡ L.parts }
    requires some { 0 < L.parts }
{
    let mut steps = Steps::<L>::new(blank);
    let line = line_of(alloc, LINE)?;
    let train = train_of(alloc, TRAIN)?;
    let service = service_of(alloc, SERVICE)?;
    let setup = Setup::fresh(alloc, 100, &service);
    match Rules::make(alloc, &line, &train, &service, &setup, &mut steps) {
        Ok(rules) => Some(rules),
        Err(_) => None,
    }
}

/// The rules of the line in steps of 100 m.
pub fn joined_rules(alloc: Global) -> Option<Rules> {
    joined_with::<Brand>(alloc, Blank::new(1))
}

/// The rules of a route's text, with a counter of its own.
fn read_with<L: Ledger>(alloc: Global, text: &[u8], blank: Blank) -> Result<Rules, RouteFault>
    requires name { blank.name ≡ L.name }
    requires parts { blank.parts ≡ L.parts }
    requires some { 0 < L.parts }
{
    let mut steps = Steps::<L>::new(blank);
    read_route(alloc, text, &mut steps)
}

/// The rules of a route's text.
pub fn route_rules(alloc: Global, text: &[u8]) -> Result<Rules, RouteFault> {
    read_with::<Brand>(alloc, text, Blank::new(1))
}
