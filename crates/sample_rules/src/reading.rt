//! The texts of a sample, read and joined.

ghost use Rattle.std.specs.Prelude.{◌≡◌, ◌≤◌, ◌+◌, length, IfOk};
ghost use Rattle.line_file.specs.LineText.{line_of};
ghost use Rattle.line_file.specs.ServiceText.{service_of};
ghost use Rattle.line_file.specs.Shape.{IsLine, IsService};
ghost use Rattle.train_file.specs.Shape.{IsTrain};
ghost use Rattle.train_file.specs.TrainText.{train_of};
ghost use Rattle.plan_files.specs.FreshRules.{FreshRules};
ghost use Rattle.sample_lines.specs.Texts.{line_text, service_text, train_text};
ghost use Rattle.sample_rules.specs.SampleRules.{IsSampleRules};

use drive_rules::{Rules, RulesFault, Setup};
use line_file::{Line, LineFault, Service, ServiceFault, read_line, read_service};
use sample_lines::sample;
use std::alloc::{AllocError, Global};
use std::sync::ledger::Ledger;
use step_energy::Steps;
use train_file::{Train, TrainFault, read_train};

/// The length of a step of the grid of every sample, m.
const STEP: u16 = 100;

/// What the line of a sample says.
fn line_said(alloc: Global, text: &[u8], n: u32) -> Result<Line, AllocError>
    requires { text.now ≡ line_text n }
    ensures said { IfOk result (λ line. line_of (line_text n) ≡ Ok line) }
    ensures shape { IfOk result IsLine }
{
    let _ = n;
    match read_line(alloc, text) {
        Ok(line) => Ok(line),
        Err(fault) => match fault {
            LineFault::NoMemory => Err(AllocError),
            _ => unreachable!(),
        },
    }
}

/// What the train of every sample says.
fn train_said(alloc: Global, text: &[u8]) -> Result<Train, AllocError>
    requires { text.now ≡ train_text }
    ensures said { IfOk result (λ train. train_of train_text ≡ Ok train) }
    ensures shape { IfOk result IsTrain }
{
    match read_train(alloc, text) {
        Ok(train) => Ok(train),
        Err(fault) => match fault {
            TrainFault::NoMemory => Err(AllocError),
            _ => unreachable!(),
        },
    }
}

/// What the service of every sample says.
fn service_said(alloc: Global, text: &[u8]) -> Result<Service, AllocError>
    requires { text.now ≡ service_text }
    ensures said { IfOk result (λ service. service_of service_text ≡ Ok service) }
    ensures shape { IfOk result IsService }
{
    match read_service(alloc, text) {
        Ok(service) => Ok(service),
        Err(fault) => match fault {
            ServiceFault::NoMemory => Err(AllocError),
            _ => unreachable!(),
        },
    }
}

/// The rules that a sample's line, train and service give together.
fn joined<L: Ledger>(
    alloc: Global,
    n: u32,
    line: &Line,
    train: &Train,
    service: &Service,
    steps: &mut Steps<L>,
) -> Result<Rules, AllocError>
    requires line { line_of (line_text n) ≡ Ok line.now }
    requires train { train_of train_text ≡ Ok train.now }
    requires service { service_of service_text ≡ Ok service.now }
    requires line_shape { IsLine line.now }
    requires train_shape { IsTrain train.now }
    requires service_shape { IsService service.now }
    ensures rules { IfOk result (FreshRules line.now train.now service.now 100) }
    ensures counted { IfOk result (λ rules. steps.new ≡ steps.old + length rules.steps) }
{
    let _ = n;
    let setup = Setup::fresh(alloc, STEP, service);
    match Rules::make(alloc, line, train, service, &setup, steps) {
        Ok(rules) => Ok(rules),
        Err(fault) => match fault {
            RulesFault::NoMemory => Err(AllocError),
            _ => unreachable!(),
        },
    }
}

/// The rules of sample n, by a grid of steps of 100 m: of a train that stands at the first call when the clock is 0. The only error is want
/// of memory.
///
/// It counts one step for each step of the rules.
pub fn sample_rules<L: Ledger>(
    alloc: Global,
    n: u32,
    steps: &mut Steps<L>,
) -> Result<Rules, AllocError>
    ensures rules { IfOk result (IsSampleRules n 100) }
    ensures counted { IfOk result (λ rules. steps.new ≡ steps.old + length rules.steps) }
{
    let files = sample(alloc, n)?;
    let line = line_said(alloc, files.line.as_slice(), n)?;
    let train = train_said(alloc, files.train.as_slice())?;
    let service = service_said(alloc, files.service.as_slice())?;
    joined(alloc, n, &line, &train, &service, steps)
}
