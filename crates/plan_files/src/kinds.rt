//! Kinds of files.

ghost use Rattle.std.specs.Prelude.{ℕ, length};

use crate::fault_words::{line_words, route_words, service_words, train_words};
use command_files::FileRole;
use drive_rules::{RouteFault, Rules, read_route};
use line_file::{Line, LineFault, Service, ServiceFault, read_line, read_service};
use std::alloc::{AllocError, Global};
use std::sync::ledger::Ledger;
use step_energy::Steps;
use train_file::{Train, TrainFault, read_train};

/// The bytes of such a file, at most.
const MOST_BYTES: usize = 1_048_576;

/// A route file: the rules of a run.
#[derive(Clone, Copy)]
pub struct RouteFile;

impl FileRole for RouteFile {
    ghost use Rattle.std.specs.Prelude.{⊤};
    ghost use Rattle.route_file.specs.declared.fault.RouteFault.TheVariants.{NoMemory};
    ghost use Rattle.plan_files.specs.Kinds.{route_kind};

    type Said = Rules;

    type Fault = RouteFault;

    ghost kind = { route_kind };

    ghost no_memory = { NoMemory };

    ghost shape = { λ _. ⊤ };

    ghost steps_of = { λ rules. length rules.steps };

    fn role() -> &'static [u8] {
        b"route"
    }

    fn most() -> usize {
        MOST_BYTES
    }

    fn read<L: Ledger>(
        alloc: Global,
        text: &[u8],
        steps: &mut Steps<L>,
    ) -> Result<Rules, RouteFault> {
        read_route(alloc, text, steps)
    }

    fn words(alloc: Global, fault: RouteFault) -> Result<Vec<u8>, AllocError> {
        route_words(alloc, fault)
    }
}

/// A line file.
#[derive(Clone, Copy)]
pub struct LineFile;

impl FileRole for LineFile {
    ghost use Rattle.line_file.specs.Shape.{IsLine};
    ghost use Rattle.line_file.specs.declared.line.LineFault.TheVariants.{NoMemory};
    ghost use Rattle.plan_files.specs.Kinds.{line_kind};

    type Said = Line;

    type Fault = LineFault;

    ghost kind = { line_kind };

    ghost no_memory = { NoMemory };

    ghost shape = { IsLine };

    ghost steps_of = { λ _. 0 };

    fn role() -> &'static [u8] {
        b"line"
    }

    fn most() -> usize {
        MOST_BYTES
    }

    fn read<L: Ledger>(
        alloc: Global,
        text: &[u8],
        _steps: &mut Steps<L>,
    ) -> Result<Line, LineFault> {
        read_line(alloc, text)
    }

    fn words(alloc: Global, fault: LineFault) -> Result<Vec<u8>, AllocError> {
        line_words(alloc, fault)
    }
}

/// A train file.
#[derive(Clone, Copy)]
pub struct TrainFile;

impl FileRole for TrainFile {
    ghost use Rattle.train_file.specs.Shape.{IsTrain};
    ghost use Rattle.train_file.specs.declared.fault.TrainFault.TheVariants.{NoMemory};
    ghost use Rattle.plan_files.specs.Kinds.{train_kind};

    type Said = Train;

    type Fault = TrainFault;

    ghost kind = { train_kind };

    ghost no_memory = { NoMemory };

    ghost shape = { IsTrain };

    ghost steps_of = { λ _. 0 };

    fn role() -> &'static [u8] {
        b"train"
    }

    fn most() -> usize {
        MOST_BYTES
    }

    fn read<L: Ledger>(
        alloc: Global,
        text: &[u8],
        _steps: &mut Steps<L>,
    ) -> Result<Train, TrainFault> {
        read_train(alloc, text)
    }

    fn words(alloc: Global, fault: TrainFault) -> Result<Vec<u8>, AllocError> {
        train_words(alloc, fault)
    }
}

/// A service file.
#[derive(Clone, Copy)]
pub struct ServiceFile;

impl FileRole for ServiceFile {
    ghost use Rattle.line_file.specs.Shape.{IsService};
    ghost use Rattle.line_file.specs.declared.service.ServiceFault.TheVariants.{NoMemory};
    ghost use Rattle.plan_files.specs.Kinds.{service_kind};

    type Said = Service;

    type Fault = ServiceFault;

    ghost kind = { service_kind };

    ghost no_memory = { NoMemory };

    ghost shape = { IsService };

    ghost steps_of = { λ _. 0 };

    fn role() -> &'static [u8] {
        b"service"
    }

    fn most() -> usize {
        MOST_BYTES
    }

    fn read<L: Ledger>(
        alloc: Global,
        text: &[u8],
        _steps: &mut Steps<L>,
    ) -> Result<Service, ServiceFault> {
        read_service(alloc, text)
    }

    fn words(alloc: Global, fault: ServiceFault) -> Result<Vec<u8>, AllocError> {
        service_words(alloc, fault)
    }
}
