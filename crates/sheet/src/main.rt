//! The program `sheet`: the drive of a report as a timetable, as points or as a picture.
#![tactic(auto)]

ghost use Rattle.std.specs.Prelude.{◌≡◌, ◌<◌};

use edge_io::{FileShelf, OutSink};
use sheet_run::run_arguments;
use std::marker::Brand;
use std::process::ExitCode;
use std::rt::{Env, Files};
use std::sync::ledger::{Blank, Ledger};
use std::{env, io};
use step_energy::Steps;

/// Runs the program over the arguments, the files and the standard output of the system, with a counter of its own.
fn run_counted<R: Env + Files + Print + AllocGlobal, L: Ledger>(rt: &R, blank: Blank) -> u8
    requires name { blank.name ≡ L.name }
    requires parts { blank.parts ≡ L.parts }
    requires some { 0 < L.parts }
{
    let alloc = rt.alloc();
    let mut steps: Steps<L> = Steps::new(blank);
    let mut shelf = FileShelf::new(alloc, rt);
    let mut sink = OutSink::new(io::writer(rt));
    run_arguments(alloc, env::args(rt), &mut shelf, &mut sink, &mut steps)
}

fn main(rt: HostRuntime) -> ExitCode {
    let status = run_counted::<HostRuntime, Brand>(&rt, Blank::new(1));
    ExitCode::from(status)
}
