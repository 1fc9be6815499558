//! The program `costate`: driver advice for one train on one line, with a bound by costates.
#![tactic(auto)]

ghost use Rattle.std.specs.Prelude.{◌≡◌, ◌<◌};

use costate_run::run_arguments;
use edge_io::{FileShelf, OutSink};
use proposers::{Dips, EarlyBraking, LateCoasting, Proposer};
use std::alloc::AllocError;
use std::marker::Brand;
use std::process::ExitCode;
use std::rt::{Env, Files};
use std::sync::ledger::{Blank, Ledger};
use std::{env, io};
use step_energy::Steps;

/// The status where there is no memory.
const NO_MEMORY: u8 = 8;

/// Runs the program over the arguments, the files and the standard output of the system, with the boxes that propose drives and a counter of
/// its own. Or want of memory.
fn run_counted<R: Env + Files + Print + AllocGlobal, L: Ledger>(
    rt: &R,
    blank: Blank,
) -> Result<u8, AllocError>
    requires name { blank.name ≡ L.name }
    requires parts { blank.parts ≡ L.parts }
    requires some { 0 < L.parts }
{
    let alloc = rt.alloc();
    let mut boxes: Vec<Box<dyn Proposer>> = Vec::new(alloc);
    boxes.push(Box::new(alloc, Dips::new(alloc))?)?;
    boxes.push(Box::new(alloc, LateCoasting::new(alloc))?)?;
    boxes.push(Box::new(alloc, EarlyBraking::new(alloc))?)?;
    let mut steps: Steps<L> = Steps::new(blank);
    let mut shelf = FileShelf::new(alloc, rt);
    let mut sink = OutSink::new(io::writer(rt));
    Ok(run_arguments(
        alloc,
        env::args(rt),
        &mut shelf,
        &mut sink,
        boxes,
        &mut steps,
    ))
}

fn main(rt: HostRuntime) -> ExitCode {
    match run_counted::<HostRuntime, Brand>(&rt, Blank::new(1)) {
        Ok(status) => ExitCode::from(status),
        Err(_) => ExitCode::from(NO_MEMORY),
    }
}
